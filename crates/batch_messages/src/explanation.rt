//! Explanations of codes.
ghost use Rattle.std.specs.Prelude.{◌≡◌, IfOk, MatchOption, find, flat_map, map, option_map, string_bytes};
ghost use Rattle.std.specs.Str.{str_eq_ignore_ascii_case};
ghost use Rattle.batch_messages.specs.Explaining.{HaveNoCode, TellsCodes, code_among, code_in, code_of_word, meant, refusal_codes, explanation_text};

use crate::table::explanations;
use std::alloc::{AllocError, Global};

/// The meaning of a code, and the remedy.
#[derive(Clone, Copy)]
pub struct Explanation {
    /// The code as it is printed behind `refused`.
    pub code: &'static str,
    /// The fault that the code stands for; if it has two uses, both, with `; or ` between.
    pub meaning: &'static str,
    /// The advice to the user.
    pub remedy: &'static str,
}

/// The explanation of the first code in these texts, or without texts the meaning of each code, in whole lines. The code is a word of
/// its own, in capitals or not. None where no word of the texts is a code.
// claim: explained code
pub fn explain(alloc: Global, texts: &[String]) -> Result<Option<String>, AllocError>
    ensures { IfOk result (λ explanation_text. MatchOption explanation_text (HaveNoCode (map string_bytes texts.now))
        (λ text. TellsCodes (map string_bytes texts.now) (string_bytes text))) }
{
    if texts.is_empty() {
        return Ok(Some(meanings(alloc, &explanations())?));
    }
    match explanation_among(texts) {
        Some(explanation) => Ok(Some(explanation_text(alloc, explanation)?)),
        None => Ok(None),
    }
}

/// The meaning of each code, a line for each.
fn meanings(alloc: Global, table: &[Explanation]) -> Result<String, AllocError>
    ensures { IfOk result (λ text. string_bytes text ≡ flat_map meant table.now) }
{
    let mut text = String::new(alloc);
    for explanation in table {
        let line = meaning_text(alloc, *explanation)?;
        text.push_str(&line)?;
    }
    Ok(text)
}

fn meaning_text(alloc: Global, explanation: Explanation) -> Result<String, AllocError>
    ensures { IfOk result (λ text. string_bytes text ≡ meant explanation) }
{
    let Explanation { code, meaning, .. } = explanation;
    format!(in alloc; "{code}: {meaning}.\n")
}

/// The explanation in two lines: the meaning of the code, and the remedy.
fn explanation_text(alloc: Global, explanation: Explanation) -> Result<String, AllocError>
    ensures { IfOk result (λ text. string_bytes text ≡ explanation_text explanation) }
{
    let Explanation {
        code,
        meaning,
        remedy,
    } = explanation;
    format!(in alloc; "{code}: {meaning}.\nTo do: {remedy}.\n")
}

/// The explanation of the first code in the texts.
fn explanation_among(texts: &[String]) -> Option<Explanation>
    ensures { option_map (λ explanation. explanation.code.now) result ≡ code_among (map string_bytes texts.now) }
{
    for text in texts {
        if let Some(explanation) = explanation_in(text.as_bytes()) {
            return Some(explanation);
        }
    }
    None
}

/// The explanation of the first code among the words of the text.
fn explanation_in(text: &[u8]) -> Option<Explanation>
    ensures { option_map (λ explanation. explanation.code.now) result ≡ code_in text.now }
{
    for word in text.split(|byte| byte.is_ascii_whitespace()) {
        if let Some(explanation) = explanation_of(word) {
            return Some(explanation);
        }
    }
    None
}

/// The explanation of the code that the word is.
fn explanation_of(word: &[u8]) -> Option<Explanation>
    ensures { option_map (λ explanation. explanation.code.now) result ≡ code_of_word word.now }
{
    found_in(&explanations(), word)
}

/// The first explanation of the table that is of the code.
fn found_in(table: &[Explanation], word: &[u8]) -> Option<Explanation>
    ensures { result ≡ find (λ explanation. str_eq_ignore_ascii_case explanation.code.now word.now) table.now }
{
    table
        .iter()
        .copied()
        .find(|explanation| is_same(explanation.code, word))
}

/// Whether the word is the code, in capitals or not.
fn is_same(code: &str, word: &[u8]) -> bool
    ensures { result ≡ str_eq_ignore_ascii_case code.now word.now }
{
    code.as_bytes().eq_ignore_ascii_case(word)
}
