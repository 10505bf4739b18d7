//! Sentences.
ghost use Rattle.std.specs.Prelude.{◌≡◌, ◌++◌, IfOk, codes, string_bytes};
ghost use Rattle.batch_messages.specs.Shown.{IsOneLine, shown};

use crate::showing::shown;
use std::alloc::{AllocError, Global};

/// The meaning of a refusal, in words for a person.
#[derive(Drop)]
pub struct Sentence {
    /// One line, without its line feed.
    pub text: String,
    // claim: one line
    ghost one_line: { IsOneLine (string_bytes text) },
}

impl Sentence {
    /// The text as a sentence, with its control characters as escapes.
    pub fn of(alloc: Global, text: &str) -> Result<Sentence, AllocError>
        ensures { IfOk result (λ sentence. string_bytes sentence.text ≡ shown text.now) }
    {
        let text = shown(alloc, text)?;
        Ok(Sentence { text })
    }

    /// The sentence on the document at this path: the path, and then these words.
    // claim: sentence on a document
    pub fn at(alloc: Global, path: &str, said: &str) -> Result<Sentence, AllocError>
        ensures { IfOk result (λ sentence. string_bytes sentence.text ≡ shown (path.now ++ codes ": " ++ said.now)) }
    {
        let told = format!(in alloc; "{path}: {said}")?;
        Sentence::of(alloc, told.as_str())
    }
}
