//! Hints for a text that is no chart.
use crate::documents::entry::Entry;
use crate::near::meant_said;
use batch_reader::TableKind;
use std::alloc::{AllocError, Global};

/// The words that may precede a bracket.
const FORMS: [&str; 4] = ["seq", "par", "sel", "loop"];

const ONE_AFTER_ANOTHER: &str = "; steps that come one after the other stand in seq(..)";

const SEL: &str = "; a choice is sel(CONDITION: CHART, else: CHART)";

const LOOP: &str = "; a loop is loop(TURNS, CONDITION, CHART)";

const CONDITION: &str =
    "; a condition compares a name with a number or a name once, as `X > 45`, without `and`, `or` or `not`";

/// The text before a byte of a chart, within the innermost bracket that is open there.
#[derive(Clone, Copy)]
struct Inside<'a> {
    /// The word before the bracket, empty where none is open.
    form: &'a str,
    /// The number of the bracket's commas up to the byte.
    commas: usize,
    /// Whether a colon follows the last of these commas.
    has_colon: bool,
    /// The text behind the last bracket that opens, comma or colon.
    piece: &'a str,
}

impl Entry<'_> {
    /// A hint for the author of the table's chart, which is none from the byte on.
    pub(crate) fn hint_said(self, byte: usize) -> Result<String, AllocError> {
        let chart = self.text_at("chart");
        let (front, rest) = chart.split_at_checked(byte).unwrap_or(("", ""));
        let front = front.trim_end();
        let word = last_word(front);
        if rest.starts_with('(') && !word.is_empty() {
            return bracket_said(self.alloc, word, self.spot.kind);
        }
        String::from_str(self.alloc, sign_hint(inside_of(front), word, rest))
    }
}

/// The word at the end of the text, which may be empty.
fn last_word(text: &str) -> &str {
    let front = text.trim_end_matches(is_of_words);
    text.get(front.len()..).unwrap_or("")
}

/// Whether names may have this letter.
pub(crate) fn is_of_words(letter: char) -> bool {
    letter.is_ascii_alphanumeric() || letter == '_' || letter == '-'
}

/// Says that no bracket follows the word.
fn bracket_said(alloc: Global, word: &str, kind: TableKind) -> Result<String, AllocError> {
    if kind == TableKind::UnitProcedure && word == "par" {
        return String::from_str(alloc, "; the chart of a unit procedure has no `par`");
    }
    if word == "if" {
        return String::from_str(alloc, SEL);
    }
    let meant = meant_said(alloc, word, &FORMS)?;
    format!(in alloc;
        "; a bracket stands behind seq, par, sel and loop alone, not behind `{word}`{meant}"
    )
}

/// A hint for a sign that no chart has, or not behind this word, or else at the contents that the bracket is to have.
fn sign_hint(inside: Inside<'_>, word: &str, rest: &str) -> &'static str {
    let mut letters = rest.chars();
    match (letters.next(), letters.next()) {
        (Some('#'), _) | (Some('/'), Some('/' | '*')) => "; a chart has no comments",
        (Some('-' | '='), Some('>')) | (Some('\u{2192}'), _) => arrow_hint(inside),
        (Some('=' | '<' | '>' | '!' | '\u{2264}' | '\u{2265}' | '\u{2260}'), _) => {
            "; values compare by <, <=, =, /=, >= and >"
        }
        (Some('&' | '|'), _) if may_compare(inside) => CONDITION,
        (Some('&' | '|'), _) =>
            "; steps that run side by side stand in par(..), a choice in sel(..)",
        (Some('-'), _) => "; numbers aren't negative",
        (Some('.'), behind) if is_in_number(word, behind) => "; numbers are whole",
        (Some('.'), _) => "; a label is the name of one act, and has no dot",
        (Some(';'), _) if rest.trim_end() == ";" => "; no sign ends a chart",
        (Some('[' | '{'), _) => "; the brackets of charts are round",
        (Some('\'' | '"'), _) => "; names stand without quotes",
        (Some(letter), _) if !letter.is_ascii() => {
            "; names have the letters a to z and A to Z, digits, `_` and `-`"
        }
        _ => form_hint(inside, rest),
    }
}

fn arrow_hint(inside: Inside<'_>) -> &'static str {
    if inside.form == "sel" && !inside.has_colon {
        SEL
    } else {
        ONE_AFTER_ANOTHER
    }
}

/// Whether the end of the bracket's text may belong to a condition.
fn may_compare(inside: Inside<'_>) -> bool {
    match inside.form {
        "sel" => !inside.has_colon,
        "loop" => inside.commas == 1,
        _ => false,
    }
}

/// Whether a number precedes a dot, or follows it without a word before it.
fn is_in_number(word: &str, behind: Option<char>) -> bool {
    let near = word.chars().next().or(behind);
    near.is_some_and(|letter| letter.is_ascii_digit())
}

/// A hint at the contents that the bracket, or the whole chart, is to have.
fn form_hint(inside: Inside<'_>, rest: &str) -> &'static str {
    let Inside {
        form,
        commas,
        has_colon,
        piece,
    } = inside;
    match (form, commas, rest.chars().next()) {
        ("", _, Some(')')) => "; no bracket is open here",
        ("", _, _) if piece.is_empty() => "; a chart names one act at least, or is `skip`",
        ("", _, _) => ONE_AFTER_ANOTHER,
        ("loop", 0, _) | ("loop", 1, Some(')')) => LOOP,
        ("loop", 1, _) => CONDITION,
        ("loop", _, Some(',')) if !piece.is_empty() => {
            "; a loop has one chart, and steps that come one after the other stand in seq(..)"
        }
        ("sel", _, Some(')')) => SEL,
        ("sel", _, Some(',')) if !has_colon => SEL,
        ("sel", _, _) if !has_colon && is_otherwise(piece) => SEL,
        ("sel", _, _) if !has_colon => CONDITION,
        (_, _, None) => "; a bracket isn't closed",
        _ if piece.is_empty() => "; a chart is missing here",
        ("par", 0, Some(')')) => "; a `par` has two charts or more",
        _ if piece == "else" => {
            "; `else` is a word of charts, which stands before the last branch of a `sel`"
        }
        _ if FORMS.contains(&piece) => "; a bracket stands behind seq, par, sel and loop",
        _ => "; a comma stands between charts",
    }
}

/// Whether the last branch of a choice begins with this word, in charts or elsewhere.
fn is_otherwise(word: &str) -> bool {
    let words = ["else", "otherwise", "default"];
    words.iter().any(|other| word.eq_ignore_ascii_case(other))
}

/// The contents of the innermost bracket that is open at the end of the text.
fn inside_of(front: &str) -> Inside<'_> {
    let mut inside = Inside {
        form: "",
        commas: 0,
        has_colon: false,
        piece: front.rsplit(['(', ',', ':']).next().unwrap_or("").trim(),
    };
    let mut depth: usize = 0;
    for (at, letter) in front.char_indices().rev() {
        match letter {
            ')' => depth = depth.saturating_add(1),
            '(' if depth == 0 => {
                inside.form = last_word(front.get(..at).unwrap_or("").trim_end());
                break;
            }
            '(' => depth = depth.saturating_sub(1),
            ',' if depth == 0 => inside.commas = inside.commas.saturating_add(1),
            ':' if depth == 0 && inside.commas == 0 => inside.has_colon = true,
            _ => {}
        }
    }
    inside
}
