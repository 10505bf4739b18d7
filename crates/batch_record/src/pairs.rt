//! Pairs, `NAME=..`, after the words of a line.
ghost use Rattle.std.specs.Prelude.{◌≡◌};
ghost use Rattle.std.specs.List.{list_all};
ghost use Rattle.batch_wire.specs.EventLine.{is_role_pair};
ghost use Rattle.batch_record.specs.RecordLine.{words_left, is_plain_value};

use crate::word::{parted, plain_number};
use crate::words::Words;
use batch_text::is_name;

/// Whether each word is a name, `=` and a number.
pub fn are_plain_values(mut words: Words<'_>) -> bool
    ensures { result ≡ list_all is_plain_value (words_left words.entry.rest) }
{
    while let Some(word) = words.next() {
        if !is_plain_value(word) {
            return false;
        }
    }
    true
}

fn is_plain_value(word: &[u8]) -> bool
    ensures { result ≡ is_plain_value word.now }
{
    let (name, number) = parted(word, b'=');
    is_name(name) && plain_number(number).is_some()
}

/// Whether each word is a name, `=` and a name.
pub fn are_role_pairs(mut words: Words<'_>) -> bool
    ensures { result ≡ list_all is_role_pair (words_left words.entry.rest) }
{
    while let Some(word) = words.next() {
        if !is_role_pair(word) {
            return false;
        }
    }
    true
}

fn is_role_pair(word: &[u8]) -> bool
    ensures { result ≡ is_role_pair word.now }
{
    let (role, unit) = parted(word, b'=');
    is_name(role) && is_name(unit)
}
