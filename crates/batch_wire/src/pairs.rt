//! Pairs, `NAME=..`, after the words of a line.
ghost use Rattle.std.specs.Prelude.{◌≡◌, length, nat_le, IsOkUnless, MatchOption};
ghost use Rattle.std.specs.List.{before_first, after_first};
ghost use Rattle.batch_wire.specs.EventLine.{event_words, is_equals};

use crate::words::EventWords;

/// Whether there are no more than so many words.
pub fn are_at_most(mut line: EventWords<'_>, most: usize) -> bool
    ensures { result ≡ nat_le (length (event_words line.entry.rest.now)) most }
{
    let mut left = most;
    while left > 0 {
        if line.next().is_none() {
            return true;
        }
        left -= 1;
    }
    line.next().is_none()
}

/// The parts of the word before and after its first `=`.
pub fn parted(word: &[u8]) -> (&[u8], &[u8])
    ensures front { result.0.now ≡ before_first is_equals word.now }
    ensures behind { result.1.now ≡ after_first is_equals word.now }
{
    for (i, byte) in word.iter().enumerate() {
        if *byte == b'=' {
            return (&word[..i], &word[i + 1..]);
        }
    }
    (word, b"")
}
