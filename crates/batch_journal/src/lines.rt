//! Whole lines of a text, before its first zero byte.
ghost use Rattle.std.specs.Prelude.{◌≡◌, ◌≤◌, [], length, take, drop, IsFalse, IsTrue, MatchOption};
ghost use Rattle.batch_journal.specs.Groups.{AreOthers};
ghost use Rattle.batch_journal.specs.Journals.{journal_format};
ghost use Rattle.batch_journal.specs.Lines.{AreLines, text_of, until_zero, whole_from, whole_lines_before_zero};
ghost use Rattle.batch_journal.specs.Ends.{EndsLine};
ghost use Rattle.batch_journal.specs.Readers.{IsWhole};

use crate::group::is_closing;
use memchr::memchr2;

/// The end of the first line, if a line feed ends it and no zero byte precedes that.
pub(crate) fn next_line(bytes: &[u8]) -> Option<usize>
    ensures { MatchOption result (whole_lines_before_zero bytes.now ≡ []) (λ at. EndsLine at bytes.now) }
{
    match memchr2(0, b'\n', bytes) {
        Some(at) if bytes[at] == b'\n' => Some(at),
        _ => None,
    }
}

/// The end of the whole lines before the first zero.
pub(crate) fn end_of(bytes: &[u8]) -> usize
    ensures within { result ≤ length bytes.now }
    ensures text { take result bytes.now ≡ text_of (whole_lines_before_zero bytes.now) }
    ensures rest { whole_from [] (until_zero (drop result bytes.now)) ≡ [] }
    ensures lines { AreLines (whole_lines_before_zero bytes.now) }
{
    let mut end = 0;
    for i in 0..bytes.len() {
        if bytes[i] == 0 {
            return end;
        }
        if bytes[i] == 10 {
            end = i + 1;
            continue;
        }
    }
    end
}

/// Whether the bytes are whole lines, without a zero byte.
pub fn are_whole_lines(bytes: &[u8]) -> bool
    ensures { IsTrue result → IsWhole bytes.now }
{
    end_of(bytes) == bytes.len()
}

/// Whether one of the whole lines of a text is a closing line.
pub(crate) fn has_own(text: &[u8]) -> bool
    ensures { IsFalse result → AreOthers journal_format (whole_lines_before_zero text.now) }
{
    let mut rest = text;
    while let Some(at) = next_line(rest) {
        if is_closing(&rest[..at]) {
            return true;
        }
        rest = &rest[at + 1..];
    }
    false
}
