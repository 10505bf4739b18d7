//! How many lines of a journal were sent.
ghost use Rattle.std.specs.Prelude.{◌≡◌, ℕ, List, length};
ghost use Rattle.batch_journal.specs.Journals.{IsJournal, recovered};
ghost use Rattle.batch_keep.specs.Counts.{count_from, count_of, is_counted_behind, own_lines, sent_lines};

use batch_journal::recovered_are_lines;
use batch_text::Name;
use memchr::memchr;

/// The length of a journal's header.
const HEADER_LEN: usize = 84;

/// How many lines of a recovered journal were sent.
pub(crate) fn sent_count(text: &[u8], documents: &[u8; 64]) -> usize
    requires { (sum : List ℕ) × IsJournal documents.now text.now sum }
    ensures { result ≡ length (sent_lines (recovered documents.now text.now)) }
{
    count(text, documents, true, b"")
}

/// How many lines of a recovered journal were sent by the desk of this name.
pub(crate) fn own_count(text: &[u8], documents: &[u8; 64], name: &Name) -> usize
    requires { (sum : List ℕ) × IsJournal documents.now text.now sum }
    ensures { result ≡ length (own_lines name.now (recovered documents.now text.now)) }
{
    count(text, documents, false, name.text().as_bytes())
}

/// How many lines of a recovered journal were sent, by anybody or by the desk of this name.
fn count(text: &[u8], documents: &[u8; 64], all: bool, name: &[u8]) -> usize
    requires { (sum : List ℕ) × IsJournal documents.now text.now sum }
    ensures { result ≡ count_from all name.now all (recovered documents.now text.now) }
{
    recovered_are_lines();
    let mut counted = all;
    let mut count = 0;
    let mut rest = &text[HEADER_LEN..];
    while let Some(at) = memchr(b'\n', rest) {
        let line = &rest[..at];
        count += count_of(line, counted);
        counted = is_counted_behind(line, all, name, counted);
        rest = &rest[at + 1..];
    }
    count
}

/// The number that a line adds: 0 if it is a comment or isn't counted.
fn count_of(line: &[u8], counted: bool) -> usize
    ensures { result ≡ count_of counted line.now }
{
    if line.starts_with(b"#") || !counted {
        0
    } else {
        1
    }
}

/// Whether the lines behind this one are counted: a comment says whose they are, up to the next.
fn is_counted_behind(line: &[u8], all: bool, name: &[u8], counted: bool) -> bool
    ensures { result ≡ is_counted_behind all name.now counted line.now }
{
    if line.starts_with(b"# from ") {
        all || &line[7..] == name
    } else {
        counted
    }
}
