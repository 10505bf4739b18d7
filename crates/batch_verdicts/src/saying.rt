//! The sentences for a person beside a verdict.
ghost use Rattle.std.specs.Prelude.{◌≡◌, IfOk, string_bytes};
ghost use Rattle.std.specs.List.{flat_map};
ghost use Rattle.batch_verdicts.specs.Saying.{AreSaid, WritesFront, sentence_line};

use crate::refusal::DocumentRefusal;
use std::alloc::{AllocError, Global};
use std::io::Write;

/// Writes the sentences of the refusals, a line each, unless quiet is asked for. If there is no memory for the lines, they are left
/// out; if they can't be written, the rest of them is.
// claim: sentences on the errors
pub(crate) fn write_sentences<E: Write>(
    alloc: Global,
    quiet: bool,
    refusals: &[DocumentRefusal],
    errors: &mut E,
)
    ensures { AreSaid quiet refusals.now (E.contents errors.old) (E.contents errors.new) }
{
    if quiet {
        return;
    }
    if let Ok(text) = lines_text(alloc, refusals) {
        write_and_flush(errors, &text);
    }
}

fn lines_text(alloc: Global, refusals: &[DocumentRefusal]) -> Result<String, AllocError>
    ensures { IfOk result (λ text. string_bytes text ≡ flat_map (λ r. sentence_line r.sentence) refusals.now) }
{
    let mut text = String::new(alloc);
    for refusal in refusals {
        writeln!(text, "batchd: {}", refusal.sentence.text)?;
    }
    Ok(text)
}

/// Writes the line and flushes it. If it can't be written, the rest of it is left out.
pub fn write_and_flush<E: Write>(errors: &mut E, line: &str)
    ensures { WritesFront (E.contents errors.old) (E.contents errors.new) line.now }
{
    write_front(errors, line.as_bytes());
    let _ = errors.flush();
}

fn write_front<E: Write>(errors: &mut E, bytes: &[u8])
    ensures { WritesFront (E.contents errors.old) (E.contents errors.new) bytes.now }
{
    let mut rest = bytes;
    while !rest.is_empty() {
        match errors.write(rest) {
            Ok(0) | Err(_) => return,
            Ok(count) => rest = &rest[count..],
        }
    }
}
