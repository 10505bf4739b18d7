//! Reading a line that may be one of a record.
ghost use Rattle.std.specs.Prelude.{◌≡◌, true, false, IfOk, IfSome, IsErr, IsTrue, MatchOption, MatchResult, None, Some};
ghost use Rattle.batch_record.specs.Laws.{TellsOut, TellsNothing, is_fault_line, is_passed_over};
ghost use Rattle.batch_record.specs.Reading.{out_told};
ghost use Rattle.batch_record.specs.RecordLine.{out_of_line};

use crate::read::read_out;
use crate::told::RecordedOut;

/// The line is no line of a record.
#[derive(Clone, Copy)]
pub struct NoRecordLine;

/// The out of the line, or None if it is a comment or says that an event line was refused before the machine saw it. The
/// line comes without its line feed.
// claim: lines of a record
pub fn read_record_line(line: &[u8]) -> Result<Option<RecordedOut<'_>>, NoRecordLine>
    ensures ok { IfOk result (λ told. MatchOption told
        ((is_passed_over line.now ≡ true) × TellsNothing line.now)
        (λ told. (is_passed_over line.now ≡ false) × TellsOut line.now (out_told told))) }
    ensures refused { IsErr result → (is_passed_over line.now ≡ false) × TellsNothing line.now }
    ensures read { MatchResult result (λ told. IfSome told (λ told. out_of_line line.now ≡ Some (out_told told))) (λ _. out_of_line line.now ≡ None) }
{
    if is_passed_over(line) {
        return Ok(None);
    }
    match read_out(line) {
        Some(told) => Ok(Some(told)),
        None => Err(NoRecordLine),
    }
}

/// Whether the line is a comment, or says that an event line was refused before the machine saw it. Then it is the text of no out.
fn is_passed_over(line: &[u8]) -> bool
    ensures value { result ≡ is_passed_over line.now }
    ensures nothing { IsTrue result → TellsNothing line.now }
{
    is_comment_or_fault(line)
}

fn is_comment_or_fault(line: &[u8]) -> bool
    ensures { result ≡ is_passed_over line.now }
{
    line.starts_with(b"#") || is_fault_line(line)
}

/// Whether the line says that an event line was refused.
fn is_fault_line(line: &[u8]) -> bool
    ensures { result ≡ is_fault_line line.now }
{
    line == b"refused W1".as_slice()
        || line == b"refused W2".as_slice()
        || line == b"refused W3".as_slice()
        || line == b"refused W4".as_slice()
        || line == b"refused W5".as_slice()
        || line == b"refused W6".as_slice()
}
