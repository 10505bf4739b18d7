//! Comparing a record with the lines that were sent.
ghost use Rattle.std.specs.Prelude.{◌≡◌, ◌⊎◌, ℕ, List, Option, IfOk, IfSome, string_bytes};
ghost use Rattle.batch_verdicts.specs.Running.{IsPrinted, IsUnwritten, fault_status, memory_status};
ghost use Rattle.batch_program.specs.AuditRuns.{IsAuditTold, finding_status, finding_text};
ghost use Rattle.batch_program.specs.RecordRuns.{IsUntold};
ghost use Rattle.batch_program.specs.Telling.{IsFindingTold};

use crate::complaints::{complain_file, complain_stream};
use crate::records::Records;
use crate::statuses::REFUSED;
use batch_cli::AuditWords;
use batch_keep::{AuditFault, Finding, audit};
use batch_pipes::Noted;
use batch_verdicts::{FILE_FAULT, NO_MEMORY, OUT_OF_MEMORY, SUCCESS, complain, print};
use batch_verify::Cleared;
use std::alloc::{AllocError, Global};
use std::io;
use std::io::{ErrorKind, Read, Write};

/// Prints whether the record that the words name is that of the event lines of the input over the set, and gives the exit status. A
/// record that ends too soon is accepted if they say so.
///
/// The record is kept in memory, and so are the lines that were sent.
// claim: record audited
pub fn audit_record<D: Records, R: Read, W: Write, E: Write>(
    alloc: Global,
    set: Cleared,
    words: &AuditWords,
    records: &D,
    input: &mut Noted<R>,
    output: &mut W,
    errors: &mut E,
) -> u8
    ensures { IsAuditTold (D.holds records.now) set words.now.beginning (string_bytes words.now.path)
        (record {
          unread = R.remaining input.old.stream;
          left = R.remaining input.new.stream;
          before = W.contents output.old;
          after = W.contents output.new;
        })
        (record { before = E.contents errors.old; after = E.contents errors.new }) result }
{
    match record_at(alloc, &words.path, records) {
        Ok(text) => print_audit(alloc, set, words.beginning, &text, input, output, errors),
        Err(reason) => complain_unread(alloc, &words.path, reason, errors),
    }
}

/// All bytes of the record at the path.
fn record_at<D: Records>(alloc: Global, path: &str, records: &D) -> io::Result<Vec<u8>>
    ensures { IfOk result (λ text. (given : Option (List ℕ)) × D.holds records.now path.now given × IfSome given (λ bytes. text.items ≡ bytes)) }
{
    let mut text = Vec::new(alloc);
    let mut opened = records.open(path)?;
    opened.read_to_end(&mut text)?;
    Ok(text)
}

/// Prints whether the text is the record of the event lines of the input over the set, and gives the exit status.
fn print_audit<R: Read, W: Write, E: Write>(
    alloc: Global,
    set: Cleared,
    beginning: bool,
    text: &[u8],
    input: &mut Noted<R>,
    output: &mut W,
    errors: &mut E,
) -> u8
    ensures { IsFindingTold set beginning (R.remaining input.old.stream) text.now
        (record { before = W.contents output.old; after = W.contents output.new })
        (record { before = E.contents errors.old; after = E.contents errors.new }) result
        ⊎ IsUntold (record { before = W.contents output.old; after = W.contents output.new }) result }
{
    match audit(alloc, set, input, text) {
        Ok(finding) => print_finding(alloc, beginning, finding, output, errors),
        Err(fault) => complain_unfound(fault, input.failure(), errors),
    }
}

/// Prints the finding on a record, and gives the exit status.
fn print_finding<W: Write, E: Write>(
    alloc: Global,
    beginning: bool,
    finding: Finding,
    output: &mut W,
    errors: &mut E,
) -> u8
    ensures { IsPrinted (record { before = W.contents output.old; after = W.contents output.new })
        (record { before = E.contents errors.old; after = E.contents errors.new }) (finding_text beginning finding) (finding_status beginning finding) result
        ⊎ (IsUnwritten (record { before = W.contents output.old; after = W.contents output.new }) × (result ≡ memory_status)) }
{
    match finding_text(alloc, beginning, finding) {
        Ok(text) => print(output, errors, &text, finding_status(beginning, finding)),
        Err(_) => complain(errors, OUT_OF_MEMORY, NO_MEMORY),
    }
}

/// The line of the finding on a record.
fn finding_text(alloc: Global, beginning: bool, finding: Finding) -> Result<String, AllocError>
    ensures { IfOk result (λ text. string_bytes text ≡ finding_text beginning finding) }
{
    match finding {
        Finding::Differs(line) => format!(in alloc; "refused A1 {line}\n"),
        Finding::EndsBefore(line) if !beginning => format!(in alloc; "refused A2 {line}\n"),
        _ => String::from_str(alloc, "accepted\n"),
    }
}

/// The exit status with that line.
fn finding_status(beginning: bool, finding: Finding) -> u8
    ensures { result ≡ finding_status beginning finding }
{
    match finding {
        Finding::Agrees => SUCCESS,
        Finding::EndsBefore(_) if beginning => SUCCESS,
        _ => REFUSED,
    }
}

/// Reports why the file at the path can't be opened, read or written, and gives the exit status.
pub(crate) fn complain_unread<E: Write>(
    alloc: Global,
    path: &str,
    reason: io::Error,
    errors: &mut E,
) -> u8
    ensures { (result ≡ fault_status) ⊎ (result ≡ memory_status) }
{
    if reason.kind() == ErrorKind::OutOfMemory {
        return complain(errors, OUT_OF_MEMORY, NO_MEMORY);
    }
    complain_file(alloc, path, reason, errors)
}

/// Reports why a record wasn't compared, with the stream's reason if it gave one, and gives the exit status.
fn complain_unfound<E: Write>(fault: AuditFault, reason: Option<io::Error>, errors: &mut E) -> u8
    ensures { (result ≡ fault_status) ⊎ (result ≡ memory_status) }
{
    match fault {
        AuditFault::Memory => complain(errors, fault, NO_MEMORY),
        AuditFault::Read => complain_stream(fault, reason, FILE_FAULT, errors),
    }
}
