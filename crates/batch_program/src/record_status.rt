//! Printing the state to which a record leads.
ghost use Rattle.std.specs.Prelude.{◌≡◌, ◌⊎◌, ℕ, IfErr, IfOk, IfSome, option_map, string_bytes};
ghost use Rattle.batch_verdicts.specs.Running.{IsPrinted, IsUnwritten, memory_status};
ghost use Rattle.batch_program.specs.PlantRuns.{refused_status};
ghost use Rattle.batch_program.specs.RecordRuns.{IsRecordTold, IsStatusOf, IsStatusTold, no_record_text};
ghost use Rattle.batch_record.specs.StatusReading.{IsRefusedAt};
ghost use Rattle.batch_record.specs.declared.status_reading.StatusFault.TheVariants.{NoRecord};

use crate::complaints::{complain_file, complain_stream};
use crate::program::MAX_READS;
use crate::records::Records;
use crate::statuses::REFUSED;
use batch_pipes::Noted;
use batch_record::{StatusFault, read_status};
use batch_verdicts::{FILE_FAULT, NO_MEMORY, OUT_OF_MEMORY, SUCCESS, complain, print, print_bytes};
use std::alloc::{AllocError, Global};
use std::io::{Read, Write};

/// Prints the state to which the record at the path leads, or the one on the input if no path is given, and gives the exit status.
// claim: record told
pub fn print_record_state<D: Records, R: Read, W: Write, E: Write>(
    alloc: Global,
    path: Option<String>,
    records: &D,
    input: &mut Noted<R>,
    output: &mut W,
    errors: &mut E,
) -> u8
    ensures { IsRecordTold (D.holds records.now) (option_map string_bytes path)
        (record {
          unread = R.remaining input.old.stream;
          left = R.remaining input.new.stream;
          before = W.contents output.old;
          after = W.contents output.new;
        })
        (record { before = E.contents errors.old; after = E.contents errors.new }) result }
{
    match path {
        None => print_status(alloc, input, output, errors),
        Some(path) => match records.open(&path) {
            Ok(opened) => print_status(alloc, &mut Noted::new(opened), output, errors),
            Err(reason) => complain_file(alloc, &path, reason, errors),
        },
    }
}

/// Prints the state to which the reader's record leads, or which line is none of a record, and gives the exit status.
// claim: record told; no record
pub fn print_status<R: Read, W: Write, E: Write>(
    alloc: Global,
    input: &mut Noted<R>,
    output: &mut W,
    errors: &mut E,
) -> u8
    ensures { IsStatusTold (R.remaining input.old.stream) (record { before = W.contents output.old; after = W.contents output.new })
        (record { before = E.contents errors.old; after = E.contents errors.new }) result }
{
    match status_text(alloc, input) {
        Ok(text) => print_bytes(output, errors, &text, SUCCESS),
        Err(StatusFault::NoRecord(line)) => refuse_line(alloc, line, output, errors),
        Err(StatusFault::Memory) => complain(errors, OUT_OF_MEMORY, NO_MEMORY),
        Err(fault) => complain_stream(fault, input.failure(), FILE_FAULT, errors),
    }
}

/// The lines of the state to which the reader's record leads.
fn status_text<R: Read>(alloc: Global, reader: &mut R) -> Result<Vec<u8>, StatusFault>
    ensures told { IfOk result (λ text. IfSome (R.remaining reader.old) (λ input. IsStatusOf input text.items)) }
    ensures refused { IfErr result (λ fault. (number : ℕ) → fault ≡ NoRecord number
        → IfSome (R.remaining reader.old) (λ input. IsRefusedAt input number)) }
{
    match read_status(alloc, reader, MAX_READS)?.text(alloc, b"") {
        Ok(text) => Ok(text),
        Err(_) => Err(StatusFault::Memory),
    }
}

/// Prints that the line with this number is none of a record, and gives the exit status.
pub(crate) fn refuse_line<W: Write, E: Write>(
    alloc: Global,
    line: u64,
    output: &mut W,
    errors: &mut E,
) -> u8
    ensures { IsPrinted (record { before = W.contents output.old; after = W.contents output.new })
        (record { before = E.contents errors.old; after = E.contents errors.new }) (no_record_text line) refused_status result
        ⊎ (IsUnwritten (record { before = W.contents output.old; after = W.contents output.new }) × (result ≡ memory_status)) }
{
    match no_record_text(alloc, line) {
        Ok(text) => print(output, errors, &text, REFUSED),
        Err(_) => complain(errors, OUT_OF_MEMORY, NO_MEMORY),
    }
}

/// The refusal of the line with this number.
fn no_record_text(alloc: Global, line: u64) -> Result<String, AllocError>
    ensures { IfOk result (λ text. string_bytes text ≡ no_record_text line) }
{
    format!(in alloc; "refused R1 {line}\n")
}
