//! Drawing the picture of a record.
ghost use Rattle.std.specs.Prelude.{◌≡◌, ◌⊎◌, ℕ, IfErr, IfOk, IfSome, Some, option_map, string_bytes};
ghost use Rattle.batch_verdicts.specs.Running.{fault_status, memory_status};
ghost use Rattle.batch_program.specs.DrawingRuns.{IsPictureDrawn, IsRecordDrawn};
ghost use Rattle.batch_record.specs.StatusReading.{IsRefusedAt};
ghost use Rattle.batch_record.specs.Pictures.{picture_text};
ghost use Rattle.batch_record.specs.Recorded.{IsRecord};
ghost use Rattle.batch_record.specs.declared.picture.Picture.{Picture};
ghost use Rattle.batch_record.specs.declared.picture_reading.RecordFault.TheVariants.{NoRecord};

use crate::complaints::complain_file;
use crate::record_status::refuse_line;
use crate::records::Records;
use batch_pipes::Noted;
use batch_record::{RecordFault, draw_record};
use batch_verdicts::{FILE_FAULT, NO_MEMORY, OUT_OF_MEMORY, SUCCESS, complain, print};
use std::alloc::Global;
use std::io;
use std::io::{ErrorKind, Read, Write};
use thiserror::Error;

/// Why a record wasn't read.
#[derive(Debug, Error, Drop)]
#[error("the record can't be read: {0}")]
struct Unread(io::Error);

/// Draws the record at the path, or the one on the input if no path is given, and gives the exit status.
// claim: record drawn
pub fn draw_record_at<D: Records, R: Read, W: Write, E: Write>(
    alloc: Global,
    path: Option<String>,
    records: &D,
    input: &mut Noted<R>,
    output: &mut W,
    errors: &mut E,
) -> u8
    ensures { IsRecordDrawn (D.holds records.now) (option_map string_bytes path)
        (record {
          unread = R.remaining input.old.stream;
          left = R.remaining input.new.stream;
          before = W.contents output.old;
          after = W.contents output.new;
        })
        (record { before = E.contents errors.old; after = E.contents errors.new }) result }
{
    match path {
        None => draw_record_of(alloc, input, output, errors),
        Some(path) => match records.open(&path) {
            Ok(mut opened) => draw_record_of(alloc, &mut opened, output, errors),
            Err(reason) => complain_file(alloc, &path, reason, errors),
        },
    }
}

/// Prints the picture of the reader's record, or which line is none of a record, and gives the exit status.
///
/// The record is kept in memory, and so is its picture.
// claim: record drawn
pub fn draw_record_of<R: Read, W: Write, E: Write>(
    alloc: Global,
    input: &mut R,
    output: &mut W,
    errors: &mut E,
) -> u8
    ensures { IsPictureDrawn (R.remaining input.old) (record { before = W.contents output.old; after = W.contents output.new })
        (record { before = E.contents errors.old; after = E.contents errors.new }) result }
{
    match record_of(alloc, input) {
        Ok(bytes) => draw_bytes(alloc, &bytes, output, errors),
        Err(reason) => complain_unread(reason, errors),
    }
}

/// All bytes that the reader gives.
fn record_of<R: Read>(alloc: Global, reader: &mut R) -> io::Result<Vec<u8>>
    ensures { IfOk result (λ bytes. IfSome (R.remaining reader.old) (λ input. bytes.items ≡ input)) }
{
    let mut bytes = Vec::new(alloc);
    reader.read_to_end(&mut bytes)?;
    Ok(bytes)
}

fn draw_bytes<W: Write, E: Write>(alloc: Global, bytes: &[u8], output: &mut W, errors: &mut E) -> u8
    ensures { IsPictureDrawn (Some bytes.now) (record { before = W.contents output.old; after = W.contents output.new })
        (record { before = E.contents errors.old; after = E.contents errors.new }) result }
{
    match picture_text(alloc, bytes) {
        Ok(text) => print(output, errors, &text, SUCCESS),
        Err(RecordFault::NoRecord(line)) => refuse_line(alloc, line, output, errors),
        Err(RecordFault::Memory) => complain(errors, OUT_OF_MEMORY, NO_MEMORY),
    }
}

/// The text of the record's picture.
fn picture_text(alloc: Global, bytes: &[u8]) -> Result<String, RecordFault>
    ensures told { IfOk result (λ text. IsRecord bytes.now × ((picture : Picture) × (string_bytes text ≡ picture_text picture))) }
    ensures refused { IfErr result (λ fault. (number : ℕ) → fault ≡ NoRecord number → IsRefusedAt bytes.now number) }
{
    let picture = draw_record(alloc, bytes)?;
    Ok(picture.to_string(alloc)?)
}

/// Reports why a record wasn't read, and gives the exit status.
fn complain_unread<E: Write>(reason: io::Error, errors: &mut E) -> u8
    ensures { (result ≡ fault_status) ⊎ (result ≡ memory_status) }
{
    if reason.kind() == ErrorKind::OutOfMemory {
        complain(errors, OUT_OF_MEMORY, NO_MEMORY)
    } else {
        complain(errors, Unread(reason), FILE_FAULT)
    }
}
