//! Serving a reader and a writer.
ghost use Rattle.std.specs.Prelude.{◌≡◌, ◌≤◌, ◌++◌, [], ℕ, take, length, OnOk, IfSome, IsErrOf};
ghost use Rattle.std.specs.Io.KnownBytes.{Keeps, IsAtEnd};
ghost use Rattle.batch_engine.specs.View.{setup, plant_of};
ghost use Rattle.batch_serve.specs.Safe.{TranscriptsAreSafe};
ghost use Rattle.batch_serve.specs.Answering.{WritesAnswer};
ghost use Rattle.batch_serve.specs.Cut.{BeginsLinesRead};
ghost use Rattle.batch_serve.specs.Serving.{Feeds, Finishes};
ghost use Rattle.batch_serve.specs.Settled.{IsSettledEngine};
ghost use Rattle.batch_serve.specs.declared.line_buffer.TheConstants.{KEPT};
ghost use Rattle.batch_wire.specs.EventLine.{event_of_line};
ghost use Rattle.batch_wire.specs.Known.{AreKnown};
ghost use Rattle.batch_wire.specs.Transcript.{lines_of};
ghost use Rattle.batch_wire.specs.WrittenTranscript.{BeginsTranscript, WritesTranscript, WritesWholeLines};

use crate::answering::answer_line;
use crate::fault::ServeFault;
use crate::laws::transcripts_are_safe;
use crate::line_buffer::LineBuffer;
use crate::remarks::Remarks;
use batch_engine::Engine;
use batch_wire::{KnownPlaces, WriteFault, line_feed};
use std::alloc::Global;
use std::io::{ErrorKind, Read, Write};

/// How many bytes one call of the reader may give.
const PIECE_LEN: usize = 65_536;

/// Answers the lines that the reader gives, until its bytes end.
///
/// Each line is read and given to the machine. The remarks on it are written, then the reply, and then each move. The written text
/// is flushed before the reader is called again. An interrupted call of the reader is repeated, and counts among `max_reads`.
/// Memory is asked for events alone. After a read fault, and after `max_reads` calls of the reader, the whole lines read are
/// answered. After a write fault the machine may be ahead of the written text.
// claim: after all reads (too_many_reads, reads_made); remarks are no record
pub fn serve<R: Read, W: Write, M: Remarks<W>>(
    alloc: Global,
    engine: &mut Engine,
    reader: &mut R,
    writer: &mut W,
    remarks: &mut M,
    max_reads: u64,
) -> Result<(), ServeFault>
    // claim: served set stays
    ensures cleared { engine.new.cleared ≡ engine.old.cleared }
    // claim: text of a transcript; outs are a record
    ensures served { OnOk result (IfSome (R.remaining reader.old) (λ input.
        WritesTranscript (setup engine.old.cleared) (plant_of engine.old) (lines_of input) (plant_of engine.new) (W.contents writer.old) (W.contents writer.new))) }
    // claim: input ended
    ensures ended { OnOk result (IsAtEnd (R.remaining reader.new)) }
    // claim: after a read fault
    ensures read_fault { IsErrOf result ServeFault.Read → WritesWholeLines (setup engine.old.cleared) (plant_of engine.old) (plant_of engine.new)
        (R.remaining reader.old) (R.remaining reader.new) (W.contents writer.old) (W.contents writer.new) }
    ensures too_many_reads { IsErrOf result ServeFault.TooManyReads → WritesWholeLines (setup engine.old.cleared) (plant_of engine.old) (plant_of engine.new)
        (R.remaining reader.old) (R.remaining reader.new) (W.contents writer.old) (W.contents writer.new) }
    ensures reads_made { IsErrOf result ServeFault.TooManyReads → IfSome (R.remaining reader.old) (λ input. max_reads ≤ length input) }
    // claim: after a write fault
    ensures write_fault { IsErrOf result ServeFault.Write → IfSome (R.remaining reader.old) (λ input.
        (n : ℕ) × BeginsTranscript (setup engine.old.cleared) (plant_of engine.old) (take n (lines_of input)) (W.contents writer.old) (W.contents writer.new)) }
    // claim: after a write fault, of the lines read
    ensures write_fault_read { IsErrOf result ServeFault.Write → BeginsLinesRead (setup engine.old.cleared) (plant_of engine.old)
        (R.remaining reader.old) (R.remaining reader.new) (W.contents writer.old) (W.contents writer.new) }
    // claim: settled engine
    ensures settled { (IsErrOf result ServeFault.Write → ⊥) → IsSettledEngine engine.old → IsSettledEngine engine.new }
    // So the outs of all these transcripts are a safe record, if the engine was a new one.
    // claim: serving is safe
    ensures safe { TranscriptsAreSafe engine.old.cleared }
{
    transcripts_are_safe(engine.cleared());
    let mut places = KnownPlaces::new();
    let mut line = LineBuffer::new();
    let mut piece = [0u8; PIECE_LEN];
    let mut interrupted = false;
    for _ in 0..max_reads {
        match reader.read(&mut piece) {
            Ok(0) => return Ok(finish(alloc, engine, &line, &mut places, writer, remarks)?),
            Ok(count) => feed(
                alloc,
                engine,
                &mut line,
                &piece[..count],
                &mut places,
                writer,
                remarks,
            )?,
            Err(error) if error.kind() == ErrorKind::Interrupted => interrupted = true,
            Err(_) => return Err(ServeFault::Read),
        }
    }
    Err(if interrupted {
        ServeFault::Read
    } else {
        ServeFault::TooManyReads
    })
}

/// Answers each line that ends in the next bytes, keeps the rest of them, and flushes the writer.
fn feed<W: Write, M: Remarks<W>>(
    alloc: Global,
    engine: &mut Engine,
    line: &mut LineBuffer,
    piece: &[u8],
    places: &mut KnownPlaces,
    writer: &mut W,
    remarks: &mut M,
) -> Result<(), WriteFault>
    requires { AreKnown engine.old.cleared places.old }
    ensures known { AreKnown engine.new.cleared places.new }
    ensures cleared { engine.new.cleared ≡ engine.old.cleared }
    ensures feeds { Feeds (setup engine.old.cleared) (record { plant = plant_of engine.old; line = line.old; written = W.contents writer.old })
        piece.now result (record { plant = plant_of engine.new; line = line.new; written = W.contents writer.new }) }
{
    remarks.read_begins();
    let mut rest = piece;
    while let Some(at) = line_feed(rest) {
        answer_ended(alloc, engine, line, &rest[..at], places, writer, remarks)?;
        rest = &rest[at + 1..];
    }
    line.extend(rest);
    flush(writer)
}

/// Answers the line that ends with these bytes, and begins the next one.
fn answer_ended<W: Write, M: Remarks<W>>(
    alloc: Global,
    engine: &mut Engine,
    line: &mut LineBuffer,
    end: &[u8],
    places: &mut KnownPlaces,
    writer: &mut W,
    remarks: &mut M,
) -> Result<(), WriteFault>
    requires { AreKnown engine.old.cleared places.old }
    ensures known { AreKnown engine.new.cleared places.new }
    ensures cleared { engine.new.cleared ≡ engine.old.cleared }
    ensures begun { OnOk result (line.new ≡ []) }
    ensures answers { WritesAnswer (setup engine.old.cleared) (plant_of engine.old) (event_of_line (take KEPT (line.old ++ end.now)))
        result (plant_of engine.new) (W.contents writer.old) (W.contents writer.new) }
{
    if line.as_slice().is_empty() {
        // Most lines lie in one piece, and are read in place.
        return answer_line(alloc, engine, end, places, writer, remarks);
    }
    line.extend(end);
    answer_line(alloc, engine, line.as_slice(), places, writer, remarks)?;
    line.clear();
    Ok(())
}

/// Answers the last line, which no line feed ends.
fn finish<W: Write, M: Remarks<W>>(
    alloc: Global,
    engine: &mut Engine,
    line: &LineBuffer,
    places: &mut KnownPlaces,
    writer: &mut W,
    remarks: &mut M,
) -> Result<(), WriteFault>
    requires { AreKnown engine.old.cleared places.old }
    ensures cleared { engine.new.cleared ≡ engine.old.cleared }
    ensures finishes { Finishes (setup engine.old.cleared) (record { plant = plant_of engine.old; line = line.now; written = W.contents writer.old })
        result (plant_of engine.new) (W.contents writer.new) }
{
    remarks.read_begins();
    answer_line(alloc, engine, line.as_slice(), places, writer, remarks)?;
    flush(writer)
}

/// Flushes the writer.
fn flush<W: Write>(writer: &mut W) -> Result<(), WriteFault>
    ensures { Keeps (W.contents writer.old) (W.contents writer.new) }
{
    match writer.flush() {
        Ok(()) => Ok(()),
        Err(_) => Err(WriteFault),
    }
}
