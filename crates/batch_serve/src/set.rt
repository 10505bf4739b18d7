//! Serving a cleared set from its opening.
ghost use Rattle.batch_serve.specs.Serves.{Serves};

use crate::fault::SetFault;
use crate::remarks::Remarks;
use crate::serving::serve;
use batch_engine::Engine;
use batch_verify::Cleared;
use std::alloc::Global;
use std::io::{Read, Write};

/// Makes the engine of a cleared set, and answers the lines that the reader gives, until its bytes end.
///
/// It calls the reader at most `max_reads` times, interrupted calls among them. No clause says so: the calls of a reader aren't
/// counted. The written text is flushed before the reader is called again. Memory is taken for the engine and for events. If an
/// event finds none, its line is refused and serving goes on. Returns how many batches are neither complete, stopped nor aborted
/// then.
///
/// # Errors
///
/// `Memory` if there is none for the engine: nothing is read then. `Stopped` with the fault of `serve`.
// claim: batches left; served from its opening; no engine
pub fn serve_set<R: Read, W: Write, M: Remarks<W>>(
    alloc: Global,
    cleared: Cleared,
    reader: &mut R,
    writer: &mut W,
    remarks: &mut M,
    max_reads: u64,
) -> Result<usize, SetFault>
    ensures { Serves cleared max_reads result (record {
      unread = R.remaining reader.old;
      left = R.remaining reader.new;
      before = W.contents writer.old;
      after = W.contents writer.new;
    }) }
{
    let Ok(mut engine) = Engine::new(alloc, cleared) else {
        return Err(SetFault::Memory);
    };
    match serve(alloc, &mut engine, reader, writer, remarks, max_reads) {
        Ok(()) => Ok(engine.unfinished()),
        Err(fault) => Err(SetFault::Stopped(fault)),
    }
}
