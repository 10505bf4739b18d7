//! The writer of a desk: the lines that come out of a ring are written to its output.
ghost use Rattle.std.specs.Prelude.{◌≡◌, ◌++◌, ◌∷◌, [], true};
ghost use Rattle.batch_wire.specs.Written.{Writes};
ghost use Rattle.rtrb.specs.Ring.{SameConsumer, received};
ghost use Rattle.batch_serve.specs.Threads.{AreLinesWritten, WritesNext};

use crate::line::DeskLine;
use crate::pause::Pause;
use batch_wire::{WriteFault, write_all};
use rtrb::Consumer;
use std::io::Write;

/// Writes the lines that come out of the ring, each with its line feed, and flushes the output whenever the ring is empty.
///
/// Returns true if no more lines come and all are flushed; false if the output failed, or the pause says to end.
// claim: writer of a desk
#[tactic(auto, using(crate::proofs::ReadersAndWriters::writes_begin, crate::proofs::ReadersAndWriters::writes_twice, crate::proofs::ReadersAndWriters::writes_then, crate::proofs::ReadersAndWriters::writes_stop))]
pub fn write_lines<W: Write, P: Pause>(
    ring: &mut Consumer<DeskLine>,
    output: &mut W,
    pause: &mut P,
) -> bool
    ensures written { AreLinesWritten result (received ring.old) (received ring.new) (W.contents output.old) (W.contents output.new) }
    ensures ring { SameConsumer ring.old ring.new }
{
    for _ in 0..u64::MAX {
        if let Some(ended) = write_next(ring, output, pause) {
            return ended;
        }
    }
    false
}

/// Writes the next line, or flushes the output and waits. Returns the result of `write_lines`, if that ends it.
#[tactic(auto, using(crate::proofs::ReadersAndWriters::line_written, crate::proofs::ReadersAndWriters::line_cut, crate::proofs::ReadersAndWriters::nothing_written, crate::proofs::ReadersAndWriters::all_written))]
fn write_next<W: Write, P: Pause>(
    ring: &mut Consumer<DeskLine>,
    output: &mut W,
    pause: &mut P,
) -> Option<bool>
    ensures written { WritesNext result (received ring.old) (received ring.new) (W.contents output.old) (W.contents output.new) }
    ensures ring { SameConsumer ring.old ring.new }
{
    if pause.is_over() {
        return Some(false);
    }
    // If the other end was gone before, an empty ring stays empty.
    let is_last = ring.is_abandoned();
    match ring.pop() {
        Ok(line) => {
            pause.note_work();
            match write_line(output, &line) {
                Ok(()) => None,
                Err(_) => Some(false),
            }
        }
        Err(_) => {
            if output.flush().is_err() {
                return Some(false);
            }
            if is_last {
                return Some(true);
            }
            if pause.pause() { None } else { Some(false) }
        }
    }
}

#[tactic(auto, using(crate::proofs::ReadersAndWriters::line_begun, crate::proofs::ReadersAndWriters::line_ended))]
fn write_line<W: Write>(output: &mut W, line: &DeskLine) -> Result<(), WriteFault>
    ensures { Writes (W.contents output.old) (W.contents output.new) result (line.now ++ 10 ∷ []) }
{
    write_all(output, line.as_slice())?;
    write_all(output, b"\n")
}
