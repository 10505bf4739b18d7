//! The thread of a desk's output.
ghost use Rattle.std.specs.Prelude.{◌≡◌, [], true, None, IsTrue, string_bytes};
ghost use Rattle.std.specs.Io.Buffered.{writer_buffer, writer_contents, writer_inner};
ghost use Rattle.rtrb.specs.Ring.{SameConsumer, received};
ghost use Rattle.batch_pipes.specs.OutputEnds.{IsHandedBack, IsOutputRun};
ghost use Rattle.batch_pipes.specs.Streams.{IsWrittenBehind, IsWrittenOut};

use crate::fault::PipeFault;
use crate::flag::Flag;
use crate::noted::Noted;
use crate::pipes::Outputs;
use crate::rest::DeskRest;
use crate::written::Written;
use batch_serve::{DeskLine, Pause, write_lines};
use batch_wire::write_all;
use rtrb::Consumer;
use std::alloc::Global;
use std::io::{BufWriter, Write};

/// How many bytes the thread buffers before it writes them.
const ROOM: usize = 4_096;

/// The task of the thread of a desk's output.
#[derive(Drop)]
pub struct OutputTask {
    pub(crate) path: String,
    /// The text that is written before all else.
    pub(crate) front: Vec<u8>,
    pub(crate) ring: Consumer<DeskLine>,
    pub(crate) stop: Flag,
    pub(crate) began: Flag,
    pub(crate) done: Flag,
}

impl OutputTask {
    /// The path of the output.
    pub fn path(&self) -> &str
        ensures { result.now ≡ string_bytes self.now.path }
    {
        self.path.as_str()
    }

    /// Writes the front to the output, which is open, and then the lines that come, until no more come. It gives the output back. If
    /// it ends before its time, the output holds a prefix of that text; nothing is tried again.
    ///
    /// The faults are that it was told to end, that the output failed or took nothing, and that there is no memory.
    // claim: thread of an output
    pub fn write<W: Write + Drop, S: Pause + Drop>(
        &mut self,
        alloc: Global,
        output: W,
        rest: S,
    ) -> Written<W>
        ensures written { IsWrittenOut W.contents (W.contents output) self.old.front.items (received self.old.ring) (received self.new.ring) result }
        ensures ring { SameConsumer self.old.ring self.new.ring }
    {
        self.began.raise();
        let mut rest = DeskRest {
            rest,
            stop: &self.stop,
        };
        let Ok(buffered) = BufWriter::with_capacity(alloc, ROOM, output) else {
            return Written::unopened(PipeFault::Memory);
        };
        let mut buffered = Noted::new(buffered);
        let ended = write_out(&self.front, &mut self.ring, &mut buffered, &mut rest);
        let fault = fault_of(ended, &buffered, &mut rest);
        Written {
            output: Some(unbuffered(buffered)),
            fault,
        }
    }
}

/// Writes the front, and then the lines out of the ring, until no more come and the buffer is empty. Returns false if that ended
/// before its time.
#[tactic(auto, using(crate::proofs::ThreadStreams::written_kept))]
fn write_out<W: Write + Drop, S: Pause>(
    front: &[u8],
    ring: &mut Consumer<DeskLine>,
    output: &mut Noted<BufWriter<W>>,
    rest: &mut S,
) -> bool
    ensures written { IsWrittenBehind front.now result (received ring.old) (received ring.new) (writer_contents W.contents output.old.stream)
        (writer_contents W.contents output.new.stream) }
    ensures empty { IsTrue result → writer_buffer output.new.stream ≡ [] }
    ensures ring { SameConsumer ring.old ring.new }
{
    if !write_behind(front, ring, output, rest) {
        return false;
    }
    output.stream.flush().is_ok()
}

/// Writes the front, and then the lines out of the ring, until no more come. Returns false if that ended before its time.
#[tactic(auto, using(crate::proofs::ThreadStreams::written_behind, crate::proofs::ThreadStreams::front_cut))]
fn write_behind<W: Write, S: Pause>(
    front: &[u8],
    ring: &mut Consumer<DeskLine>,
    output: &mut W,
    rest: &mut S,
) -> bool
    ensures written { IsWrittenBehind front.now result (received ring.old) (received ring.new) (W.contents output.old) (W.contents output.new) }
    ensures ring { SameConsumer ring.old ring.new }
{
    match write_all(output, front) {
        Ok(()) => write_lines(ring, output, rest),
        Err(_) => false,
    }
}

/// Why the output ended before its time, if it did.
fn fault_of<W: Write, S: Pause>(ended: bool, output: &Noted<W>, rest: &mut S) -> Option<PipeFault>
    ensures { result ≡ None → ended ≡ true }
{
    if ended {
        return None;
    }
    if rest.is_over() {
        return Some(PipeFault::Over);
    }
    match output.failure() {
        Some(error) => Some(PipeFault::OutputFailed(error)),
        None => Some(PipeFault::OutputFull),
    }
}

/// The output without its buffer. The bytes left in the buffer aren't written.
fn unbuffered<W: Write + Drop>(output: Noted<BufWriter<W>>) -> W
    ensures { result ≡ writer_inner output.stream }
{
    let Noted { stream, .. } = output;
    let (output, _unwritten) = stream.into_parts();
    output
}

/// The result of the thread of an output.
#[derive(Drop)]
pub(crate) struct OutputEnd<W> {
    // its end of the ring
    pub(crate) ring: Consumer<DeskLine>,
    pub(crate) written: Written<W>,
}

/// Opens the output and writes the front and the lines that come, until no more come.
pub(crate) fn run_output<W: Write + Drop, P: Outputs<W> + Drop>(
    alloc: Global,
    pipes: P,
    task: OutputTask,
) -> OutputEnd<W>
    ensures { IsOutputRun (IsHandedBack W.contents P.stands P.hands_back) task result }
{
    let mut task = task;
    let written = pipes.run_output(alloc, &mut task);
    task.done.raise();
    let OutputTask { ring, .. } = task;
    OutputEnd { ring, written }
}
