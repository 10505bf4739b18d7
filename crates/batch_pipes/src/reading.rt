//! The thread of a desk's input.
ghost use Rattle.std.specs.Prelude.{◌≡◌, ◌<◌, length, is_ok, string_bytes};
ghost use Rattle.rtrb.specs.Ring.{SameProducer, sent};
ghost use Rattle.batch_serve.specs.Threads.{MayHandOver};
ghost use Rattle.batch_pipes.specs.InputOrder.{IsGiven, cleaned};
ghost use Rattle.batch_pipes.specs.Streams.{HandsOver, IsNew};

use crate::fault::PipeFault;
use crate::flag::Flag;
use crate::input_order::InputOrder;
use crate::noted::Noted;
use crate::pipes::{InputBytes, Pipes};
use crate::rest::DeskRest;
use batch_serve::{CleanReader, Pause, ReaderMessage, read_lines};
use rtrb::{Producer, Protocol};
use std::alloc::Global;
use std::io::Read;

/// How many bytes are handed over at once, at most. A reader of clean lines needs room for a line that is too long.
const ROOM: usize = 4_096;

/// The task of the thread of a desk's input.
#[derive(Drop)]
pub struct InputTask<P: InputBytes> {
    pub(crate) path: String,
    pub(crate) stays: bool,
    // the path went through it
    pub(crate) ring: Producer<ReaderMessage, Global, InputOrder<P>>,
    pub(crate) stop: Flag,
    pub(crate) done: Flag,
}

impl<P: InputBytes> InputTask<P> {
    /// The path of the input.
    pub fn path(&self) -> &str
        ensures { result.now ≡ string_bytes self.now.path }
    {
        self.path.as_str()
    }

    /// Whether the input doesn't end when its writer leaves.
    pub fn stays(&self) -> bool {
        self.stays
    }

    /// Hands over the lines of the input, to its end. Its bytes are those that are known for its path, if any are.
    ///
    /// The errors are that it was told to end, that the input failed, and that there is no memory.
    // claim: thread of an input
    #[tactic(auto, using(crate::proofs::ThreadStreams::nothing_handed))]
    pub fn read<R: Read + Drop, S: Pause + Drop>(
        &mut self,
        alloc: Global,
        input: R,
        rest: S,
    ) -> Result<(), PipeFault>
        requires new { IsNew self.old }
        requires given { IsGiven (P.given (string_bytes self.old.path)) (R.remaining input) }
        ensures handed { HandsOver (is_ok result) (R.remaining input) (sent self.old.ring) (sent self.new.ring) }
        ensures ring { SameProducer self.old.ring self.new.ring }
    {
        let mut rest = DeskRest {
            rest,
            stop: &self.stop,
        };
        let Ok(mut room) = vec![in alloc; 0u8; ROOM] else {
            return Err(PipeFault::Memory);
        };
        hand_over(alloc, input, &mut room, &mut self.ring, &mut rest)
    }
}

/// Hands over the lines of an input, to its end, through this room.
fn hand_over<R: Read + Drop, O: Protocol<ReaderMessage>, S: Pause>(
    alloc: Global,
    input: R,
    room: &mut [u8],
    ring: &mut Producer<ReaderMessage, Global, O>,
    rest: &mut S,
) -> Result<(), PipeFault>
    requires room { 0 < length room.old }
    requires allowed { MayHandOver O.allows (sent ring.old) (cleaned (R.remaining input)) }
    ensures handed { HandsOver (is_ok result) (R.remaining input) (sent ring.old) (sent ring.new) }
    ensures ring { SameProducer ring.old ring.new }
{
    let clean = CleanReader::new(input);
    let mut lines = Noted::new(clean);
    if read_lines(alloc, &mut lines, room, ring, rest) {
        return Ok(());
    }
    Err(fault_of(&lines, rest))
}

/// Why the input ended before its time.
fn fault_of<R: Read, S: Pause>(lines: &Noted<CleanReader<R>>, rest: &mut S) -> PipeFault {
    if rest.is_over() {
        return PipeFault::Over;
    }
    match lines.failure() {
        Some(error) => PipeFault::InputFailed(error),
        None => PipeFault::Memory,
    }
}

/// Opens the input and hands over its lines, to its end. Returns why it ended before its time, if it did.
pub(crate) fn run_input<P: Pipes + Drop>(
    alloc: Global,
    pipes: P,
    task: InputTask<P>,
) -> Option<PipeFault>
    requires { IsNew task }
{
    let mut task = task;
    let ended = pipes.run_input(alloc, &mut task);
    task.done.raise();
    ended.err()
}
