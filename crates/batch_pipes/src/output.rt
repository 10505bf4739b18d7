//! The output of a desk, as the thread of the machine sees it.
ghost use Rattle.rtrb.specs.Ring.{Finishes, IsFinishedOf};
ghost use Rattle.batch_pipes.specs.OutputEnds.{IsHandedBack};
ghost use Rattle.batch_pipes.specs.Outputs.{Asked, IsEnding, IsFinished, IsOutputKept, IsOutputOf, IsSettled, IsSettledBy, IsTaskOf};
ghost use Rattle.batch_serve.specs.declared.rounds.Writer.{Writer as OneWriter};

use crate::fault::PipeFault;
use crate::flag::Flag;
use crate::outcome::OutputOutcome;
use crate::output_thread::OutputHandle;
use crate::pipes::Outputs;
use crate::writing::OutputEnd;
use batch_serve::{DeskLine, Writer};
use rtrb::{Consumer, Finished};
use std::io::Write;
use std::snapshot::Snapshot;
use std::thread::Threads;

/// The thread of an output.
#[derive(Drop)]
pub struct OutputChild<W: Write + Drop, P: Outputs<W> + Drop> {
    pub(crate) handle: OutputHandle<W, P>,
    // its front isn't empty
    pub(crate) has_front: bool,
    // raised once the thread's pipe is open
    pub(crate) began: Flag,
    // raised once the thread has nothing more to do than to end
    pub(crate) done: Flag,
}

/// The output of a desk.
#[derive(Drop)]
pub(crate) struct Output<W: Write + Drop, P: Outputs<W> + Drop> {
    // its path, and the text that is written before all else, for clauses alone
    pub(crate) path: Snapshot<Option<String>>,
    pub(crate) front: Snapshot<Vec<u8>>,
    // the thread that writes it, until it has nothing more to do
    pub(crate) child: Option<OutputChild<W, P>>,
    // the result of that thread
    pub(crate) end: Option<OutputEnd<W>>,
    // the other end of the ring of a desk that has no output
    pub(crate) unseen: Option<Consumer<DeskLine>>,
    // all that went into the ring, once nothing more does
    pub(crate) finished: Option<Finished<DeskLine>>,
    // how many lines are left there, if the thread was joined before that
    pub(crate) left: usize,
}

impl<W: Write + Drop, P: Outputs<W> + Drop> OutputChild<W, P> {
    /// The outcome of the output, whose ring has ended. The thread is joined if it has nothing more to do, and else given back.
    fn settle<T: Threads>(self, threads: &T, finished: Finished<DeskLine>) -> OutputOutcome<W, P>
        requires { IsFinishedOf finished self.handle.promise.task.value.ring }
        ensures { (asked : Asked) (writer : OneWriter) → IsTaskOf asked self.handle.promise.task.value writer → Finishes writer.ring finished
            → IsSettled (IsHandedBack W.contents P.stands P.hands_back) asked writer result }
    {
        if !self.done.is_raised() {
            return OutputOutcome::Unjoined(self);
        }
        let OutputEnd { ring, written } = self.handle.join(threads);
        let (mut ring, mut finished) = (ring, finished);
        OutputOutcome::Joined {
            written,
            left: ring.slots_after(&mut finished),
        }
    }
}

impl<W: Write + Drop, P: Outputs<W> + Drop> Output<W, P> {
    /// Joins the thread, if it has nothing more to do.
    // claim: output of a desk
    pub(crate) fn join_if_done<T: Threads>(&mut self, threads: &T)
        ensures { (writer : OneWriter) → IsOutputOf (IsHandedBack W.contents P.stands P.hands_back) self.old writer → IsOutputKept (IsHandedBack W.contents P.stands P.hands_back) self.old self.new writer }
    {
        if !self.is_done() {
            return;
        }
        if let Some(child) = self.child.take() {
            self.end = Some(child.handle.join(threads));
        }
    }

    /// Whether its thread has nothing more to do than to end.
    fn is_done(&self) -> bool {
        match &self.child {
            Some(child) => child.done.is_raised(),
            None => false,
        }
    }

    /// Whether its thread has something to write, as far as is known: only to an output that is open, lines are handed on.
    pub(crate) fn has_work(&self) -> bool {
        match &self.child {
            Some(child) => child.has_front || child.began.is_raised(),
            None => false,
        }
    }

    /// Whether it has a thread that has more to do.
    pub(crate) fn goes_on(&self) -> bool {
        match &self.child {
            Some(child) => !child.done.is_raised(),
            None => false,
        }
    }

    /// Why its thread ended before its time.
    pub(crate) fn fault(&self) -> Option<PipeFault> {
        match &self.end {
            Some(end) => end.written.fault,
            None => None,
        }
    }

    /// Ends its ring: nothing more goes into it. If the thread was joined, the lines that it left there are counted.
    pub(crate) fn finish(&mut self, writer: Writer)
        requires { IsOutputOf (IsHandedBack W.contents P.stands P.hands_back) self.old writer }
        ensures kept { IsOutputKept (IsHandedBack W.contents P.stands P.hands_back) self.old self.new writer }
        ensures finished { IsFinished self.new writer }
    {
        let Writer { ring } = writer;
        let mut ring = ring;
        match &mut self.end {
            Some(end) => self.left = end.ring.slots_beside(&mut ring),
            None => self.finished = ring.finish(),
        }
    }

    /// The outcome of the output, whose ring has ended. A thread that has more to do is given back.
    // claim: output of a desk
    pub(crate) fn settle<T: Threads>(self, threads: &T) -> OutputOutcome<W, P>
        requires { IsEnding (IsHandedBack W.contents P.stands P.hands_back) self }
        ensures { IsSettledBy (IsHandedBack W.contents P.stands P.hands_back) self result }
    {
        let Output {
            child,
            end,
            finished,
            left,
            ..
        } = self;
        if let Some(end) = end {
            let OutputEnd { written, .. } = end;
            return OutputOutcome::Joined { written, left };
        }
        let Some(child) = child else {
            return OutputOutcome::Absent;
        };
        match finished {
            Some(finished) => child.settle(threads, finished),
            None => OutputOutcome::Unjoined(child),
        }
    }
}
