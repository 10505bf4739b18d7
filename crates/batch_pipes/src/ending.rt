//! The end of serving: the lines handed on are written.
ghost use Rattle.std.specs.Prelude.{ℕ, ◌<◌, length, get_or, IfOk};
ghost use Rattle.batch_pipes.specs.OutputEnds.{IsHandedBack};
ghost use Rattle.batch_pipes.specs.Outputs.{AreEnding, AreOutputsKept, AreOutputsOf, AreSettled, AreSettledBy, IsEnding, IsFinished, IsSettledBy};
ghost use Rattle.batch_pipes.specs.declared.output.Output.{Output as OneOutput};
ghost use Rattle.batch_serve.specs.declared.rounds.Writer.{Writer as OneWriter};

use crate::cutting::report_cut;
use crate::fault::{Cut, PipeFault};
use crate::outcome::OutputOutcome;
use crate::output::Output;
use crate::pace::PATIENCE;
use crate::pipes::Outputs;
use batch_serve::{DeskServer, Pause, Writer};
use std::alloc::{AllocError, Global};
use std::io::Write;
use std::thread::Threads;

/// How many rounds serving waits at its end for the outputs that aren't open, and may still fail.
const UNOPENED: u32 = 50;

/// Ends the threads of outputs: no more lines come for them. It waits until each that has something to write has ended, or has had
/// time to. It reports the outputs that didn't end well, and returns the outcome of each.
///
/// The error is that there is no memory for the outcomes.
// claim: output of a desk
pub(crate) fn finish<T: Threads, W: Write + Drop, P: Outputs<W> + Drop, E: Write, S: Pause>(
    threads: &T,
    alloc: Global,
    server: &DeskServer,
    writers: Vec<Writer>,
    outputs: Vec<Output<W, P>>,
    errors: &mut E,
    rest: &mut S,
) -> Result<Vec<OutputOutcome<W, P>>, AllocError>
    requires { AreOutputsOf (IsHandedBack W.contents P.stands P.hands_back) outputs.items writers.items }
    ensures { IfOk result (λ outcomes. AreSettled (IsHandedBack W.contents P.stands P.hands_back) outputs.items writers.items outcomes.items) }
{
    let mut outputs = outputs;
    finish_each(&mut outputs, writers);
    let outcomes = settle_each(threads, alloc, server, outputs, errors, rest)?;
    Ok(outcomes)
}

/// Ends the rings of outputs.
fn finish_each<W: Write + Drop, P: Outputs<W> + Drop>(
    outputs: &mut Vec<Output<W, P>>,
    writers: Vec<Writer>,
)
    requires { AreOutputsOf (IsHandedBack W.contents P.stands P.hands_back) outputs.old.items writers.items }
    ensures kept { AreOutputsKept (IsHandedBack W.contents P.stands P.hands_back) outputs.old.items outputs.new.items writers.items }
    ensures finished { (k : ℕ) (o : OneOutput W P) (writer : OneWriter) → k < length outputs.new.items → IsFinished (get_or outputs.new.items k o) (get_or writers.items k writer) }
{
    let mut writers = writers.into_iter();
    for at in 0..outputs.len() {
        match writers.next() {
            Some(writer) => outputs[at].finish(writer),
            None => return,
        }
    }
}

/// Waits for outputs whose rings have ended, reports those that didn't end well, and returns the outcome of each.
fn settle_each<T: Threads, W: Write + Drop, P: Outputs<W> + Drop, E: Write, S: Pause>(
    threads: &T,
    alloc: Global,
    server: &DeskServer,
    outputs: Vec<Output<W, P>>,
    errors: &mut E,
    rest: &mut S,
) -> Result<Vec<OutputOutcome<W, P>>, AllocError>
    requires { AreEnding (IsHandedBack W.contents P.stands P.hands_back) outputs.items }
    ensures { IfOk result (λ outcomes. AreSettledBy (IsHandedBack W.contents P.stands P.hands_back) outputs.items outcomes.items) }
{
    let mut patience = Patience::new();
    let mut all = Vec::new(alloc);
    for output in outputs {
        let at = all.len();
        let is_cut = is_cut(server, at);
        let (outcome, fault) = end_output(threads, output, is_cut, &mut patience, rest);
        if let Some(fault) = fault {
            report_fault(alloc, server, at, fault, errors);
        }
        all.push(outcome)?;
    }
    Ok(all)
}

fn is_cut(server: &DeskServer, at: usize) -> bool {
    match server.desks.get(at) {
        Some(desk) => desk.is_cut(),
        None => true,
    }
}

fn report_fault<E: Write>(
    alloc: Global,
    server: &DeskServer,
    at: usize,
    fault: PipeFault,
    errors: &mut E,
) {
    if let Some(name) = server.names.get(at) {
        report_cut(alloc, name, Cut::Pipe(fault), errors);
    }
}

/// The outcome of an output whose ring has ended, and why it didn't end well, unless its desk is cut.
fn end_output<T: Threads, W: Write + Drop, P: Outputs<W> + Drop, S: Pause>(
    threads: &T,
    output: Output<W, P>,
    is_cut: bool,
    patience: &mut Patience,
    rest: &mut S,
) -> (OutputOutcome<W, P>, Option<PipeFault>)
    requires { IsEnding (IsHandedBack W.contents P.stands P.hands_back) output }
    ensures { IsSettledBy (IsHandedBack W.contents P.stands P.hands_back) output result.0 }
{
    let has_work = output.has_work();
    if !is_cut {
        patience.wait_for(&output, rest);
    }
    let outcome = output.settle(threads);
    let fault = if is_cut {
        None
    } else {
        fault_of(&outcome, has_work)
    };
    (outcome, fault)
}

/// Why an output didn't end well, if it didn't. An output whose thread goes on is unread, if it has something to write.
fn fault_of<W: Write + Drop, P: Outputs<W> + Drop>(
    outcome: &OutputOutcome<W, P>,
    has_work: bool,
) -> Option<PipeFault> {
    match outcome {
        OutputOutcome::Joined { written, left } if *left > 0 => {
            Some(written.fault.unwrap_or(PipeFault::Unread))
        }
        OutputOutcome::Joined { written, .. } => written.fault,
        OutputOutcome::Unjoined(_) if has_work => Some(PipeFault::Unread),
        OutputOutcome::Unjoined(_) | OutputOutcome::Absent => None,
    }
}

/// How many rounds are left to wait for the threads of outputs.
#[derive(Drop)]
struct Patience {
    // those that have something to write
    written: u32,
    // the others
    unopened: u32,
}

impl Patience {
    fn new() -> Patience {
        Patience {
            written: PATIENCE,
            unopened: UNOPENED,
        }
    }

    /// Waits until the thread of an output has nothing more to do, or has had time to.
    fn wait_for<W: Write + Drop, P: Outputs<W> + Drop, S: Pause>(
        &mut self,
        output: &Output<W, P>,
        rest: &mut S,
    ) {
        for _ in 0..u64::MAX {
            if !output.goes_on() || !self.use_round(output.has_work()) {
                return;
            }
            // Else the pauses would grow, and the rounds take minutes.
            rest.note_work();
            rest.pause();
        }
    }

    /// Uses up a round. Returns whether one was left.
    fn use_round(&mut self, has_work: bool) -> bool {
        let left = if has_work {
            &mut self.written
        } else {
            &mut self.unopened
        };
        let is_left = *left > 0;
        *left = left.saturating_sub(1);
        is_left
    }
}
