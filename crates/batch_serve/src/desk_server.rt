//! Several desks over one machine.
ghost use Rattle.std.specs.Prelude.{◌≡◌, ◌<◌, ℕ, [], length, get_or, true, false, OnOk, OnErr, IsErrOf, IsFalse, IsTrue};
ghost use Rattle.std.specs.Io.KnownBytes.{Appends, Keeps};
ghost use Rattle.batch_serve.specs.Runs.{AreOfDesks, own_text, runs_text};
ghost use Rattle.batch_serve.specs.Served.{AreWhole, ShowNoWant};
ghost use Rattle.batch_serve.specs.Turns.{IsSameBut, IsTurned, MayBeKept, with_run};
ghost use Rattle.batch_serve.specs.declared.desk.ServedDesk.{ServedDesk as OneDesk};

use crate::desk::{ServedDesk, queue_for_each};
use crate::desks_fault::TurnFault;
use crate::desks_remarks::{last_of, runs_text};
use crate::desks_serving::serve_runs;
use crate::held::shows_want;
use crate::keep::{Keep, PersistFault};
use crate::run::Run;
use batch_engine::Engine;
use batch_journal::are_whole_lines;
use batch_text::Name;
use batch_wire::{WriteFault, write_all};
use std::alloc::{AllocError, Global};
use std::io::Write;

/// One machine that several desks send lines to, and the queues of its answers. It has no thread and waits for nobody: whole lines are
/// given to it as they come, a turn serves them, and the lines queued for a desk are handed on as places come free.
#[derive(Drop)]
pub struct DeskServer {
    /// The machine.
    pub engine: Engine,
    /// The names of the desks, in their order.
    pub names: Vec<Name>,
    /// The desks.
    pub desks: Vec<ServedDesk>,
    /// The lines that are to be served in the next turn.
    pub group: Vec<Run>,
    /// The place of the desk whose lines were served last.
    pub last: Option<usize>,
}

impl DeskServer {
    /// A server over a machine, before it serves a line.
    // claim: new desks
    pub fn new(
        alloc: Global,
        engine: Engine,
        names: Vec<Name>,
        desks: Vec<ServedDesk>,
    ) -> DeskServer
        ensures engine { result.engine ≡ engine }
        ensures names { result.names ≡ names }
        ensures desks { result.desks ≡ desks }
        ensures group { result.group.items ≡ [] }
        ensures last { result.last ≡ None }
    {
        DeskServer {
            engine,
            names,
            desks,
            group: Vec::new(alloc),
            last: None,
        }
    }

    /// Adds whole lines of a desk to those of the next turn. If the desk is cut, they are dropped.
    ///
    /// The error is that there is no memory for one run more. Then nothing is taken.
    // claim: lines of desks
    #[tactic(auto, using(crate::proofs::DeskLines::own_other, crate::proofs::DeskLines::of_desks_more))]
    pub fn push_lines(&mut self, desk: usize, lines: Vec<u8>) -> Result<(), AllocError>
        requires { desk < length self.old.desks.items }
        ensures taken { OnOk result ((other : OneDesk) → (get_or self.old.desks.items desk other).waiting.is_cut ≡ false
            → self.new.group.items ≡ with_run self.old.group.items desk lines.items) }
        ensures cut { (other : OneDesk) → (get_or self.old.desks.items desk other).waiting.is_cut ≡ true → self.new.group.items ≡ self.old.group.items }
        ensures untaken { OnErr result (self.new.group.items ≡ self.old.group.items) }
        ensures others { (other : ℕ) → (other ≡ desk → ⊥) → own_text other self.new.group.items ≡ own_text other self.old.group.items }
        ensures of_desks { AreOfDesks (length self.old.desks.items) self.old.group.items → AreOfDesks (length self.old.desks.items) self.new.group.items }
        ensures same { IsSameBut self.old self.new }
    {
        if lines.is_empty() || self.desks[desk].is_cut() {
            return Ok(());
        }
        self.group.push(Run::new(desk, lines))?;
        Ok(())
    }

    /// Serves the lines received since the last turn: they are kept and answered, the answers are recorded, and the lines due to each desk
    /// are queued for it.
    ///
    /// - `Journal`: the lines can't be kept, or are to be replayed and aren't whole. None is answered.
    /// - `Record`: the record can't be written.
    /// - `Memory`: there is none, or a line was refused for want of it and the lines are to be replayed.
    ///
    /// After any of these no line is queued for a desk.
    // claim: want ends a turn (turned, untold)
    pub fn turn<K: Keep, W: Write>(
        &mut self,
        alloc: Global,
        keep: &mut K,
        output: &mut W,
    ) -> Result<(), TurnFault>
        // claim: a turn of desks; whole lines are kept
        ensures turned { OnOk result (IsTurned self.old self.new (K.is_safe keep.new) (K.kept keep.old) (K.kept keep.new) K.again (W.contents output.old) (W.contents output.new)) }
        // claim: kept before
        ensures unkept { IsErrOf result TurnFault.Journal → (self.new.engine ≡ self.old.engine) × Keeps (W.contents output.old) (W.contents output.new) }
        // claim: told last
        ensures untold { OnErr result (self.new.desks ≡ self.old.desks) }
        ensures stays { K.is_safe keep.new → K.is_safe keep.old }
        // claim: a turn that fails
        ensures kept { K.is_safe keep.new → OnErr result (MayBeKept (K.kept keep.old) (K.kept keep.new) (runs_text self.old.names.items self.old.last self.old.group.items)) }
    {
        check_whole(keep.is_served_again(), &self.group)?;
        let lines = runs_text(alloc, &self.names, self.last, &self.group)?;
        keep.persist(&lines)?;
        let answers = serve_runs(alloc, &mut self.engine, &self.group)?;
        check_want(keep.is_served_again(), &answers)?;
        let text = runs_text(alloc, &self.names, self.last, &answers)?;
        write_record(output, &text)?;
        queue_for_each(alloc, &mut self.desks, &answers);
        self.last = last_of(self.last, &self.group);
        self.group.clear();
        Ok(())
    }
}

/// Checks that runs are whole lines, if lines are to be replayed: in a journal others would be joined.
///
/// The error is that one isn't.
fn check_whole(is_served_again: bool, runs: &[Run]) -> Result<(), PersistFault>
    ensures { OnOk result (is_served_again ≡ true → AreWhole runs.now) }
{
    if is_served_again && !are_whole(runs) {
        return Err(PersistFault);
    }
    Ok(())
}

fn are_whole(runs: &[Run]) -> bool
    ensures { IsTrue result → AreWhole runs.now }
{
    for run in runs {
        if !are_whole_lines(run.text()) {
            return false;
        }
    }
    true
}

/// Checks for refusals for want of memory, if lines are to be replayed: with memory these lines would get other answers.
///
/// The error is that there is one.
fn check_want(is_served_again: bool, answers: &[Run]) -> Result<(), AllocError>
    ensures { OnOk result (is_served_again ≡ true → ShowNoWant answers.now) }
{
    if is_served_again && any_shows_want(answers) {
        return Err(AllocError);
    }
    Ok(())
}

fn any_shows_want(answers: &[Run]) -> bool
    ensures { IsFalse result → ShowNoWant answers.now }
{
    for answer in answers {
        if shows_want(answer.text()) {
            return true;
        }
    }
    false
}

/// Writes a text of the record, and flushes it.
fn write_record<W: Write>(output: &mut W, text: &[u8]) -> Result<(), WriteFault>
    ensures { OnOk result (Appends (W.contents output.old) (W.contents output.new) text.now) }
{
    write_all(output, text)?;
    match output.flush() {
        Ok(()) => Ok(()),
        Err(_) => Err(WriteFault),
    }
}
