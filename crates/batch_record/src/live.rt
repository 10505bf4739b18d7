//! Live phases and their states, by the lines of a record.
ghost use Rattle.std.specs.Prelude.{◌≡◌, ◌++◌, ◌∷◌, [], filter, map, OnOk};
ghost use Rattle.batch_model.specs.Records.{ends_phase};
ghost use Rattle.batch_record.specs.Reading.{out_told, phase_told, report_told, sent_told};
ghost use Rattle.batch_record.specs.RecordLine.{report_out, sent_out};
ghost use Rattle.batch_record.specs.Kept.{changed_by, is_elsewhere, phase_changed, kept_live, live_at_step, lives_of, LiveAfter};
ghost use Rattle.batch_recipe.specs.Conditions.{Name};
ghost use Rattle.batch_record.specs.Listing.{live_cmp, on_unit};
ghost use Rattle.std.specs.List.Sorted.{IsSorted};
ghost use Rattle.batch_record.specs.Telling.{moved_at, said_by};

use crate::memory::{NoMemory, read_name, read_place};
use crate::told::{PhaseStep, RecordedOut, Reported, Sent};
use batch_matrix::{Command, Report, State, after};
use batch_text::{Name, Place};
use std::alloc::Global;
use std::cmp::Ordering;

/// A phase of a unit that a phase step runs.
#[derive(Drop)]
pub struct LivePhase {
    pub batch: u64,
    pub place: Place,
    pub unit: Name,
    pub phase: Name,
    pub state: State,
}

/// A change of the state of a live phase.
#[derive(Clone, Copy)]
pub(crate) enum Change {
    /// A command was sent to the phase.
    Led(Command),
    /// The phase reported, and goes on.
    Said(Report),
}

/// The live phases, the oldest first.
#[derive(Drop)]
pub struct LivePhases {
    phases: Vec<LivePhase>,
}

impl LivePhases {
    /// No phases.
    pub fn new(alloc: Global) -> LivePhases
        ensures { result.phases.items ≡ [] }
    {
        LivePhases {
            phases: Vec::new(alloc),
        }
    }

    /// The live phases.
    pub(crate) fn phases(&self) -> &[LivePhase]
        ensures { result.now ≡ self.now.phases.items }
    {
        self.phases.as_slice()
    }

    /// Sorts the live phases by unit, then by phase, then as they were started.
    pub(crate) fn sort(&mut self) -> Result<(), NoMemory>
        ensures sorted { OnOk result (IsSorted live_cmp (lives_of self.new.phases.items)) }
        ensures stable { (unit name : Name) → on_unit unit name (lives_of self.new.phases.items) ≡ on_unit unit name (lives_of self.old.phases.items) }
    {
        Ok(self.phases.sort_by(|live, other| compare(live, other))?)
    }

    /// Applies an out to the live phases.
    pub fn apply_out(&mut self, alloc: Global, told: RecordedOut<'_>) -> Result<(), NoMemory>
        ensures { OnOk result (LiveAfter self.old.phases.items (out_told told.entry) self.new.phases.items) }
    {
        match told {
            RecordedOut::Started(started) => self.add(alloc, started.step, State::Running),
            RecordedOut::Sent(told) => self.send(alloc, told),
            RecordedOut::Reported(report) => self.report(alloc, report),
            _ => Ok(()),
        }
    }

    /// Appends a phase that runs, in this state.
    pub fn add(&mut self, alloc: Global, step: PhaseStep<'_>, state: State) -> Result<(), NoMemory>
        ensures { OnOk result (lives_of self.new.phases.items ≡ lives_of self.old.phases.items ++ live_at_step (phase_told step.entry) state ∷ []) }
    {
        let live = LivePhase {
            batch: step.batch,
            place: read_place(alloc, step.place)?,
            unit: read_name(alloc, step.unit)?,
            phase: read_name(alloc, step.phase)?,
            state,
        };
        self.phases.push(live).map_err(|_| NoMemory)
    }

    fn send(&mut self, alloc: Global, told: Sent<'_>) -> Result<(), NoMemory>
        ensures { OnOk result (LiveAfter self.old.phases.items (sent_out (sent_told told.entry)) self.new.phases.items) }
    {
        let place = read_place(alloc, told.step.place)?;
        self.go_on(told.step.batch, &place, Change::Led(told.command));
        Ok(())
    }

    fn report(&mut self, alloc: Global, told: Reported<'_>) -> Result<(), NoMemory>
        ensures { OnOk result (LiveAfter self.old.phases.items (report_out (report_told told.entry)) self.new.phases.items) }
    {
        let place = read_place(alloc, told.place)?;
        if ends_phase(told.word) {
            self.end(told.batch, &place);
            return Ok(());
        }
        self.go_on(told.batch, &place, Change::Said(told.word));
        Ok(())
    }

    fn end(&mut self, batch: u64, place: &Place)
        ensures { self.new.phases.items ≡ filter (is_elsewhere (batch, place.now)) self.old.phases.items }
    {
        self.phases
            .retain(|live| !(live.batch == batch && live.place == *place));
    }

    /// The phases at the act go on in another state.
    fn go_on(&mut self, batch: u64, place: &Place, change: Change)
        ensures { self.new.phases.items ≡ map (phase_changed (batch, place.now) change) self.old.phases.items }
    {
        change_each(self.phases.as_mut_slice(), batch, place, change);
    }
}

impl LivePhase {
    /// If the phase is at the act, it goes on in another state.
    fn change(&mut self, batch: u64, place: &Place, change: Change)
        ensures { self.new ≡ phase_changed (batch, place.now) change self.old }
    {
        if self.batch == batch && self.place == *place {
            self.state = changed_by(change, self.state);
        }
    }
}

fn change_each(phases: &mut [LivePhase], batch: u64, place: &Place, change: Change)
    ensures { phases.new ≡ map (phase_changed (batch, place.now) change) phases.old }
{
    for phase in phases.iter_mut() {
        phase.change(batch, place, change);
    }
}

/// The order of the phases by unit and phase.
fn compare(live: &LivePhase, other: &LivePhase) -> Ordering
    ensures { result ≡ live_cmp (kept_live live.now) (kept_live other.now) }
{
    live.unit
        .cmp(&other.unit)
        .then(live.phase.cmp(&other.phase))
}

/// Whether the report ends its phase.
fn ends_phase(word: Report) -> bool
    ensures { result ≡ ends_phase word }
{
    matches!(word, Report::Done | Report::Stopped | Report::Aborted)
}

/// The state in which a phase goes on.
fn changed_by(change: Change, now: State) -> State
    ensures { result ≡ changed_by change now }
{
    match change {
        Change::Led(command) => after(now, command).unwrap_or(now),
        Change::Said(word) => said_by(word, now),
    }
}

/// The state of a phase that goes on after the report.
fn said_by(word: Report, now: State) -> State
    ensures { result ≡ said_by word now }
{
    match word {
        Report::Paused => State::Paused,
        Report::Held => State::Held,
        Report::Running => State::Running,
        _ => now,
    }
}
