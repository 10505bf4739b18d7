//! Reports of phases.
ghost use Rattle.std.specs.Prelude.{◌≡◌, ◌<◌, ◌&&◌, ℕ, List, Some, None, length, not, position};
ghost use Rattle.batch_matrix.specs.Matrix.{same_report};
ghost use Rattle.batch_model.specs.Events as Events;
ghost use Rattle.batch_model.specs.Events.{batch_state_after, owed};
ghost use Rattle.batch_model.specs.Moves.{is_stopping, next};
ghost use Rattle.batch_engine.specs.Answered.{IsAnswered};
ghost use Rattle.batch_engine.specs.Marked.{AreHoldingsNoted};
ghost use Rattle.batch_engine.specs.Names.{node_of};
ghost use Rattle.batch_engine.specs.Reports.{IsLiveIn, IsLivePhase};
ghost use Rattle.batch_recipe.specs.Nodes.{reports_of};
ghost use Rattle.batch_recipe.specs.Values.{have_output};
ghost use Rattle.batch_engine.specs.View.{resource_number, plant_of, setup};

use crate::control::Control;
use crate::event::PhaseReport;
use crate::live_phase::LivePhase;
use crate::refusal::Refusal;
use crate::reply::Reply;
use batch_matrix::{Command, Report, State, after, after_report};
use batch_recipe::{Recipe, are_outputs, first_left_out, reports_at};
use batch_text::Name;

/// The state of a batch after a report: a fault takes it to Holding if its state accepts hold.
#[inline(always)]
fn state_after(word: Report, state: State) -> State
    ensures { result ≡ batch_state_after word state }
{
    match word {
        Report::Fault => match after(state, Command::Hold) {
            Some(_) => State::Holding,
            None => state,
        },
        _ => state,
    }
}

/// Whether a phase in this state has to report its outputs with the word: once it is done, unless it is stopping or aborting.
#[inline(always)]
fn owes_outputs(word: Report, state: State) -> bool
    ensures { result ≡ (same_report word Report.Done && not (is_stopping state)) }
{
    matches!(word, Report::Done) && !matches!(state, State::Stopping | State::Aborting)
}

/// The number, among those that the phase step at a node reports, of the first output that its phase has to report with the word
/// and leaves out.
#[inline(always)]
fn left_out(recipe: &Recipe, node: u16, state: State, report: &PhaseReport) -> Option<usize>
    ensures { result ≡ position (λ name. not (have_output report.now.outputs.items name)) (owed state report.now.word (reports_of (node_of node recipe.now))) }
{
    if !owes_outputs(report.word, state) {
        return None;
    }
    first_left_out(reports_at(recipe, node), &report.outputs)
}

impl Control {
    /// The live phase with this name that the batch at an index runs on the unit with this number among the resources.
    #[inline(always)]
    fn live_in(&self, index: usize, unit: u16, phase: &Name) -> Option<LivePhase>
        requires { index < length self.now.batches }
        ensures { (name : List ℕ) → resource_number self.now.cleared name ≡ Some unit → IsLiveIn self.now index name phase.now result }
    {
        let batch = &self.batches[index];
        let chart = self.cleared.recipe(batch.recipe);
        let mut from = 0;
        while let Some((node, state)) = batch.running.live(chart, phase, from) {
            let number = self.phase_at(batch, node);
            if number.unit == unit {
                return Some(LivePhase {
                    index,
                    recipe: batch.recipe,
                    node,
                    state,
                    phase: number,
                });
            }
            from = node + 1;
        }
        None
    }

    /// The live phase of the unit with this name, in the batch that holds the unit.
    #[inline(always)]
    fn live(&self, holders: &[u64], unit: &Name, phase: &Name) -> Option<LivePhase>
        requires { AreHoldingsNoted self.now holders.now }
        ensures { IsLivePhase self.now unit.now phase.now result }
    {
        self.recall_invariant();
        let resource = self.cleared.cell().resource_of(unit)?;
        let index = self.index_of(holders[usize::from(resource)])?;
        self.live_in(index, resource, phase)
    }

    /// Answers a report of a live phase of a unit.
    #[inline(always)]
    pub(crate) fn report(&mut self, report: &PhaseReport, holders: &[u64]) -> Reply
        requires settled { next (setup self.old.cleared) (plant_of self.old) ≡ None }
        requires noted { AreHoldingsNoted self.old holders.now }
        ensures { IsAnswered self.old (Events.report report.now.unit report.now.phase report.now.word report.now.outputs.items) result self.new }
    {
        let Some(live) = self.live(holders, &report.unit, &report.phase) else {
            return Reply::Refused(Refusal::NoLivePhase);
        };
        let Some(_end) = after_report(live.state, report.word) else {
            return Reply::Refused(Refusal::ReportNotExpected(live.state));
        };
        let chart = self.cleared.recipe(live.recipe);
        if !are_outputs(&chart.outputs, &report.outputs) {
            return Reply::Refused(Refusal::BadOutput);
        }
        if let Some(output) = left_out(chart, live.node, live.state, report) {
            return Reply::Refused(Refusal::OutputLeftOut {
                recipe: live.recipe,
                node: live.node,
                output,
            });
        }
        let batch = &mut self.batches[live.index];
        batch.values.set_outputs(&report.outputs);
        let next = state_after(report.word, batch.state);
        batch.state = next;
        batch
            .running
            .report(chart, live.node, report.word, &batch.values);
        Reply::Reported {
            unit: live.phase.unit,
            phase: live.phase.phase,
            word: report.word,
            batch: batch.number,
            recipe: live.recipe,
            node: live.node,
            state: next,
        }
    }
}
