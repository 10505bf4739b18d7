//! The lines of moves.
ghost use Rattle.std.specs.Prelude.{◌≡◌, ◌<◌, ◌≤◌, length};
ghost use Rattle.std.specs.List.{zip};
ghost use Rattle.batch_chart.specs.declared.chart_move.Move.TheVariants as Moves;
ghost use Rattle.batch_model.specs.Moves.{handed_values};
ghost use Rattle.batch_recipe.specs.declared.act.TheConstants.{MAX_VALUES};
ghost use Rattle.batch_engine.specs.declared.line.Line.TheVariants as Lines;
ghost use Rattle.batch_engine.specs.Names.{handed_of, node_of};
ghost use Rattle.batch_engine.specs.Steps.{IsGrantStep, IsLineAt, IsNext, IsNodeAt, IsOwnStep, IsPhaseAt, Tells, TellsNext};

use crate::batch::Batch;
use crate::control::Control;
use crate::line::{ClaimKind, Line};
use crate::pending::resource_at;
use crate::phase_number::{NO_PHASE, PhaseNumber, phase_by};
use batch_chart::Move;
use batch_matrix::Command;
use batch_recipe::{Kind, LabelTable, MAX_VALUES, Recipe, Values, Work, act_at};
use batch_set::LinkedRecipe;
use batch_text::Name;

/// The positions at which a batch has the values that the phase of an act of this kind is handed, as hints.
fn handed_positions(own: &LinkedRecipe, kind: Kind) -> [usize; MAX_VALUES] {
    match kind {
        Kind::Act(LabelTable::Phases, step) => {
            own.handed.get(step).copied().unwrap_or([0; MAX_VALUES])
        }
        _ => [0; MAX_VALUES],
    }
}

/// The values of these names, which the phase of an act of this kind is handed; the entries after them mean nothing. Each is looked for at
/// its position first.
#[inline(never)]
fn values_of(names: &[Name], own: &LinkedRecipe, kind: Kind, values: &Values) -> [u64; MAX_VALUES]
    requires { length names.now ≤ MAX_VALUES }
    ensures { zip names.now result ≡ handed_values values.now names.now }
{
    let positions = handed_positions(own, kind);
    let mut handed = [0; MAX_VALUES];
    for index in 0..names.len() {
        handed[index] = values
            .value_from(positions[index], &names[index])
            .unwrap_or(0);
    }
    handed
}

/// The values that the phase of a phase step is handed; the entries after them mean nothing. Most phases are handed none.
#[inline(always)]
fn handed(recipe: &Recipe, own: &LinkedRecipe, node: u16, values: &Values) -> [u64; MAX_VALUES]
    requires { node < length recipe.now.outline.entries.items }
    ensures { zip (handed_of (node_of node recipe.now)) result ≡ handed_values values.now (handed_of (node_of node recipe.now)) }
{
    match act_at(recipe, node) {
        Some(act) => match &act.work {
            Work::Runs { values: names, .. } => {
                if names.is_empty() {
                    return [0; MAX_VALUES];
                }
                let entry = &recipe.outline.entries[usize::from(node)];
                values_of(names, own, entry.kind, values)
            }
            Work::Follows(_) => [0; MAX_VALUES],
        },
        None => [0; MAX_VALUES],
    }
}

/// The line of an act's claim: on which resource, and on how many units of it.
#[inline(always)]
fn claim_line(kind: ClaimKind, batch: &Batch, node: u16, share: (u16, u32)) -> Line
    ensures { result ≡ Lines.Claim kind batch.now.number batch.now.recipe node share.0 share.1 }
{
    let (resource, units) = share;
    Line::Claim {
        kind,
        batch: batch.number,
        recipe: batch.recipe,
        node,
        resource,
        units,
    }
}

/// The line of an act that passes on a claim to the act at the node `to`.
#[inline(always)]
fn pass_line(batch: &Batch, node: u16, to: u16, share: (u16, u32)) -> Line
    ensures { result ≡ Lines.Pass batch.now.number batch.now.recipe node to share.0 share.1 }
{
    let (resource, units) = share;
    Line::Pass {
        batch: batch.number,
        recipe: batch.recipe,
        node,
        to,
        resource,
        units,
    }
}

impl Control {
    /// The numbers of the phase that an act of a batch runs. Those of an act that runs none name nothing.
    pub(crate) fn phase_at(&self, batch: &Batch, node: u16) -> PhaseNumber
        requires { IsNodeAt self.now batch.now node }
        ensures { IsPhaseAt self.now.cleared batch.now node result.unit result.phase }
    {
        let set = self.cleared.linked();
        let own = &set.recipes[usize::from(batch.recipe)];
        let chart = self.cleared.recipe(batch.recipe);
        let entry = &chart.outline.entries[usize::from(node)];
        phase_by(own, &set.phases, entry, &batch.units).unwrap_or(NO_PHASE)
    }

    /// The line of a command to a phase of a batch.
    #[inline(always)]
    fn send_line(&self, batch: &Batch, node: u16, command: Command) -> Line
        requires { IsNodeAt self.now batch.now node }
        ensures { Tells self.now batch.now (Moves.Send node command) result }
    {
        let PhaseNumber { unit, phase } = self.phase_at(batch, node);
        Line::Send {
            batch: batch.number,
            recipe: batch.recipe,
            node,
            unit,
            phase,
            command,
        }
    }

    /// The line of the start of a phase of a batch.
    #[inline(always)]
    fn start_line(&self, batch: &Batch, node: u16) -> Line
        requires { IsNodeAt self.now batch.now node }
        ensures { Tells self.now batch.now (Moves.Start node) result }
    {
        let PhaseNumber { unit, phase } = self.phase_at(batch, node);
        let set = self.cleared.linked();
        let own = &set.recipes[usize::from(batch.recipe)];
        let recipe = self.cleared.recipe(batch.recipe);
        Line::Start {
            batch: batch.number,
            recipe: batch.recipe,
            node,
            unit,
            phase,
            values: handed(recipe, own, node, &batch.values),
        }
    }

    /// The line of a move of the batch at an index.
    #[inline(always)]
    pub(crate) fn own_line(&self, index: usize, made: Move) -> Line
        requires { IsOwnStep self.now (IsNext self.now) index made }
        ensures { IsLineAt self.now index made result }
    {
        let batch = &self.batches[index];
        let number = batch.number;
        let recipe = batch.recipe;
        let chart = self.cleared.recipe(recipe);
        let set = self.cleared.linked();
        match made {
            Move::Send { node, command } => self.send_line(batch, node, command),
            Move::State(state) => Line::State {
                batch: number,
                state,
            },
            Move::Release { node, need } => {
                let share = resource_at(set, chart, batch, node, need);
                claim_line(ClaimKind::Released, batch, node, share)
            }
            Move::Pass { node, to, need } => {
                let share = resource_at(set, chart, batch, node, need);
                pass_line(batch, node, to, share)
            }
            Move::Begin { node } => Line::Begin {
                batch: number,
                recipe,
                node,
            },
            Move::Start { node } => self.start_line(batch, node),
            Move::End { node } => Line::End {
                batch: number,
                recipe,
                node,
            },
            Move::Ask { node, need } => {
                let share = resource_at(set, chart, batch, node, need);
                claim_line(ClaimKind::Asked, batch, node, share)
            }
        }
    }

    /// The line of a grant to the act at a node of the batch at an index.
    #[inline(always)]
    pub(crate) fn grant_line(&self, index: usize, node: u16, resource: u16, units: u32) -> Line
        requires { IsGrantStep self.now (IsNext self.now) index node resource units }
        ensures { TellsNext self.now result }
    {
        let batch = &self.batches[index];
        claim_line(ClaimKind::Granted, batch, node, (resource, units))
    }
}
