//! Choosing the next move.
ghost use Rattle.std.specs.Prelude.{◌≡◌, ◌<◌, ◌≤◌, ◌↔◌, length, slice_get, IfSome, IsTrue, ℕ};
ghost use Rattle.batch_arbiter.specs.Allocation.{resource_count};
ghost use Rattle.batch_model.specs.Moves.{is_stopped};
ghost use Rattle.batch_engine.specs.Marked.{AreMarked};
ghost use Rattle.batch_engine.specs.Marking.{IsFirstStep, IsSet};
ghost use Rattle.batch_engine.specs.Steps.{AreUnserved, IsBatch, IsBatchStep, IsFirstGrant, IsNeedAt, IsNumberAt, IsServedNode, index_of};
ghost use Rattle.batch_engine.specs.View.{EngineView};

use crate::batch::Batch;
use crate::control::Control;
use crate::marks::Marks;
use crate::step::Step;
use batch_arbiter::Arbiter;
use batch_matrix::State;
use batch_recipe::{MAX_NODES, Recipe};
use batch_set::{LinkedNeed, LinkedSet};

/// The number of a batch's acts in queues that are checked one by one before the queues themselves are searched.
const FEW_ACTS: u16 = 8;
/// The number of queues whose check takes as long as that of one act.
const LINES_AN_ACT: u16 = 4;

/// Whether the arbiter would serve this act.
#[inline(always)]
fn serves(arbiter: &Arbiter, resource: u16, batch: u64, node: u16) -> bool
    requires { resource < resource_count arbiter.now }
    ensures { IsTrue result ↔ IsServedNode arbiter.now resource batch node }
{
    match arbiter.first(resource) {
        Some((first, at)) => first == batch && at == node,
        None => false,
    }
}

/// The node of a batch whose act the arbiter would serve of a resource, or one past all nodes.
fn served_node(arbiter: &Arbiter, resource: u16, batch: u64) -> u16
    requires { resource < resource_count arbiter.now }
    ensures { (node : ℕ) → IsServedNode arbiter.now resource batch node → result ≤ node }
{
    match arbiter.first(resource) {
        Some((first, node)) if first == batch => node,
        _ => MAX_NODES,
    }
}

/// The least node of a batch whose act the arbiter would serve of one of the first so many resources, or one past all nodes.
fn least_served(arbiter: &Arbiter, resources: u16, batch: u64) -> u16
    requires { resources ≤ resource_count arbiter.now }
    ensures { (resource node : ℕ) → resource < resources → IsServedNode arbiter.now resource batch node → result ≤ node }
{
    let mut least = MAX_NODES;
    for resource in 0..resources {
        least = least.min(served_node(arbiter, resource, batch));
    }
    least
}

/// Whether a batch in this state was stopped or aborted, so that it has no move.
#[inline(always)]
fn is_stopped(state: State) -> bool
    ensures { result ≡ is_stopped state }
{
    matches!(state, State::Stopped | State::Aborted)
}

/// The need with this number.
#[inline(always)]
fn need_in(needs: &[LinkedNeed], need: u16) -> Option<LinkedNeed>
    ensures { result ≡ slice_get needs.now need }
{
    needs.get(usize::from(need)).copied()
}

/// The number of the resource that an act of a batch of the recipe needs, and how many units of it.
#[inline(always)]
pub(crate) fn resource_at(
    set: &LinkedSet,
    recipe: &Recipe,
    batch: &Batch,
    node: u16,
    need: u16,
) -> (u16, u32)
    requires { (v : EngineView) × IsNeedAt v set.now recipe.now batch.now node need }
    ensures { (v : EngineView) → IsNeedAt v set.now recipe.now batch.now node need → IsNumberAt v.cleared batch.now node need result.0 result.1 }
{
    let entry = &recipe.outline.entries[usize::from(node)];
    let own = &set.recipes[usize::from(batch.recipe)];
    let needs = own.needs(entry.kind);
    match need_in(needs, need) {
        Some(wanted) => {
            let resource = wanted.source.for_units(&batch.units);
            (resource.unwrap_or(0), wanted.units)
        }
        None => (0, 0),
    }
}

impl Control {
    /// The node from which the search for an act of a batch that the arbiter would serve goes on, after so many acts were checked in
    /// vain; `next` is the node that follows them.
    fn search_from(&self, batch: u64, next: u16, looked: u16) -> u16
        ensures { AreUnserved self.now batch next result }
    {
        let resources = self.resources();
        if looked < FEW_ACTS || looked < resources / LINES_AN_ACT {
            return next;
        }
        // A search of all queues takes no longer with more acts in them.
        next.max(least_served(&self.arbiter, resources, batch))
    }

    /// The first act of a batch in a queue that the arbiter would serve: its node, its resource and how many units of it.
    fn first_grant(&self, batch: &Batch) -> Option<(u16, u16, u32)>
        requires { IsBatch self.now batch.now }
        ensures { IsFirstGrant self.now batch.now result }
    {
        let chart = self.cleared.recipe(batch.recipe);
        let set = self.cleared.linked();
        let mut from = 0;
        let mut looked = 0;
        while let Some((node, need)) = batch.running.waiting(chart, from) {
            let (resource, units) = resource_at(set, chart, batch, node, need);
            if serves(&self.arbiter, resource, batch.number, node) {
                return Some((node, resource, units));
            }
            looked += 1;
            from = self.search_from(batch.number, node + 1, looked);
        }
        None
    }

    /// The same, without a call for a batch that waits for nothing, as most do that have no move of their own.
    #[inline(always)]
    fn next_grant(&self, batch: &Batch) -> Option<(u16, u16, u32)>
        requires { IsBatch self.now batch.now }
        ensures { IsFirstGrant self.now batch.now result }
    {
        let chart = self.cleared.recipe(batch.recipe);
        if batch.running.awaits_none(chart) {
            return None;
        }
        self.first_grant(batch)
    }

    /// The next move of the batch at an index.
    #[inline(always)]
    fn batch_step(&self, index: usize) -> Option<Step>
        requires { index < length self.now.batches }
        ensures { IsBatchStep self.now index result }
    {
        let batch = &self.batches[index];
        if is_stopped(batch.state) {
            return None;
        }
        let chart = self.cleared.recipe(batch.recipe);
        if let Some(made) = batch.running.next_move(chart, batch.state) {
            return Some(Step::Own { index, made });
        }
        let (node, resource, units) = self.next_grant(batch)?;
        Some(Step::Grant {
            index,
            node,
            resource,
            units,
        })
    }

    /// The same by a call, for a search that rarely finds a mark.
    #[inline(never)]
    fn step_of(&self, index: usize) -> Option<Step>
        requires { index < length self.now.batches }
        ensures { IsBatchStep self.now index result }
    {
        self.batch_step(index)
    }

    /// The next step: that of the first marked batch that has one. The marks of the batches before it, which have no move, are removed. So
    /// none of these is checked again before something changes.
    // claim: marked batches
    #[inline(always)]
    pub(crate) fn take_step(&self, marks: &mut Marks) -> Option<Step>
        requires { AreMarked self.now marks.old }
        ensures step { IsFirstStep self.now result }
        ensures marked { AreMarked self.now marks.new }
        ensures set { IfSome result (λ step. IsSet marks.new (index_of step)) }
    {
        self.recall_invariant();
        let mut from = 0;
        while let Some(index) = marks.next(from) {
            // The removal of batches can leave a mark past the last one.
            if index >= self.batches.len() {
                return None;
            }
            if let Some(step) = self.batch_step(index) {
                return Some(step);
            }
            marks.clear(index);
            from = index + 1;
        }
        None
    }

    /// The next step: that of the first marked batch that has one.
    // claim: marked batches
    #[inline(always)]
    pub(crate) fn first_step(&self, marks: &Marks) -> Option<Step>
        requires { AreMarked self.now marks.now }
        ensures { IsFirstStep self.now result }
    {
        self.recall_invariant();
        let mut from = 0;
        while let Some(marked) = marks.next(from) {
            // The removal of batches can leave a mark past the last one.
            if marked >= self.batches.len() {
                return None;
            }
            if let Some(step) = self.step_of(marked) {
                return Some(step);
            }
            from = marked + 1;
        }
        None
    }
}
