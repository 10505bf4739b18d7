//! Acts that take over the units held for them in advance.
ghost use Rattle.std.specs.Prelude.{◌≡◌, ◌<◌, ℕ, Some, length};
ghost use Rattle.std.specs.VecDeque.{deque_capacity};
ghost use Rattle.batch_matrix.specs.Matrix.{after_report};
ghost use Rattle.batch_matrix.specs.declared.report.ReportOutcome.{ReportOutcome};
ghost use Rattle.batch_matrix.specs.declared.state.State.{State};
ghost use Rattle.batch_chart.specs.Early.{AreNodes, IsMovedOn, IsReportedOn, IsTakenAt, IsTakenBy, first_held, held_after, is_early, is_ready, still_held};
ghost use Rattle.batch_chart.specs.Nexts.{IsInOrder};
ghost use Rattle.batch_chart.specs.Running.{Allows, IsLiveIn};
ghost use Rattle.batch_chart.specs.Stages.{stage_at};

use crate::chart_move::Move;
use crate::control_recipe::ControlRecipe;
use crate::node::kind_of;
use crate::noting::set_stage;
use crate::passed::Passed;
use crate::stage::Stage;
use batch_matrix::Report;
use batch_recipe::{Entry, Recipe};
use batch_signs::Signs;
use std::collections::VecDeque;

/// How many needs an act holds that holds its first one: 0 if it has none.
fn first_held(needs: u16) -> u16
    ensures { result ≡ first_held needs }
{
    if 0 < needs { 1 } else { 0 }
}

/// Gives the act at the node its first need, if it is ready.
fn take_over_at(nodes: &[Entry], stages: &mut [Stage], signs: &mut Signs, n: usize)
    requires node { n < length nodes.now }
    requires fits { length stages.old ≡ length nodes.now }
    requires signs { length signs.old ≡ length nodes.now }
    ensures { IsTakenAt nodes.now n stages.old stages.new signs.old signs.new }
{
    if let Stage::Ready(_) = stages[n] {
        let needs = kind_of(&nodes[n]).needs();
        let held = first_held(needs);
        set_stage(nodes, stages, signs, n, Stage::Ready(held));
    }
}

/// Every ready act whose unit is held in advance takes that over.
#[inline(always)]
fn take_over(
    nodes: &[Entry],
    recipe: &Recipe,
    stages: &mut [Stage],
    signs: &mut Signs,
    held: &VecDeque<Passed>,
)
    requires order { IsInOrder nodes.now recipe.now stages.old signs.old }
    requires nodes { AreNodes nodes.now held.now.items }
    ensures { IsTakenBy nodes.now recipe.now (is_early held.now.items) stages.old stages.new signs.old signs.new }
{
    for j in 0..held.len() {
        take_over_at(nodes, stages, signs, usize::from(held[j].to));
    }
}

/// Whether the node holds its unit in advance.
fn is_held(held: &VecDeque<Passed>, to: u16) -> bool
    ensures { result ≡ is_early held.now.items to }
{
    for j in 0..held.len() {
        if held[j].to == to {
            return true;
        }
    }
    false
}

/// Holds the need of a pass in advance, unless its node holds one already.
#[inline(always)]
pub fn hold(held: &mut VecDeque<Passed>, wanted: Move)
    requires { length held.old.items < deque_capacity held.old }
    ensures items { held.new.items ≡ held_after held.old.items wanted }
    ensures capacity { deque_capacity held.new ≡ deque_capacity held.old }
{
    if let Move::Pass { node, to, need } = wanted {
        if !is_held(held, to) {
            held.push_front_reserved(Passed { to, node, need });
        }
    }
}

/// Whether the act at the node is ready.
fn is_ready_at(stages: &[Stage], node: u16) -> bool
    ensures { result ≡ is_ready (stage_at stages.now node) }
{
    match stages.get(usize::from(node)) {
        Some(stage) => stage.is_ready(),
        None => false,
    }
}

/// Removes the needs that have been taken over: those held for an act that is ready.
#[inline(always)]
pub fn forget(held: &mut VecDeque<Passed>, stages: &[Stage])
    ensures items { held.new.items ≡ still_held stages.now held.old.items }
    ensures capacity { deque_capacity held.new ≡ deque_capacity held.old }
{
    if held.is_empty() {
        return;
    }
    held.retain(|passed| !is_ready_at(stages, passed.to));
}

impl ControlRecipe<'_> {
    /// Makes a move that the stages allow. The acts that it reaches take over the units held for them in advance.
    #[inline(always)]
    pub fn move_on(
        &self,
        stages: &mut [Stage],
        signs: &mut Signs,
        held: &VecDeque<Passed>,
        wanted: Move,
    )
        requires order { IsInOrder self.now.nodes.now self.now.master.now stages.old signs.old }
        requires allowed { Allows self.now.nodes.now stages.old wanted }
        requires nodes { AreNodes self.now.nodes.now held.now.items }
        ensures { IsMovedOn self.now.nodes.now self.now.master.now self.now.values.now wanted held.now.items stages.old stages.new signs.old signs.new }
    {
        self.make_move(stages, signs, wanted);
        take_over(self.nodes, self.master, stages, signs, held);
    }

    /// Gives a live phase a report that it accepts. The acts that are reached by it take over the units held for them in advance.
    #[inline(always)]
    pub fn report_on(
        &self,
        stages: &mut [Stage],
        signs: &mut Signs,
        held: &VecDeque<Passed>,
        node: u16,
        report: Report,
    )
        requires order { IsInOrder self.now.nodes.now self.now.master.now stages.old signs.old }
        requires accepts { (x : State) × (e : ReportOutcome) × IsLiveIn self.now.nodes.now stages.old node x × (after_report x report ≡ Some e) }
        requires nodes { AreNodes self.now.nodes.now held.now.items }
        ensures { IsReportedOn self.now.nodes.now self.now.master.now self.now.values.now node report held.now.items stages.old stages.new signs.old signs.new }
    {
        self.report_at(stages, signs, node, report);
        take_over(self.nodes, self.master, stages, signs, held);
    }
}
