//! Freeing an act that has ended.
ghost use Rattle.std.specs.Prelude.{◌≡◌, ◌<◌, ◌≤◌, length, true, false};
ghost use Rattle.batch_chart.specs.Outlined.{end_at, is_act_kind, kind_at};
ghost use Rattle.batch_chart.specs.Freeing.{HasCleared, HasGivenUp, IsFreed};
ghost use Rattle.batch_chart.specs.Neat.{AreNeat};
ghost use Rattle.batch_chart.specs.Nexts.{IsInOrder};
ghost use Rattle.batch_chart.specs.Stages.{is_finished, stage_at};

use crate::control_recipe::ControlRecipe;
use crate::noting::set_stage;
use crate::stage::Stage;
use batch_recipe::Entry;
use batch_signs::Signs;

/// Makes the nodes from the first one up to `end` finished, without signs.
fn clear(stages: &mut [Stage], signs: &mut Signs, first: usize, end: usize)
    requires order { first ≤ end }
    requires within { end ≤ length stages.old }
    ensures { HasCleared first end stages.old stages.new signs.old signs.new }
{
    for n in first..end {
        stages[n] = Stage::Finished;
        signs.replace(n, 0);
    }
}

/// Gives up the descendants of the node, unless the first of them is finished.
#[inline(always)]
fn give_up(nodes: &[Entry], stages: &mut [Stage], signs: &mut Signs, n: usize)
    requires within { n < length nodes.now }
    requires fits { length stages.old ≡ length nodes.now }
    requires ends { end_at nodes.now n ≤ length nodes.now }
    ensures { HasGivenUp nodes.now n stages.old stages.new signs.old signs.new }
{
    let end = nodes[n].end as usize;
    if end <= n + 1 {
        return;
    }
    if stages[n + 1].is_finished() {
        return;
    }
    clear(stages, signs, n + 1, end);
}

impl ControlRecipe<'_> {
    /// Makes the act one that has ended and still holds so many needs. If it holds none, it is finished, and the chart goes on above it.
    pub fn free(&self, stages: &mut [Stage], signs: &mut Signs, node: usize, held: u16)
        requires order { IsInOrder self.now.nodes.now self.now.master.now stages.old signs.old }
        requires node { node < length self.now.nodes.now }
        requires acts { is_act_kind (kind_at self.now.nodes.now node) ≡ true }
        requires left { is_finished (stage_at stages.old node) ≡ false }
        ensures freed { IsFreed self.now.nodes.now self.now.master.now self.now.values.now node held stages.old stages.new }
        ensures neat { AreNeat self.now.nodes.now self.now.master.now 0 (length self.now.nodes.now) stages.new signs.new }
        ensures count { length signs.new ≡ length signs.old }
    {
        give_up(self.nodes, stages, signs, node);
        if held != 0 {
            set_stage(self.nodes, stages, signs, node, Stage::Freeing(held));
            return;
        }
        stages[node] = Stage::Finished;
        signs.set(node, 0);
        self.rise(stages, signs, node);
    }
}
