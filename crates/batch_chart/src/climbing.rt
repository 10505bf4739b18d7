//! Going on with a chart from a node that has just been finished, along the path to the root.
ghost use Rattle.std.specs.Prelude.{◌≡◌, ◌<◌, ℕ, List, length, false};
ghost use Rattle.batch_recipe.specs.Tree.{Tree};
ghost use Rattle.batch_chart.specs.Climbing.{HasRisen, IsNeatlyRisen, IsRisen, PassesBy};
ghost use Rattle.batch_chart.specs.Outlined.{HasTree, kind_at};
ghost use Rattle.batch_chart.specs.Neat.{AreNeat};
ghost use Rattle.batch_chart.specs.Parents.{IsAbove};
ghost use Rattle.batch_chart.specs.Running.{IsLaid};
ghost use Rattle.batch_chart.specs.Stages.{is_over_at, stage_at};
ghost use Rattle.batch_chart.specs.declared.node.Kind.TheVariants.{Loop, Seq};
ghost use Rattle.batch_chart.specs.declared.stage.Stage.{Stage as StageOf};

use crate::control_recipe::ControlRecipe;
use crate::node::{Kind, kind_of};
use crate::reaching::{close, close_loop};
use crate::sign::{IS_ACT, of_open};
use crate::stage::Stage;
use batch_signs::Signs;

impl ControlRecipe<'_> {
    /// The `seq` at p goes on after its branch n, which ran and has been finished.
    #[inline(always)]
    fn go_on_after(&self, stages: &mut [Stage], signs: &mut Signs, p: usize, n: usize) -> bool
        requires standing { HasTree self.now.nodes.now self.now.master.now stages.old p }
        requires fits { length signs.old ≡ length self.now.nodes.now }
        requires above { IsAbove self.now.nodes.now p n }
        requires seq { kind_at self.now.nodes.now p ≡ Seq }
        requires left { is_over_at Seq (stage_at stages.old p) ≡ false }
        ensures passes { PassesBy self.now.nodes.now self.now.master.now self.now.values.now n stages.old signs.old p stages.new signs.new result }
        ensures count { length signs.new ≡ length signs.old }
    {
        let next = self.nodes[n].end as usize;
        let end = self.nodes[p].end as usize;
        let over = self.reach_first(stages, signs, next, end);
        close(stages, p, over)
    }

    /// The loop at p, of which a turn is over, begins the next turn if another is to follow.
    #[inline(always)]
    fn go_round(
        &self,
        stages: &mut [Stage],
        signs: &mut Signs,
        p: usize,
        n: usize,
        until: usize,
    ) -> bool
        requires standing { HasTree self.now.nodes.now self.now.master.now stages.old p }
        requires fits { length signs.old ≡ length self.now.nodes.now }
        requires above { IsAbove self.now.nodes.now p n }
        requires looped { (turns : ℕ) × (kind_at self.now.nodes.now p ≡ Loop turns until) }
        requires left { is_over_at (kind_at self.now.nodes.now p) (stage_at stages.old p) ≡ false }
        ensures passes { PassesBy self.now.nodes.now self.now.master.now self.now.values.now n stages.old signs.old p stages.new signs.new result }
        ensures count { length signs.new ≡ length signs.old }
    {
        let Some(left) = stages[p].turns() else {
            return false;
        };
        if left == 0 || self.condition_holds(until) {
            stages[p] = Stage::Finished;
            return true;
        }
        let over = self.reach(stages, signs, n);
        close_loop(stages, p, over, left - 1)
    }

    /// Goes on at p, the node above n, after n has been finished. Returns whether that has finished p.
    #[inline(always)]
    fn go_on_at(&self, stages: &mut [Stage], signs: &mut Signs, p: usize, n: usize) -> bool
        requires standing { HasTree self.now.nodes.now self.now.master.now stages.old p }
        requires fits { length signs.old ≡ length self.now.nodes.now }
        requires above { IsAbove self.now.nodes.now p n }
        ensures passes { PassesBy self.now.nodes.now self.now.master.now self.now.values.now n stages.old signs.old p stages.new signs.new result }
        ensures count { length signs.new ≡ length signs.old }
    {
        let node = self.nodes[p];
        let kind = kind_of(&node);
        if kind.is_over_at(stages[p]) {
            return false;
        }
        match kind {
            Kind::Skip | Kind::Phase { .. } => false,
            Kind::Act { needs } => {
                signs.set(p, of_open(needs, true));
                false
            }
            Kind::Seq => self.go_on_after(stages, signs, p, n),
            Kind::Par => {
                let over = signs.has_none(IS_ACT, p + 1, node.end as usize);
                close(stages, p, over)
            }
            Kind::Sel { .. } => close(stages, p, true),
            Kind::Loop { until, .. } => self.go_round(stages, signs, p, n, until),
        }
    }

    /// Goes on above the node, which has been finished, up to the first that isn't finished by that.
    #[inline(always)]
    pub fn rise(&self, stages: &mut [Stage], signs: &mut Signs, node: usize)
        requires laid { (t : Tree) × IsLaid self.now.nodes.now self.now.master.now t }
        requires fits { length stages.old ≡ length self.now.nodes.now }
        requires signs { length signs.old ≡ length self.now.nodes.now }
        requires within { node < length self.now.nodes.now }
        ensures { (xs ws : List StageOf) (ms : List ℕ) → IsRisen self.now.nodes.now self.now.master.now self.now.values.now xs ws node stages.old → IsNeatlyRisen self.now.nodes.now self.now.master.now xs ms node stages.old signs.old
            → HasRisen self.now.nodes.now self.now.master.now self.now.values.now ws stages.new × (length signs.new ≡ length ms) × AreNeat self.now.nodes.now self.now.master.now 0 (length self.now.nodes.now) stages.new signs.new }
    {
        let mut n = node;
        while n > 0 {
            let above = self.nodes[n].parent as usize;
            if !self.go_on_at(stages, signs, above, n) {
                return;
            }
            n = above;
        }
    }
}
