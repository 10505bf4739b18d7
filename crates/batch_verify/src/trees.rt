//! Facts on the trees of a recipe.
ghost use Rattle.std.specs.Prelude.{◌≡◌, ◌<◌, length, slice_get, Some, IfOk};
ghost use Rattle.batch_recipe.specs.Nodes.{Node};
ghost use Rattle.batch_recipe.specs.Procedure.{procedure_nodes};
ghost use Rattle.batch_recipe.specs.declared.recipe.Recipe as document;
ghost use Rattle.batch_model.specs.Cleared.{surely_runs};
ghost use Rattle.batch_verify.specs.PhaseSets.{AreApartAs};
ghost use Rattle.batch_verify.specs.Trees.{IsKnown};

use crate::running_nodes::running_nodes;
use crate::tree_phases::{TreePhases, tree_phases};
use batch_recipe::Recipe;
use std::alloc::{AllocError, Global};

/// The phases of the trees of a recipe, and which of its nodes surely run a phase. Each is found once, when a node asks for it first. So a
/// recipe costs nothing for them if it has neither `par`s in operations nor loops.
#[derive(Drop)]
pub(crate) struct Trees {
    phases: Option<Vec<TreePhases>>,
    runs: Option<Vec<bool>>,
}

impl Trees {
    /// Nothing is known yet.
    pub(crate) fn new() -> Trees
        ensures { (r : document.Recipe) → IsKnown r result }
    {
        Trees {
            phases: None,
            runs: None,
        }
    }

    /// Whether the branches of the `par` with this number run apart.
    pub(crate) fn are_apart(
        &mut self,
        alloc: Global,
        recipe: &Recipe,
        node: u16,
    ) -> Result<bool, AllocError>
        requires known { IsKnown recipe.now self.old }
        requires node { node < length (procedure_nodes recipe.now.acts) }
        ensures known { IsKnown recipe.now self.new }
        ensures apart { IfOk result (λ apart. (x : Node) → slice_get (procedure_nodes recipe.now.acts) node ≡ Some x → AreApartAs x.here apart) }
    {
        let trees = match self.phases.take() {
            Some(trees) => trees,
            None => tree_phases(alloc, recipe)?,
        };
        let apart = trees[usize::from(node)].apart;
        self.phases = Some(trees);
        Ok(apart)
    }

    /// Whether every way through the tree at the node runs a phase.
    pub(crate) fn surely_run(
        &mut self,
        alloc: Global,
        recipe: &Recipe,
        node: u16,
    ) -> Result<bool, AllocError>
        requires known { IsKnown recipe.now self.old }
        requires node { node < length (procedure_nodes recipe.now.acts) }
        ensures known { IsKnown recipe.now self.new }
        ensures runs { IfOk result (λ runs. (x : Node) → slice_get (procedure_nodes recipe.now.acts) node ≡ Some x → runs ≡ surely_runs x.here) }
    {
        let all = match self.runs.take() {
            Some(all) => all,
            None => running_nodes(alloc, recipe)?,
        };
        let runs = all[usize::from(node)];
        self.runs = Some(all);
        Ok(runs)
    }
}
