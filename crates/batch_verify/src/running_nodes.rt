//! Which nodes of a recipe surely run a phase, by number.
ghost use Rattle.std.specs.Prelude.{◌≡◌, ◌≤◌, ◌<◌, ◌+◌, IfOk, Some, length, map, slice_get};
ghost use Rattle.batch_recipe.specs.Children.{AreCasesHere, AreHere};
ghost use Rattle.batch_recipe.specs.Nodes.{Node};
ghost use Rattle.batch_recipe.specs.Procedure.{procedure_nodes};
ghost use Rattle.batch_recipe.specs.Tree.{Choices, Trees};
ghost use Rattle.batch_model.specs.Cleared.{each_surely_runs, some_surely_runs, surely_runs};
ghost use Rattle.batch_verify.specs.RunningNodes.{RunsFrom};

use batch_recipe::{Kind, Recipe, node_count};
use std::alloc::{AllocError, Global};

/// Whether every way through the tree at each node runs a phase, by the node's number.
pub(crate) fn running_nodes(alloc: Global, recipe: &Recipe) -> Result<Vec<bool>, AllocError>
    ensures { IfOk result (λ runs. runs.items ≡ map (λ x. surely_runs x.here) (procedure_nodes recipe.now.acts)) }
{
    let count = node_count(recipe);
    let mut runs = vec![in alloc; false; usize::from(count)]?;
    // The nodes below a node have greater numbers.
    for node in (0..count).rev() {
        runs[usize::from(node)] = node_runs(recipe, &runs, node);
    }
    Ok(runs)
}

/// Whether the node surely runs a phase, where that is known of all nodes after it.
fn node_runs(recipe: &Recipe, runs: &[bool], node: u16) -> bool
    requires known { RunsFrom (procedure_nodes recipe.now.acts) runs.now (node + 1) }
    requires within { node < length (procedure_nodes recipe.now.acts) }
    ensures { (x : Node) → slice_get (procedure_nodes recipe.now.acts) node ≡ Some x → result ≡ surely_runs x.here }
{
    let entry = recipe.outline.entries[usize::from(node)];
    let below = node + 1;
    match entry.kind {
        Kind::Skip => false,
        // A phase step has nothing below it.
        Kind::Procedure | Kind::Act(_, _) => entry.end == below || runs[usize::from(below)],
        Kind::Seq | Kind::Par => some_runs(recipe, runs, below, entry.end),
        Kind::Sel => all_run(recipe, runs, below, entry.end),
        Kind::Loop(_) => runs[usize::from(below)],
    }
}

/// Whether one of the nodes that stand one after another from `first` to `end` surely runs a phase.
fn some_runs(recipe: &Recipe, runs: &[bool], first: u16, end: u16) -> bool
    requires known { RunsFrom (procedure_nodes recipe.now.acts) runs.now first }
    requires within { end ≤ length (procedure_nodes recipe.now.acts) }
    ensures { (ts : Trees) → AreHere (procedure_nodes recipe.now.acts) first end ts → result ≡ some_surely_runs ts }
{
    let mut node = first;
    while node < end {
        if runs[usize::from(node)] {
            return true;
        }
        node = recipe.outline.entries[usize::from(node)].end;
    }
    false
}

/// Whether each of the nodes that stand one after another from `first` to `end` surely runs a phase.
fn all_run(recipe: &Recipe, runs: &[bool], first: u16, end: u16) -> bool
    requires known { RunsFrom (procedure_nodes recipe.now.acts) runs.now first }
    requires within { end ≤ length (procedure_nodes recipe.now.acts) }
    ensures { (cs : Choices) → AreCasesHere (procedure_nodes recipe.now.acts) first end cs → result ≡ each_surely_runs cs }
{
    let mut node = first;
    while node < end {
        if !runs[usize::from(node)] {
            return false;
        }
        node = recipe.outline.entries[usize::from(node)].end;
    }
    true
}
