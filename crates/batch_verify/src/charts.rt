//! The rules on `par`s, loops and reserved unit procedures. They don't depend on the units that take the roles.
ghost use Rattle.std.specs.Prelude.{◌≡◌, ◌≢◌, ◌<◌, ◌≤◌, length, slice_get, Some, None, IfOk};
ghost use Rattle.batch_recipe.specs.Nodes.{Node};
ghost use Rattle.batch_recipe.specs.Outlines.{act_of_kind, form_of};
ghost use Rattle.batch_recipe.specs.Links.{form_at};
ghost use Rattle.batch_recipe.specs.Procedure.{procedure_nodes};
ghost use Rattle.batch_model.specs.Cleared.{below, Part};
ghost use Rattle.batch_verify.specs.Charts.{depth_is, of_chart, reserve_count, AreFaults, IsChartFault, ReservesAs};
ghost use Rattle.batch_verify.specs.Trees.{IsKnown};

use crate::depth::Depth;
use crate::reserve_faults::reserves_follow;
use crate::rule::Rule;
use crate::trees::Trees;
use batch_recipe::{Acts, Entry, Kind, Recipe};
use std::alloc::{AllocError, Global};

/// The level of a node, from the levels below the nodes before it. The first node is the procedure.
fn depth_above(below: &[Depth], entry: &Entry) -> Depth
    ensures some { (depth : Depth) → slice_get below.now entry.now.parent ≡ Some depth → result ≡ depth }
    ensures none { length below.now ≤ entry.now.parent → result ≡ Depth.Procedure }
{
    match below.get(usize::from(entry.parent)) {
        None => Depth::Procedure,
        Some(depth) => *depth,
    }
}

/// The level of the children of a node that is at `depth` itself.
fn depth_below(acts: &Acts, entry: &Entry, depth: Depth) -> Depth
    ensures act { act_of_kind acts.now entry.now.kind ≢ None → depth_is result ≡ below (depth_is depth) }
    ensures chart { act_of_kind acts.now entry.now.kind ≡ None → result ≡ depth }
{
    match entry.kind.act(acts) {
        None => depth,
        Some(_) => depth.below(),
    }
}

/// The rule that the node with this number breaks as a `par` or a loop: by its kind, its level, whether its branches run apart, and
/// whether it surely runs a phase.
fn chart_fault(
    alloc: Global,
    recipe: &Recipe,
    node: u16,
    kind: Kind,
    depth: Depth,
    trees: &mut Trees,
) -> Result<Option<Rule>, AllocError>
    requires known { IsKnown recipe.now trees.old }
    requires node { node < length (procedure_nodes recipe.now.acts) }
    ensures known { IsKnown recipe.now trees.new }
    ensures fault { IfOk result (λ fault. (x : Node) → slice_get (procedure_nodes recipe.now.acts) node ≡ Some x → form_of kind ≡ form_at x.here
        → IsChartFault (record { level = depth_is depth; node = x }) fault) }
{
    match kind {
        Kind::Par => match depth {
            Depth::InOperation => {
                if trees.are_apart(alloc, recipe, node)? {
                    Ok(None)
                } else {
                    Ok(Some(Rule::SamePhaseInParallel))
                }
            }
            Depth::Procedure | Depth::InProcedure | Depth::InUnitProcedure => Ok(None),
        },
        // Every way through a loop runs a phase just where every way through its body does.
        Kind::Loop(_) => {
            if trees.surely_run(alloc, recipe, node)? {
                Ok(None)
            } else {
                Ok(Some(Rule::LoopWithoutPhase))
            }
        }
        Kind::Skip | Kind::Procedure | Kind::Act(..) | Kind::Seq | Kind::Sel => Ok(None),
    }
}

/// How many unit procedures the act at the node reserves.
fn reserve_count(acts: &Acts, entry: &Entry) -> usize
    ensures { result ≡ reserve_count (act_of_kind acts.now entry.now.kind) }
{
    match entry.kind.act(acts) {
        None => 0,
        Some(act) => act.reserves.len(),
    }
}

/// The rule that the node breaks: `chart`, as a `par` or a loop, or else the one on the unit procedures that it reserves.
fn reserve_fault(recipe: &Recipe, entry: &Entry, node: u16, chart: Option<Rule>) -> Option<Rule>
    requires { slice_get recipe.now.outline.entries.items node ≡ Some entry.now }
    ensures { (x : Part) → IsChartFault x chart → IsChartFault x (of_chart result) × ReservesAs recipe.now.acts node result }
{
    match chart {
        Some(rule) => Some(rule),
        None => {
            if reserves_follow(recipe, node, reserve_count(&recipe.acts, entry)) {
                None
            } else {
                Some(Rule::ReserveDoesNotFollow)
            }
        }
    }
}

/// The rule that each node breaks whatever units take the roles, by number.
pub(crate) fn chart_faults(alloc: Global, recipe: &Recipe) -> Result<Vec<Option<Rule>>, AllocError>
    ensures { IfOk result (λ faults. AreFaults recipe.now.acts faults.items) }
{
    let mut trees = Trees::new();
    let nodes = recipe.outline.entries.len();
    let mut below = Vec::with_capacity(alloc, nodes)?;
    let mut faults = Vec::with_capacity(alloc, nodes)?;
    for entry in &recipe.outline.entries {
        let depth = depth_above(&below, entry);
        let node = faults.len() as u16;
        let chart = chart_fault(alloc, recipe, node, entry.kind, depth, &mut trees)?;
        faults.push(reserve_fault(recipe, entry, node, chart))?;
        below.push(depth_below(&recipe.acts, entry, depth))?;
    }
    Ok(faults)
}
