//! The phases of the tree at each node of a recipe, and whether its branches run apart.
ghost use Rattle.std.specs.Prelude.{◌≡◌, ◌<◌, ◌≤◌, ◌+◌, List, Some, length, slice_get, IfOk};
ghost use Rattle.batch_recipe.specs.Nodes.{Node};
ghost use Rattle.batch_recipe.specs.Procedure.{procedure_nodes};
ghost use Rattle.batch_recipe.specs.declared.act.Act as act;
ghost use Rattle.batch_recipe.specs.declared.recipe.TheConstants.{MAX_ACTS};
ghost use Rattle.batch_verify.specs.PhaseSets.{own_phases, AreKnownFrom, GivesNumber, HaveSets, IsOfTree, IsSetOf};

use crate::phase_set::PhaseSet;
use batch_recipe::{Act, Kind, LabelTable, Recipe, Work, node_count};
use batch_text::Name;
use indexmap::IndexMap;
use std::alloc::{AllocError, Global};

/// The phases of the tree at a node, and whether its branches run apart.
#[derive(Clone, Copy)]
pub(crate) struct TreePhases {
    /// The phases, by number.
    set: PhaseSet,
    /// Whether no two of the trees right below the node run the same phase.
    pub(crate) apart: bool,
}

/// The phases of the tree at each node, by the node's number, and whether its branches run apart.
pub(crate) fn tree_phases(alloc: Global, recipe: &Recipe) -> Result<Vec<TreePhases>, AllocError>
    ensures { IfOk result (λ trees. AreKnownFrom recipe.now.acts trees.items 0) }
{
    let sets = step_sets(alloc, &recipe.acts.phases)?;
    let count = node_count(recipe);
    let none = TreePhases {
        set: PhaseSet::new(),
        apart: true,
    };
    let mut trees = vec![in alloc; none; usize::from(count)]?;
    // The nodes below a node have greater numbers.
    for node in (0..count).rev() {
        trees[usize::from(node)] = tree_at(recipe, &sets, &trees, node);
    }
    Ok(trees)
}

/// For each phase step the set of the phase that it runs. The number of a phase is that of the first phase step that runs it.
fn step_sets(alloc: Global, steps: &[Act]) -> Result<Vec<PhaseSet>, AllocError>
    requires { length steps.now ≤ MAX_ACTS }
    ensures { IfOk result (λ sets. HaveSets steps.now sets.items) }
{
    let mut numbers = IndexMap::new(alloc);
    let mut sets = Vec::with_capacity(alloc, steps.len())?;
    for (index, step) in steps.iter().enumerate() {
        let set = match &step.work {
            Work::Follows(_) => PhaseSet::new(),
            Work::Runs { phase, .. } => PhaseSet::of(number_of(&mut numbers, phase, index as u8)?),
        };
        sets.push(set)?;
    }
    Ok(sets)
}

/// The number of a phase. If it has none yet, it is given `next`.
fn number_of<'a>(
    numbers: &mut IndexMap<&'a Name, u8>,
    phase: &'a Name,
    next: u8,
) -> Result<u8, AllocError>
    ensures { IfOk result (GivesNumber numbers.old.entries numbers.new.entries phase.now next) }
{
    if let Some(number) = numbers.get(&phase) {
        return Ok(*number);
    }
    numbers.insert(phase, next)?;
    Ok(next)
}

/// The phases of the tree at the node, and whether its branches run apart, where both are known of all nodes after it.
fn tree_at(recipe: &Recipe, sets: &[PhaseSet], trees: &[TreePhases], node: u16) -> TreePhases
    requires node { node < length (procedure_nodes recipe.now.acts) }
    requires sets { HaveSets recipe.now.acts.phases.items sets.now }
    requires known { AreKnownFrom recipe.now.acts trees.now (node + 1) }
    ensures { (x : Node) → slice_get (procedure_nodes recipe.now.acts) node ≡ Some x → IsOfTree recipe.now.acts x result }
{
    let entry = recipe.outline.entries[usize::from(node)];
    let mut set = own_set(sets, entry.kind);
    let mut apart = true;
    let mut below = node + 1;
    while below < entry.end {
        let branch = trees[usize::from(below)].set;
        apart = set.is_disjoint(branch) && apart;
        set = set.joined(branch);
        below = recipe.outline.entries[usize::from(below)].end;
    }
    TreePhases { set, apart }
}

/// The set of the phase that the act at a node runs itself.
fn own_set(sets: &[PhaseSet], kind: Kind) -> PhaseSet
    ensures { (steps : List act.Act) → HaveSets steps sets.now → IsSetOf steps (own_phases steps kind) result }
{
    match kind {
        Kind::Act(LabelTable::Phases, step) => match sets.get(step) {
            None => PhaseSet::new(),
            Some(set) => *set,
        },
        _ => PhaseSet::new(),
    }
}
