//! The edges of a recipe's nodes.
ghost use Rattle.std.specs.Prelude.{◌≡◌, slice_index_or, IfOk};
ghost use Rattle.batch_set.specs.Linking.{IsLinkedIn};
ghost use Rattle.batch_check.specs.Collecting.{IsCollected, is_joined, kept_at_top, with_joined};

use crate::edge_set::EdgeSet;
use crate::path::{Path, Reach, ask_act};
use crate::site::Site;
use batch_recipe::{Entry, Kind, LabelTable};
use batch_set::LinkedRecipe;
use std::alloc::{AllocError, Global};

/// The edges of the nodes of the site's recipe, which has this number, between resources and roles: the roles' numbers come after those
/// of the resources. `linked` has the numbers of the recipe's needs.
pub(crate) fn collect(
    alloc: Global,
    site: &Site,
    linked: &LinkedRecipe,
    number: u16,
    reach: Reach,
) -> Result<EdgeSet, AllocError>
    requires { IsLinkedIn site.now.cell.now site.now.recipe.now linked.now }
    ensures { IfOk result (λ set. IsCollected site.now (kept_at_top reach) number set.edges.items) }
{
    let mut edges = EdgeSet::new(alloc, site.count_with_roles())?;
    let top = Path::top(alloc, number, reach)?;
    // The path to each node so far, by number.
    let mut paths = Vec::with_capacity(alloc, site.recipe.outline.entries.len())?;
    // For each phase act, by number, whether there are edges between its own needs.
    let mut joined = vec![in alloc; false; site.recipe.acts.phases.len()]?;
    for (node, entry) in site.recipe.outline.entries.iter().enumerate() {
        let above = path_above(&paths, entry, &top);
        let known = is_joined(&joined, entry.kind);
        let needs = linked.needs(entry.kind);
        let path = ask_act(alloc, site, needs, known, above, node as u16, &mut edges)?;
        set_joined(&mut joined, entry.kind);
        paths.push(path)?;
    }
    Ok(edges)
}

/// Whether the flag of the act is set. Only phase acts have flags: they stand at many nodes.
fn is_joined(joined: &[bool], kind: Kind) -> bool
    ensures { result ≡ is_joined joined.now kind }
{
    match kind {
        Kind::Act(LabelTable::Phases, number) => joined.get(number).copied().unwrap_or(false),
        _ => false,
    }
}

/// Sets the flag of the act, if it has one.
fn set_joined(joined: &mut [bool], kind: Kind)
    ensures { joined.new ≡ with_joined joined.old kind }
{
    if let Kind::Act(LabelTable::Phases, number) = kind
        && number < joined.len()
    {
        joined[number] = true;
    }
}

/// The path to the node above that of the entry: `top` for the first node, which comes before all paths.
fn path_above<'a>(paths: &'a [Path], entry: &Entry, top: &'a Path) -> &'a Path
    ensures { result.now ≡ slice_index_or paths.now entry.now.parent top.now }
{
    match paths.get(usize::from(entry.parent)) {
        None => top,
        Some(path) => path,
    }
}
