//! The edges of recipes.
ghost use Rattle.std.specs.Prelude.{◌≡◌, ◌≤◌, List, Some, length, slice_get, IfOk, OnOk};
ghost use Rattle.batch_cell.specs.LookUps.{resources_of};
ghost use Rattle.batch_recipe.specs.declared.recipe.Recipe.{Recipe};
ghost use Rattle.batch_check.specs.Collecting.{AreAdded, HasAllPairs, IsAdded, kept_at_top};
ghost use Rattle.batch_check.specs.Edges.{AreEdgesOf};
ghost use Rattle.batch_check.specs.LeastRanking.{HasEndsBelow};
ghost use Rattle.batch_model.specs.declared.limits.TheConstants.{MAX_RECIPES};
ghost use Rattle.batch_set.specs.Linking.{IsLinkedIn, IsLinkedSet};

use crate::binding::{add_raised, add_taken, edges_behind, edges_of_roles, units_of_each};
use crate::collecting::collect;
use crate::edge::Edge;
use crate::edge_set::EdgeSet;
use crate::path::Reach;
use crate::site::Site;
use batch_cell::Cell;
use batch_recipe::Recipe;
use batch_set::{LinkedRecipe, LinkedSet};
use batch_verify::takers_numbered;
use std::alloc::{AllocError, Global};

/// The orders in which the recipes ask for resources: an edge for each two that follow one another on a path, whatever units take
/// the roles. `linked` has the numbers of the recipes' needs.
pub(crate) fn edges_of(
    alloc: Global,
    cell: &Cell,
    recipes: &[Recipe],
    linked: &LinkedSet,
) -> Result<EdgeSet, AllocError>
    requires few { length recipes.now ≤ MAX_RECIPES }
    requires linked { IsLinkedSet cell.now recipes.now linked.now }
    ensures sized { IfOk result (λ set. set.count ≡ length (resources_of cell.now)) }
    // claim: circle stands; all paths
    ensures edges { IfOk result (λ set. AreEdgesOf cell.now recipes.now set.edges.items) }
    ensures within { IfOk result (λ set. HasEndsBelow (length (resources_of cell.now)) set.edges.items) }
{
    let mut set = EdgeSet::new(alloc, cell.resources())?;
    add_all(alloc, cell, recipes, linked, Reach::Next, &mut set)?;
    Ok(set)
}

/// Adds an edge for each two resources that are asked for on one path, whatever units take the roles.
pub(crate) fn add_pairs(
    alloc: Global,
    cell: &Cell,
    recipes: &[Recipe],
    linked: &LinkedSet,
    set: &mut EdgeSet,
) -> Result<(), AllocError>
    requires few { length recipes.now ≤ MAX_RECIPES }
    requires linked { IsLinkedSet cell.now recipes.now linked.now }
    requires sized { set.old.count ≡ length (resources_of cell.now) }
    requires edges { AreEdgesOf cell.now recipes.now set.old.edges.items }
    ensures pairs { OnOk result (HasAllPairs cell.now recipes.now set.old set.new) }
    ensures within { OnOk result (HasEndsBelow (length (resources_of cell.now)) set.new.edges.items) }
{
    add_all(alloc, cell, recipes, linked, Reach::Whole, set)
}

/// Adds the edges of the recipes, one after another.
fn add_all(
    alloc: Global,
    cell: &Cell,
    recipes: &[Recipe],
    linked: &LinkedSet,
    reach: Reach,
    set: &mut EdgeSet,
) -> Result<(), AllocError>
    requires few { length recipes.now ≤ MAX_RECIPES }
    requires linked { IsLinkedSet cell.now recipes.now linked.now }
    requires sized { set.old.count ≡ length (resources_of cell.now) }
    ensures { OnOk result (AreAdded cell.now (kept_at_top reach) recipes.now recipes.now set.old set.new) }
{
    for (number, recipe) in recipes.iter().enumerate() {
        let own = &linked.recipes[number];
        add_edges(alloc, cell, recipe, own, number as u16, reach, set)?;
    }
    Ok(())
}

/// Adds the edges of the recipe with this number, whatever units take its roles. Edges of roles are added again for each candidate, and
/// of these the ones between two roles for each two candidates.
fn add_edges(
    alloc: Global,
    cell: &Cell,
    recipe: &Recipe,
    linked: &LinkedRecipe,
    number: u16,
    reach: Reach,
    edges: &mut EdgeSet,
) -> Result<(), AllocError>
    requires sized { edges.old.count ≡ length (resources_of cell.now) }
    requires linked { IsLinkedIn cell.now recipe.now linked.now }
    ensures { OnOk result ((recipes : List Recipe) → slice_get recipes number ≡ Some recipe.now
        → IsAdded cell.now (kept_at_top reach) recipes number recipe.now edges.old edges.new) }
{
    let site = Site { cell, recipe };
    let collected = collect(alloc, &site, linked, number, reach)?;
    let first = takers_numbered(alloc, recipe, linked, 0)?;
    add_taken(&collected.edges, &first, edges)?;
    let of_roles = edges_of_roles(alloc, cell.resources(), &collected.edges)?;
    let units = units_of_each(alloc, cell, recipe, linked)?;
    for taken in &units {
        add_taken(&of_roles, taken, edges)?;
    }
    for role in cell.resources()..site.count_with_roles() {
        let behind = edges_behind(alloc, role, &of_roles)?;
        let place = usize::from(role - site.cell.resources());
        add_raised(place, &units, &behind, edges)?;
    }
    Ok(())
}
