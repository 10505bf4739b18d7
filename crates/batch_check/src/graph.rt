//! The graph of the orders in which recipes ask for resources.
ghost use Rattle.std.specs.Prelude.{IfOk, IfErr, OnOk};
ghost use Rattle.std.specs.List.{All};
ghost use Rattle.batch_check.specs.Checking.{IsSetFault};
ghost use Rattle.batch_check.specs.Edges.{AreEdgesOf, HasPairsOf, EdgeStands};
ghost use Rattle.batch_check.specs.Joining.{HasTaken};
ghost use Rattle.batch_check.specs.LeastRanking.{HasEndsBelow};

use crate::edge::Edge;
use crate::edge_set::EdgeSet;
use crate::edges::edges_of;
use crate::fault::CheckFault;
use batch_cell::Cell;
use batch_recipe::Recipe;
use batch_set::LinkedSet;
use batch_verify::is_recipe_set;
use std::alloc::{AllocError, Global};

/// The orders in which the recipes ask for resources: an edge for each two that follow one another on a path, and for each edge
/// of a circle one that leads from the same resource to the same. No recipe before that of an edge asks for `later` right after `earlier`.
///
/// The circle is the one that [`crate::check`] reports, or has no edge. The faults are [`CheckFault::Recipes`] and
/// [`CheckFault::Memory`] alone: recipes that break other rules have a graph too.
// claim: drawing
pub fn graph_of(
    alloc: Global,
    cell: &Cell,
    recipes: &[Recipe],
    circle: &[Edge],
) -> Result<Vec<Edge>, CheckFault>
    requires { All (EdgeStands cell.now recipes.now) circle.now }
    ensures edges { IfOk result (λ edges. AreEdgesOf cell.now recipes.now edges.items) }
    ensures circle { IfOk result (λ edges. HasPairsOf circle.now edges.items) }
    ensures fault { IfErr result (IsSetFault cell.now recipes.now) }
{
    if !is_recipe_set(recipes) {
        return Err(CheckFault::Recipes);
    }
    let linked = LinkedSet::new(alloc, cell, recipes)?;
    let mut set = edges_of(alloc, cell, recipes, &linked)?;
    add_each(circle, &mut set)?;
    Ok(set.edges)
}

/// Adds each of these edges, if none leads from the one resource to the other yet.
fn add_each(edges: &[Edge], set: &mut EdgeSet) -> Result<(), AllocError>
    requires { HasEndsBelow set.old.count edges.now }
    ensures { OnOk result (HasTaken edges.now set.old set.new) }
{
    for edge in edges {
        set.add(*edge)?;
    }
    Ok(())
}
