//! The recipes' orders without one of them.
ghost use Rattle.std.specs.Prelude.{◌≡◌, ◌≤◌, ◌&&◌, IfOk, IfErr, length, nat_eq};
ghost use Rattle.batch_check.specs.Checking.{IsSetFault};
ghost use Rattle.batch_check.specs.LeastRanking.{HasEndsBelow};
ghost use Rattle.batch_model.specs.declared.limits.TheConstants.{MAX_RECIPES};
ghost use Rattle.batch_check.specs.Mending.{AreOtherEdges, TellRises, TellsRiseAlong, is_same_order};

use crate::edge::Edge;
use crate::edges::{add_pairs, edges_of};
use crate::fault::CheckFault;
use crate::ranking::{Ranking, least_ranks};
use batch_cell::Cell;
use batch_recipe::Recipe;
use batch_set::LinkedSet;
use batch_verify::is_recipe_set;
use std::alloc::{AllocError, Global};

/// For each edge whether ranks can rise along all paths of the recipes once the order of its two resources is left out.
///
/// The recipe and the node of the edge don't matter. The faults are [`CheckFault::Recipes`] and [`CheckFault::Memory`] alone.
// claim: order left out
pub fn rise_without(
    alloc: Global,
    cell: &Cell,
    recipes: &[Recipe],
    edges: &[Edge],
) -> Result<Vec<bool>, CheckFault>
    ensures told { IfOk result (λ rise. TellRises cell.now recipes.now edges.now rise.items) }
    ensures fault { IfErr result (IsSetFault cell.now recipes.now) }
{
    if !is_recipe_set(recipes) {
        return Err(CheckFault::Recipes);
    }
    Ok(rise_along_others(alloc, cell, recipes, edges)?)
}

fn rise_along_others(
    alloc: Global,
    cell: &Cell,
    recipes: &[Recipe],
    edges: &[Edge],
) -> Result<Vec<bool>, AllocError>
    requires { length recipes.now ≤ MAX_RECIPES }
    ensures { IfOk result (λ rise. TellRises cell.now recipes.now edges.now rise.items) }
{
    let linked = LinkedSet::new(alloc, cell, recipes)?;
    let mut set = edges_of(alloc, cell, recipes, &linked)?;
    add_pairs(alloc, cell, recipes, &linked, &mut set)?;
    let mut rise = Vec::with_capacity(alloc, edges.len())?;
    for edge in edges {
        let rises = rises_along_others(alloc, cell.resources(), &set.edges, *edge)?;
        rise.push(rises)?;
    }
    Ok(rise)
}

/// Whether ranks of the resources below `count` rise along those of the edges that have another order than this one.
fn rises_along_others(
    alloc: Global,
    count: u16,
    edges: &[Edge],
    edge: Edge,
) -> Result<bool, AllocError>
    requires { HasEndsBelow count edges.now }
    ensures { IfOk result (TellsRiseAlong edges.now edge) }
{
    let others = others_than(alloc, edges, edge)?;
    match least_ranks(alloc, count, &others)? {
        Ranking::Ranks(_) => Ok(true),
        Ranking::Circle(_) => Ok(false),
    }
}

/// The edges that have another order than this one.
fn others_than(alloc: Global, edges: &[Edge], edge: Edge) -> Result<Vec<Edge>, AllocError>
    ensures { IfOk result (λ others. AreOtherEdges edges.now edge others.items) }
{
    let mut others = Vec::new(alloc);
    for other in edges {
        if !is_same_order(edge, *other) {
            others.push(*other)?;
        }
    }
    Ok(others)
}

fn is_same_order(edge: Edge, other: Edge) -> bool
    ensures { result ≡ is_same_order edge other }
{
    other.earlier == edge.earlier && other.later == edge.later
}
