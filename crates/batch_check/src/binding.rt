//! Edges between resources and roles, where units take the roles.
ghost use Rattle.std.specs.Prelude.{◌≡◌, ◌<◌, ◌&&◌, ltb, length, IfOk, OnOk};
ghost use Rattle.batch_check.specs.Collecting.{AreThose, AreUnitsWithin, HasRaised, HasTakenBy, is_behind, is_of_role, raised};
ghost use Rattle.batch_check.specs.Joining.{AreBelow};
ghost use Rattle.batch_check.specs.Takings.{AreUnitsOf, resource_for};
ghost use Rattle.batch_set.specs.Linking.{IsLinkedIn};
ghost use Rattle.batch_verify.specs.Bindings.{binding_count};

use crate::edge::Edge;
use crate::edge_set::EdgeSet;
use crate::joining::join;
use batch_cell::Cell;
use batch_recipe::Recipe;
use batch_set::LinkedRecipe;
use batch_verify::{binding_count, takers_numbered};
use std::alloc::{AllocError, Global};

/// For each candidate number the units that take the roles in its binding.
pub(crate) fn units_of_each(
    alloc: Global,
    cell: &Cell,
    recipe: &Recipe,
    linked: &LinkedRecipe,
) -> Result<Vec<Vec<Option<u16>>>, AllocError>
    requires { IsLinkedIn cell.now recipe.now linked.now }
    ensures { IfOk result (λ units. AreUnitsOf cell.now recipe.now.roles.items (binding_count cell.now recipe.now.roles.items) units.items) }
{
    let count = binding_count(cell, &recipe.roles);
    let mut units = Vec::with_capacity(alloc, usize::from(count))?;
    for number in 0..count {
        let taken = takers_numbered(alloc, recipe, linked, number)?;
        units.push(taken)?;
    }
    Ok(units)
}

/// The resource for which the number stands: one of so many resources, or the unit that takes a role.
fn resource_for(count: u16, units: &[Option<u16>], number: u16) -> Option<u16>
    ensures { result ≡ resource_for count units.now number }
{
    if number < count {
        return Some(number);
    }
    units
        .get(usize::from(number - count))
        .copied()
        .unwrap_or(None)
}

/// Adds these edges as they are where the units take the roles, each if none leads from the one resource to the other yet.
pub(crate) fn add_taken(
    edges: &[Edge],
    units: &[Option<u16>],
    set: &mut EdgeSet,
) -> Result<(), AllocError>
    requires { AreBelow set.old.count units.now }
    ensures { OnOk result (HasTakenBy units.now edges.now set.old set.new) }
{
    for edge in edges {
        let earlier = resource_for(set.count, units, edge.earlier);
        let later = resource_for(set.count, units, edge.later);
        join(edge.recipe, edge.node, earlier, later, set)?;
    }
    Ok(())
}

/// The units of `others`, but of the role at this place that of `own`.
fn raised(
    place: usize,
    own: &[Option<u16>],
    others: &Vec<Option<u16>>,
) -> Result<Vec<Option<u16>>, AllocError>
    requires own { place < length own.now }
    requires others { place < length others.now.items }
    ensures { IfOk result (λ taken. taken.items ≡ raised place own.now others.now.items) }
{
    let mut taken = others.clone()?;
    taken[place] = own[place];
    Ok(taken)
}

/// Adds these edges as they are where one candidate takes the role at this place, and one each other role: for each two of them.
pub(crate) fn add_raised(
    place: usize,
    units: &[Vec<Option<u16>>],
    edges: &[Edge],
    set: &mut EdgeSet,
) -> Result<(), AllocError>
    requires { AreUnitsWithin place set.old.count units.now }
    ensures { OnOk result (HasRaised place units.now units.now edges.now set.old set.new) }
{
    if edges.is_empty() {
        return Ok(());
    }
    for own in units {
        for other in units {
            let taken = raised(place, own, other)?;
            add_taken(edges, &taken, set)?;
        }
    }
    Ok(())
}

/// The edges among these that lead to or from a role. The numbers of resources are below this count.
pub(crate) fn edges_of_roles(
    alloc: Global,
    count: u16,
    edges: &[Edge],
) -> Result<Vec<Edge>, AllocError>
    ensures { IfOk result (λ of_roles. AreThose (is_of_role count) edges.now of_roles.items) }
{
    let mut of_roles = Vec::new(alloc);
    for edge in edges {
        if !is_between(*edge, count) {
            of_roles.push(*edge)?;
        }
    }
    Ok(of_roles)
}

/// Whether the edge leads from one of so many resources to another.
fn is_between(edge: Edge, count: u16) -> bool
    ensures { result ≡ (ltb edge.earlier count && ltb edge.later count) }
{
    edge.earlier < count && edge.later < count
}

/// The edges among these that join the role with this number and one after it.
pub(crate) fn edges_behind(
    alloc: Global,
    role: u16,
    edges: &[Edge],
) -> Result<Vec<Edge>, AllocError>
    ensures { IfOk result (λ behind. AreThose (is_behind role) edges.now behind.items) }
{
    let mut behind = Vec::new(alloc);
    for edge in edges {
        if is_behind(role, *edge) {
            behind.push(*edge)?;
        }
    }
    Ok(behind)
}

/// Whether the edge joins this role and one after it.
fn is_behind(role: u16, edge: Edge) -> bool
    ensures { result ≡ is_behind role edge }
{
    (edge.earlier == role && role < edge.later) || (edge.later == role && role < edge.earlier)
}
