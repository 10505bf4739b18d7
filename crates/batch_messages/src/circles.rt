//! The remarks on a circle: the acts that hold and ask, their files and lines, and the changes that clear the set.
use crate::names::{act_name, recipe_name, resource_name};
use crate::roles::{may_take, unit_of};
use crate::set::Set;
use crate::ways::WayUp;
use batch_cell::Cell;
use batch_check::{Edge, rise_without};
use batch_recipe::{Act, Recipe, UnitChoice, act_at};
use std::alloc::AllocError;

/// The most edges of a circle for which the changes that clear the set are searched.
const MOST_LOOKED_AT: usize = 16;

/// The act above the edge's that holds the held resource, and the place of its table.
pub(crate) fn holder_said(set: Set<'_>, edge: Edge) -> Result<String, AllocError> {
    let alloc = set.alloc;
    match holder_of(set, edge) {
        Some(node) if node != edge.node => {
            let name = act_name(set.recipes, edge.recipe, node);
            let place = table_said(set, edge.recipe, node, true)?;
            format!(in alloc; " in {name}{place}")
        }
        _ => Ok(String::new(alloc)),
    }
}

/// The line of the asking act's table, with its file if no act above it holds the held resource.
pub(crate) fn asker_said(set: Set<'_>, edge: Edge) -> Result<String, AllocError> {
    let has_file = holder_of(set, edge).is_none_or(|node| node == edge.node);
    table_said(set, edge.recipe, edge.node, has_file)
}

/// The node of the first act on the way to the edge's node that asks for the held resource.
fn holder_of(set: Set<'_>, edge: Edge) -> Option<u16> {
    let recipe = set.recipe(edge.recipe)?;
    let held = resource_name(set.cell, edge.earlier);
    WayUp::from_node(recipe, edge.node)
        .filter(|node| {
            act_at(recipe, *node).is_some_and(|act| asks_for(set.cell, recipe, act, held))
        })
        .last()
}

/// Whether the act asks for the resource of this name if some unit takes its role.
fn asks_for(cell: &Cell, recipe: &Recipe, act: &Act, resource: &str) -> bool {
    let is_asked = |choice| may_be(cell, recipe, choice, resource);
    act.needs
        .iter()
        .any(|need| need.resource.text() == resource)
        || act.unit.as_ref().is_some_and(is_asked)
        || act
            .reserves
            .iter()
            .any(|name| unit_of(recipe, name).is_some_and(is_asked))
}

/// Whether the unit of this name is the one chosen, or may take the role.
fn may_be(cell: &Cell, recipe: &Recipe, choice: &UnitChoice, resource: &str) -> bool {
    match choice {
        UnitChoice::Unit(unit) => unit.text() == resource,
        UnitChoice::Role(role) => {
            let mut takers = cell
                .units
                .iter()
                .filter(|unit| may_take(recipe, role, unit));
            takers.any(|unit| unit.name.text() == resource)
        }
    }
}

/// The line of the table of the act at the node, and the file if that is asked for, as far as they are known.
fn table_said(set: Set<'_>, number: u16, node: u16, has_file: bool) -> Result<String, AllocError> {
    let alloc = set.alloc;
    let (Some(recipe), Some(source)) = (set.recipe(number), set.source(number)) else {
        return Ok(String::new(alloc));
    };
    let path = source.path();
    match source.line_of(recipe, node) {
        Some(line) if has_file => format!(in alloc; " ({path}, line {line})"),
        Some(line) => format!(in alloc; " (line {line})"),
        None if has_file => format!(in alloc; " ({path})"),
        None => Ok(String::new(alloc)),
    }
}

/// The advice on the circle: names each of its orders without which the set would be cleared.
pub(crate) fn advice_said(set: Set<'_>, edges: &[Edge]) -> Result<String, AllocError> {
    match edges.first() {
        Some(edge) if edge.earlier == edge.later => String::from_str(
            set.alloc,
            "; a resource that is held can't be asked for again, and one need of it is enough",
        ),
        _ if edges.len() > MOST_LOOKED_AT => Ok(String::new(set.alloc)),
        _ => {
            let rise = rise_without(set.alloc, set.cell, set.recipes, edges);
            mending_said(set, edges, &rise.map_err(|_| AllocError)?)
        }
    }
}

/// Names each of the edges without whose order of its two resources the set would be cleared, which is said of each.
fn mending_said(set: Set<'_>, edges: &[Edge], rise: &[bool]) -> Result<String, AllocError> {
    let alloc = set.alloc;
    let clearing = rise.iter().filter(|clears| **clears).count();
    if clearing == edges.len() {
        return String::from_str(
            alloc,
            "; without any one of these orders the set would be cleared",
        );
    }
    if clearing == 0 {
        return String::from_str(
            alloc,
            "; there are other circles too, so that more than one order has to change",
        );
    }
    let mut said = String::new(alloc);
    for (edge, _) in edges.iter().zip(rise).filter(|(_, clears)| **clears) {
        let front = if said.is_empty() {
            "; the set would be cleared without the order of "
        } else {
            ", or without that of "
        };
        let recipe = recipe_name(set.recipes, edge.recipe);
        let act = act_name(set.recipes, edge.recipe, edge.node);
        write!(said, "{front}{recipe} in {act}")?;
    }
    Ok(said)
}
