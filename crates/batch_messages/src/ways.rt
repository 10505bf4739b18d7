//! The ways from acts up to their procedures.
ghost use Rattle.std.specs.Iterator.{at_most};

use batch_recipe::{Act, MAX_NODES, Recipe, act_at, place_number};
use std::alloc::{AllocError, Global};

/// The nodes on the way from a node up to the procedure, the node's own first.
#[derive(Drop)]
pub(crate) struct WayUp<'a> {
    recipe: &'a Recipe,
    next: Option<u16>,
    /// How many nodes may still come, so that the way surely ends.
    left: u16,
}

impl<'a> WayUp<'a> {
    pub(crate) fn from_node(recipe: &'a Recipe, node: u16) -> WayUp<'a> {
        WayUp {
            recipe,
            next: Some(node),
            left: MAX_NODES,
        }
    }
}

impl<'a> Iterator for WayUp<'a> {
    type Item = u16;

    ghost remaining = { λ way. at_most way.left };

    fn next(&mut self) -> Option<u16> {
        let node = self.next?;
        self.left = self.left.checked_sub(1)?;
        self.next = match self.recipe.outline.entries.get(usize::from(node)) {
            Some(entry) if node > 0 => Some(entry.parent),
            _ => None,
        };
        Some(node)
    }
}

/// The acts on the way to a node, the node's own last.
pub(crate) fn acts_to<'a>(
    alloc: Global,
    recipe: &'a Recipe,
    node: u16,
) -> Result<Vec<&'a Act>, AllocError> {
    let mut acts: Vec<&'a Act> = WayUp::from_node(recipe, node)
        .filter_map(|at| act_at(recipe, at))
        .collect(alloc)?;
    acts.reverse();
    Ok(acts)
}

/// The place of the node.
pub(crate) fn place_said(alloc: Global, recipe: &Recipe, node: u16) -> Result<String, AllocError> {
    let mut place = String::new(alloc);
    for number in (0..MAX_NODES).map_while(|depth| place_number(recipe, node, depth)) {
        let dot = if place.is_empty() { "" } else { "." };
        write!(place, "{dot}{number}")?;
    }
    Ok(place)
}
