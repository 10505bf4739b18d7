//! The linked set.
ghost use Rattle.std.specs.Prelude.{IfOk};
ghost use Rattle.batch_set.specs.Linking.{AreLinked, IsLinkedSet};

use crate::cell_phases::CellPhases;
use crate::linked::LinkedRecipe;
use crate::linking::link;
use batch_cell::Cell;
use batch_recipe::Recipe;
use std::alloc::{AllocError, Global};

/// The linked recipes of a set, in their order, and the phases of their cell.
pub struct LinkedSet {
    pub recipes: Vec<LinkedRecipe>,
    pub phases: CellPhases,
}

// Not derived: each function that drops one would have a proof that drops field by field.
impl Drop for LinkedSet {
    fn drop(self) {
        let LinkedSet {
            recipes: _,
            phases: _,
        } = self;
    }
}

/// The linked recipes, in their order.
fn link_recipes(
    alloc: Global,
    cell: &Cell,
    phases: &CellPhases,
    recipes: &[Recipe],
) -> Result<Vec<LinkedRecipe>, AllocError>
    ensures { IfOk result (λ linked. AreLinked cell.now phases.now recipes.now linked.items) }
{
    let mut linked = Vec::with_capacity(alloc, recipes.len())?;
    for index in 0..recipes.len() {
        let recipe = link(alloc, cell, phases, &recipes[index])?;
        linked.push(recipe)?;
    }
    Ok(linked)
}

impl LinkedSet {
    /// The recipes by the numbers of the resources, units and phases that they name in the cell.
    // claim: linked set
    pub fn new(alloc: Global, cell: &Cell, recipes: &[Recipe]) -> Result<LinkedSet, AllocError>
        ensures { IfOk result (IsLinkedSet cell.now recipes.now) }
    {
        let phases = CellPhases::new(alloc, cell)?;
        let recipes = link_recipes(alloc, cell, &phases, recipes)?;
        Ok(LinkedSet { recipes, phases })
    }
}
