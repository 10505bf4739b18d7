//! The names of resources, recipes and acts, by number.
ghost use Rattle.std.specs.Prelude.{◌≡◌};
ghost use Rattle.batch_messages.specs.CircleSentence.{act_name, name_of_act_at, recipe_name, resource_name};

use batch_cell::Cell;
use batch_recipe::{Recipe, act_at};
use std::alloc::{AllocError, Global};

pub(crate) fn resource_name(cell: &Cell, resource: u16) -> &str
    ensures { result.now ≡ resource_name cell.now resource }
{
    if resource < cell.resources() {
        cell.name_of(resource).text()
    } else {
        ""
    }
}

pub(crate) fn recipe_name(recipes: &[Recipe], recipe: u16) -> &str
    ensures { result.now ≡ recipe_name recipes.now recipe }
{
    match recipes.get(usize::from(recipe)) {
        Some(recipe) => recipe.acts.procedure.name.text(),
        None => "",
    }
}

/// The name of the act at the node of the recipe with this number, both counted from 0. It is empty if the number is no recipe's, or
/// the node no act's.
// claim: act's name
pub fn act_name(recipes: &[Recipe], recipe: u16, node: u16) -> &str
    ensures { result.now ≡ act_name recipes.now recipe node }
{
    match recipes.get(usize::from(recipe)) {
        Some(recipe) => name_at(recipe, node),
        None => "",
    }
}

fn name_at(recipe: &Recipe, node: u16) -> &str
    ensures { result.now ≡ name_of_act_at recipe.now node }
{
    match act_at(recipe, node) {
        Some(act) => act.name.text(),
        None => "",
    }
}

/// The names of the cell's resources.
pub(crate) fn resource_names(alloc: Global, cell: &Cell) -> Result<Vec<&str>, AllocError> {
    (0..cell.resources())
        .map(|resource| resource_name(cell, resource))
        .collect(alloc)
}
