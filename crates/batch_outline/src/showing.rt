//! Recipes, one after another.
ghost use Rattle.std.specs.Prelude.{◌≡◌, ◌++◌, IfOk, OnOk, codes, string_bytes};
ghost use Rattle.batch_outline.specs.Showing.{recipe_text, shown_recipes};

use crate::lines::Seat;
use crate::walk::put_act;
use batch_recipe::{LabelTable, Recipe};
use std::alloc::{AllocError, Global};

/// The lines of the recipes: of each its name, and below that its expanded tree, a line for each node in the order of their places.
///
/// An error is want of memory.
// claim: nodes shown
pub fn show_recipes(alloc: Global, recipes: &[Recipe]) -> Result<String, AllocError>
    ensures { IfOk result (λ text. string_bytes text ≡ shown_recipes recipes.now) }
{
    let mut text = String::new(alloc);
    for recipe in recipes {
        put_recipe(alloc, &mut text, recipe)?;
    }
    Ok(text)
}

fn put_recipe(alloc: Global, text: &mut String, recipe: &Recipe) -> Result<(), AllocError>
    ensures { OnOk result (string_bytes text.new ≡ string_bytes text.old ++ recipe_text recipe.now) }
{
    let procedure = &recipe.acts.procedure;
    let name = &procedure.name;
    writeln!(text, "recipe {name}")?;
    let seat = Seat {
        place: "0",
        held: "",
        branch: "",
    };
    let level = Some(LabelTable::UnitProcedures);
    put_act(alloc, text, recipe, level, "procedure", procedure, seat)
}
