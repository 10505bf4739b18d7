//! The names that a cell and recipes have for the numbers of a verdict.
ghost use Rattle.std.specs.Prelude.{◌≡◌, ◌++◌, IfOk, codes, string_bytes};
ghost use Rattle.batch_verdicts.specs.VerdictTexts.{node_text, place_text_at, resource_name, rule_code};

use crate::texts::places::place_text;
use batch_cell::Cell;
use batch_recipe::Recipe;
use batch_verify::Rule;
use std::alloc::{AllocError, Global};

/// The name of the recipe and the place of its node, both by number.
pub(crate) fn node_text(
    alloc: Global,
    recipes: &[Recipe],
    recipe: u16,
    node: u16,
) -> Result<String, AllocError>
    ensures { IfOk result (λ text. string_bytes text ≡ node_text recipes.now recipe node) }
{
    match recipes.get(usize::from(recipe)) {
        Some(recipe) => node_of_text(alloc, recipe, node),
        None => Ok(String::new(alloc)),
    }
}

/// The name of the recipe and the place of its node.
fn node_of_text(alloc: Global, recipe: &Recipe, node: u16) -> Result<String, AllocError>
    ensures { IfOk result (λ text. string_bytes text ≡ recipe.now.acts.procedure.name ++ (codes " " ++ place_text_at recipe.now node)) }
{
    let name = &recipe.acts.procedure.name;
    let place = place_text(alloc, recipe, node)?;
    format!(in alloc; "{name} {place}")
}

/// The name of the resource with this number.
pub(crate) fn resource_name(cell: &Cell, resource: u16) -> &str
    ensures { result.now ≡ resource_name cell.now resource }
{
    if resource < cell.resources() {
        cell.name_of(resource).text()
    } else {
        ""
    }
}

/// The code by which a rule is refused.
pub(crate) fn rule_code(rule: Rule) -> &'static str
    ensures { result.now ≡ rule_code rule }
{
    match rule {
        Rule::UnknownResource => "V3",
        Rule::RankNotRising => "V4",
        Rule::PhaseNotOffered => "V5",
        Rule::SamePhaseInParallel => "V6",
        Rule::LoopWithoutPhase => "V7",
        Rule::ShareAboveCapacity => "V9",
        Rule::ReserveDoesNotFollow => "V11",
    }
}
