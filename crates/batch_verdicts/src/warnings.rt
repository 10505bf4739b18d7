//! Warnings on documents that are accepted.
ghost use Rattle.std.specs.Prelude.{ℕ, ◌≡◌, ◌++◌, [], IfOk, List, string_bytes};
ghost use Rattle.batch_verdicts.specs.Gathering.{AddsLines, HoldsLines};
ghost use Rattle.batch_verdicts.specs.Saying.{IsWarned};
ghost use Rattle.batch_verdicts.specs.WarningTexts.{lines_on, recipe_warnings_text, units_text};
ghost use Rattle.batch_warnings.specs.Warnings.{units_without_modules};

use crate::saying::write_and_flush;
use batch_cell::Cell;
use batch_messages::{recipe_warning, unit_warning};
use batch_recipe::Recipe;
use batch_warnings::{RecipeWarning, recipe_warnings, units_without_modules};
use std::alloc::{AllocError, Global};
use std::io::Write;

/// The lines of warnings on recipes, as far as they are wanted and there is memory for them.
#[derive(Drop)]
pub(crate) struct WarningLines {
    text: Option<String>,
}

impl WarningLines {
    /// No line yet.
    pub(crate) fn new(alloc: Global, are_wanted: bool) -> WarningLines
        ensures { HoldsLines result [] }
    {
        let text = if are_wanted {
            Some(String::new(alloc))
        } else {
            None
        };
        WarningLines { text }
    }

    /// Appends the lines on the recipe of the document at the path. If there is no memory for them, none are left.
    pub(crate) fn add(&mut self, alloc: Global, path: &str, recipe: &Recipe)
        ensures { AddsLines self.old self.new (lines_on path.now recipe.now) }
    {
        if let Some(text) = self.text.take() {
            self.text = with_lines(alloc, text, path, recipe).ok();
        }
    }
}

/// The text with the lines on the recipe behind it.
fn with_lines(
    alloc: Global,
    text: String,
    path: &str,
    recipe: &Recipe,
) -> Result<String, AllocError>
    ensures { IfOk result (λ lines. string_bytes lines ≡ string_bytes text ++ lines_on path.now recipe.now) }
{
    let mut text = text;
    let lines = lines_on(alloc, path, recipe)?;
    text.push_str(&lines)?;
    Ok(text)
}

/// Warns of the parts of the cell and of the recipes that can hardly be meant so, a line each, unless quiet is asked for. The path
/// is that of the cell's document. If there is no memory for the lines, or they can't be written, they are left out.
// claim: warnings
pub(crate) fn warn<E: Write>(
    alloc: Global,
    quiet: bool,
    path: &str,
    cell: &Cell,
    lines: &WarningLines,
    errors: &mut E,
)
    ensures { (recipes : List ℕ) → HoldsLines lines.now recipes → IsWarned quiet (E.contents errors.old) (E.contents errors.new)
        (units_text path.now cell.now (units_without_modules cell.now) ++ recipes) }
{
    if quiet {
        return;
    }
    if let Some(recipes) = &lines.text {
        if let Ok(text) = warnings_text(alloc, path, cell, recipes) {
            write_and_flush(errors, &text);
        }
    }
}

fn warnings_text(
    alloc: Global,
    path: &str,
    cell: &Cell,
    recipes: &str,
) -> Result<String, AllocError>
    ensures { IfOk result (λ text. string_bytes text ≡ units_text path.now cell.now (units_without_modules cell.now) ++ recipes.now) }
{
    let units = units_without_modules(alloc, cell)?;
    let of_cell = units_text(alloc, path, cell, &units)?;
    format!(in alloc; "{of_cell}{recipes}")
}

fn units_text(alloc: Global, path: &str, cell: &Cell, units: &[usize]) -> Result<String, AllocError>
    ensures { IfOk result (λ text. string_bytes text ≡ units_text path.now cell.now units.now) }
{
    let mut text = String::new(alloc);
    for unit in units {
        let sentence = unit_warning(alloc, path, cell, *unit)?;
        writeln!(text, "batchd: {}", sentence.text)?;
    }
    Ok(text)
}

fn lines_on(alloc: Global, path: &str, recipe: &Recipe) -> Result<String, AllocError>
    ensures { IfOk result (λ text. string_bytes text ≡ lines_on path.now recipe.now) }
{
    let warnings = recipe_warnings(alloc, recipe)?;
    recipe_text(alloc, path, recipe, &warnings)
}

fn recipe_text(
    alloc: Global,
    path: &str,
    recipe: &Recipe,
    warnings: &[RecipeWarning],
) -> Result<String, AllocError>
    ensures { IfOk result (λ text. string_bytes text ≡ recipe_warnings_text path.now recipe.now warnings.now) }
{
    let mut text = String::new(alloc);
    for warning in warnings {
        let sentence = recipe_warning(alloc, path, recipe, *warning)?;
        writeln!(text, "batchd: {}", sentence.text)?;
    }
    Ok(text)
}
