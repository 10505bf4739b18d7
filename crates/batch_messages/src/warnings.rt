//! The meaning of warnings.
ghost use Rattle.std.specs.Prelude.{◌≡◌, IfOk, string_bytes};
ghost use Rattle.batch_recipe.specs.Procedure.{table_at};
ghost use Rattle.batch_warnings.specs.Warnings.{quantities_in};
ghost use Rattle.batch_messages.specs.WarningWords.{kind_said, module_said, output_said, range_said, recipe_warning, role_said, said_at, scaled_said, unit_warning, unnamed_said, value_said, warning_said, warning_words};

use crate::sentence::Sentence;
use batch_cell::Cell;
use batch_recipe::{Acts, LabelTable, Quantity, Recipe};
use batch_warnings::{QuantityTable, RecipeWarning};
use std::alloc::{AllocError, Global};

/// The warning that no module belongs to the unit with this number. The path is that of the cell's document.
// claim: warnings in words
pub fn unit_warning(
    alloc: Global,
    path: &str,
    cell: &Cell,
    unit: usize,
) -> Result<Sentence, AllocError>
    ensures { IfOk result (λ sentence. string_bytes sentence.text ≡ unit_warning path.now cell.now unit) }
{
    let said = module_said(alloc, cell, unit)?;
    warning_on(alloc, path, &said)
}

/// The warning on the recipe, in words. The path is that of the recipe's document.
// claim: warnings in words
pub fn recipe_warning(
    alloc: Global,
    path: &str,
    recipe: &Recipe,
    warning: RecipeWarning,
) -> Result<Sentence, AllocError>
    ensures { IfOk result (λ sentence. string_bytes sentence.text ≡ recipe_warning path.now recipe.now warning) }
{
    let said = warning_said(alloc, recipe, warning)?;
    warning_on(alloc, path, &said)
}

fn warning_on(alloc: Global, path: &str, said: &str) -> Result<Sentence, AllocError>
    ensures { IfOk result (λ sentence. string_bytes sentence.text ≡ warning_words path.now said.now) }
{
    let told = format!(in alloc; "warning: {path}: {said}")?;
    Sentence::of(alloc, told.as_str())
}

fn warning_said(
    alloc: Global,
    recipe: &Recipe,
    warning: RecipeWarning,
) -> Result<String, AllocError>
    ensures { IfOk result (λ said. string_bytes said ≡ warning_said recipe.now warning) }
{
    match warning {
        RecipeWarning::UnnamedAct(table, act) => unnamed_said(alloc, &recipe.acts, table, act),
        RecipeWarning::ValueOutOfRange(table, quantity) => {
            range_said(alloc, recipe, table, quantity)
        }
        RecipeWarning::UnreportedOutput(output) => output_said(alloc, recipe, output),
        RecipeWarning::UnusedRole(role) => role_said(alloc, recipe, role),
        RecipeWarning::ScaledParameter(parameter) => scaled_said(alloc, recipe, parameter),
    }
}

#[tactic(auto, using(crate::proofs::WordsByNumber::said_found, crate::proofs::WordsByNumber::said_past))]
fn module_said(alloc: Global, cell: &Cell, unit: usize) -> Result<String, AllocError>
    ensures { IfOk result (λ said. string_bytes said ≡ said_at module_said cell.now.units.items unit) }
{
    match cell.units.get(unit) {
        Some(unit) => format!(in alloc;
            "no module belongs to the unit {}, so it offers no phase",
            unit.name
        ),
        None => Ok(String::new(alloc)),
    }
}

#[tactic(auto, using(crate::proofs::WordsByNumber::said_found, crate::proofs::WordsByNumber::said_past))]
fn unnamed_said(
    alloc: Global,
    acts: &Acts,
    table: LabelTable,
    act: usize,
) -> Result<String, AllocError>
    ensures { IfOk result (λ said. string_bytes said ≡ said_at (unnamed_said table) (table_at acts.now table) act) }
{
    let kind = kind_said(table);
    match acts.table(table).get(act) {
        Some(act) => format!(in alloc; "no chart names the {kind} {}, so it never runs", act.name),
        None => Ok(String::new(alloc)),
    }
}

fn kind_said(table: LabelTable) -> &'static str
    ensures { result.now ≡ kind_said table }
{
    match table {
        LabelTable::UnitProcedures => "unit procedure",
        LabelTable::Operations => "operation",
        LabelTable::Phases => "phase",
    }
}

#[tactic(auto, using(crate::proofs::WordsByNumber::said_found, crate::proofs::WordsByNumber::said_past))]
fn range_said(
    alloc: Global,
    recipe: &Recipe,
    table: QuantityTable,
    quantity: usize,
) -> Result<String, AllocError>
    ensures { IfOk result (λ said. string_bytes said ≡ said_at (range_said table recipe.now.basis) (quantities_in recipe.now table) quantity) }
{
    match quantities_in(recipe, table).get(quantity) {
        Some(quantity) => outside_said(alloc, table, recipe.basis, quantity),
        None => Ok(String::new(alloc)),
    }
}

fn quantities_in(recipe: &Recipe, table: QuantityTable) -> &[Quantity]
    ensures { result.now ≡ quantities_in recipe.now table }
{
    match table {
        QuantityTable::Inputs => &recipe.inputs,
        QuantityTable::Parameters => &recipe.parameters,
    }
}

fn outside_said(
    alloc: Global,
    table: QuantityTable,
    basis: u64,
    quantity: &Quantity,
) -> Result<String, AllocError>
    ensures { IfOk result (λ said. string_bytes said ≡ range_said table basis quantity.now) }
{
    let front = value_said(table);
    format!(in alloc;
        "{front}{}, {}, lies outside its range, {} to {}, so no batch of the basis, {basis}, can be created",
        quantity.name, quantity.value, quantity.min, quantity.max
    )
}

fn value_said(table: QuantityTable) -> &'static str
    ensures { result.now ≡ value_said table }
{
    match table {
        QuantityTable::Inputs => "the value of the input ",
        QuantityTable::Parameters => "the value of the parameter ",
    }
}

#[tactic(auto, using(crate::proofs::WordsByNumber::said_found, crate::proofs::WordsByNumber::said_past))]
fn output_said(alloc: Global, recipe: &Recipe, output: usize) -> Result<String, AllocError>
    ensures { IfOk result (λ said. string_bytes said ≡ said_at output_said recipe.now.outputs.items output) }
{
    match recipe.outputs.get(output) {
        Some(name) => format!(in alloc;
            "a condition names the output {name}, and no phase `reports` it, so a `done` that leaves it out is taken, and it counts as 0"
        ),
        None => Ok(String::new(alloc)),
    }
}

#[tactic(auto, using(crate::proofs::WordsByNumber::said_found, crate::proofs::WordsByNumber::said_past))]
fn role_said(alloc: Global, recipe: &Recipe, role: usize) -> Result<String, AllocError>
    ensures { IfOk result (λ said. string_bytes said ≡ said_at role_said recipe.now.roles.items role) }
{
    match recipe.roles.get(role) {
        Some(role) => format!(in alloc; "no unit procedure has the role {}", role.name),
        None => Ok(String::new(alloc)),
    }
}

#[tactic(auto, using(crate::proofs::WordsByNumber::said_found, crate::proofs::WordsByNumber::said_past))]
fn scaled_said(alloc: Global, recipe: &Recipe, parameter: usize) -> Result<String, AllocError>
    ensures { IfOk result (λ said. string_bytes said ≡ said_at scaled_said recipe.now.parameters.items parameter) }
{
    match recipe.parameters.get(parameter) {
        Some(parameter) => format!(in alloc;
            "a phase is handed the parameter {}, which scales with the batch's size; a temperature or a time wants `fixed = true`",
            parameter.name
        ),
        None => Ok(String::new(alloc)),
    }
}
