//! Warnings on a recipe.
ghost use Rattle.std.specs.Prelude.{◌≡◌, ◌<◌, ◌++◌, ◌&&◌, not, IfOk};
ghost use Rattle.batch_recipe.specs.Formula.{is_in_range};
ghost use Rattle.std.specs.List.{list_any};
ghost use Rattle.batch_recipe.specs.WellFormed.{is_among};
ghost use Rattle.batch_warnings.specs.Warnings.{act_compares, act_reports, is_compared, out_of_range, quantities_in, scaled_parameters, takes_role, takes_value, unnamed_in, unreported, unused_roles, warnings_of};

use crate::adding::push_if;
use crate::labels::labels_for;
use crate::mentions::act_compares;
use crate::warning::{QuantityTable, RecipeWarning};
use batch_recipe::{Act, Acts, LabelTable, Quantity, Recipe, UnitChoice, Work};
use batch_text::Name;
use std::alloc::{AllocError, Global};

/// The warnings on a recipe: by kind, in the order of `RecipeWarning`, and of one kind in the order of declaration.
// claim: kinds of warnings
pub fn recipe_warnings(alloc: Global, recipe: &Recipe) -> Result<Vec<RecipeWarning>, AllocError>
    ensures { IfOk result (λ warnings. warnings.items ≡ warnings_of recipe.now) }
{
    let warnings = Vec::new(alloc);
    let warnings = add_unnamed(alloc, warnings, &recipe.acts, LabelTable::UnitProcedures)?;
    let warnings = add_unnamed(alloc, warnings, &recipe.acts, LabelTable::Operations)?;
    let warnings = add_unnamed(alloc, warnings, &recipe.acts, LabelTable::Phases)?;
    let warnings = add_out_of_range(warnings, recipe, QuantityTable::Inputs)?;
    let warnings = add_out_of_range(warnings, recipe, QuantityTable::Parameters)?;
    let warnings = add_unreported(warnings, recipe)?;
    let warnings = add_unused_roles(warnings, recipe)?;
    add_scaled_parameters(warnings, recipe)
}

fn add_unnamed(
    alloc: Global,
    warnings: Vec<RecipeWarning>,
    acts: &Acts,
    table: LabelTable,
) -> Result<Vec<RecipeWarning>, AllocError>
    ensures { IfOk result (λ all. all.items ≡ warnings.items ++ unnamed_in acts.now table) }
{
    let labels = labels_for(alloc, acts, table)?;
    let mut warnings = warnings;
    for (number, act) in acts.table(table).iter().enumerate() {
        let is_told = !labels.contains(&&act.name);
        warnings = push_if(warnings, is_told, RecipeWarning::UnnamedAct(table, number))?;
    }
    Ok(warnings)
}

fn add_out_of_range(
    warnings: Vec<RecipeWarning>,
    recipe: &Recipe,
    table: QuantityTable,
) -> Result<Vec<RecipeWarning>, AllocError>
    ensures { IfOk result (λ all. all.items ≡ warnings.items ++ out_of_range recipe.now table) }
{
    let mut warnings = warnings;
    for (number, quantity) in quantities_in(recipe, table).iter().enumerate() {
        let is_told = is_out_of_range(quantity, recipe.basis);
        warnings = push_if(
            warnings,
            is_told,
            RecipeWarning::ValueOutOfRange(table, number),
        )?;
    }
    Ok(warnings)
}

fn quantities_in(recipe: &Recipe, table: QuantityTable) -> &[Quantity]
    ensures { result.now ≡ quantities_in recipe.now table }
{
    match table {
        QuantityTable::Inputs => &recipe.inputs,
        QuantityTable::Parameters => &recipe.parameters,
    }
}

/// Whether the value of a batch of the size of the basis, which is the value that is declared, is outside its range.
#[tactic(auto, using(crate::proofs::DeclaredValues::declared_value))]
fn is_out_of_range(quantity: &Quantity, basis: u64) -> bool
    requires { 0 < basis }
    ensures { result ≡ not (is_in_range basis basis quantity.now) }
{
    quantity.value < quantity.min || quantity.max < quantity.value
}

fn add_unreported(
    warnings: Vec<RecipeWarning>,
    recipe: &Recipe,
) -> Result<Vec<RecipeWarning>, AllocError>
    ensures { IfOk result (λ all. all.items ≡ warnings.items ++ unreported recipe.now) }
{
    let mut warnings = warnings;
    for (number, output) in recipe.outputs.iter().enumerate() {
        let is_told = lacks_report(&recipe.acts, output);
        warnings = push_if(warnings, is_told, RecipeWarning::UnreportedOutput(number))?;
    }
    Ok(warnings)
}

/// Whether a condition compares the output of this name, and no phase step reports it.
fn lacks_report(acts: &Acts, name: &Name) -> bool
    ensures { result ≡ (is_compared acts.now name.now && not (list_any (act_reports name.now) acts.now.phases.items)) }
{
    is_compared(acts, name) && !is_reported(acts, name)
}

/// Whether a condition of a chart compares the value of this name.
fn is_compared(acts: &Acts, name: &Name) -> bool
    ensures { result ≡ is_compared acts.now name.now }
{
    act_compares(&acts.procedure, name)
        || is_compared_by(&acts.unit_procedures, name)
        || is_compared_by(&acts.operations, name)
}

fn is_compared_by(acts: &[Act], name: &Name) -> bool
    ensures { result ≡ list_any (act_compares name.now) acts.now }
{
    acts.iter().any(|act| act_compares(act, name))
}

/// Whether a phase step reports the output of this name.
fn is_reported(acts: &Acts, name: &Name) -> bool
    ensures { result ≡ list_any (act_reports name.now) acts.now.phases.items }
{
    acts.phases.iter().any(|step| reports(step, name))
}

fn reports(step: &Act, name: &Name) -> bool
    ensures { result ≡ act_reports name.now step.now }
{
    match &step.work {
        Work::Follows(_) => false,
        Work::Runs { reports, .. } => is_among(reports, name),
    }
}

fn add_unused_roles(
    warnings: Vec<RecipeWarning>,
    recipe: &Recipe,
) -> Result<Vec<RecipeWarning>, AllocError>
    ensures { IfOk result (λ all. all.items ≡ warnings.items ++ unused_roles recipe.now) }
{
    let mut warnings = warnings;
    for (number, role) in recipe.roles.iter().enumerate() {
        let is_told = !is_used(&recipe.acts, &role.name);
        warnings = push_if(warnings, is_told, RecipeWarning::UnusedRole(number))?;
    }
    Ok(warnings)
}

/// Whether a unit procedure has the role of this name.
fn is_used(acts: &Acts, name: &Name) -> bool
    ensures { result ≡ list_any (takes_role name.now) acts.now.unit_procedures.items }
{
    acts.unit_procedures.iter().any(|act| takes_role(act, name))
}

fn takes_role(act: &Act, name: &Name) -> bool
    ensures { result ≡ takes_role name.now act.now }
{
    match &act.unit {
        None => false,
        Some(UnitChoice::Unit(_)) => false,
        Some(UnitChoice::Role(role)) => *name == *role,
    }
}

fn add_scaled_parameters(
    warnings: Vec<RecipeWarning>,
    recipe: &Recipe,
) -> Result<Vec<RecipeWarning>, AllocError>
    ensures { IfOk result (λ all. all.items ≡ warnings.items ++ scaled_parameters recipe.now) }
{
    let mut warnings = warnings;
    for (number, parameter) in recipe.parameters.iter().enumerate() {
        let is_told = scales_for_a_phase(&recipe.acts, parameter);
        warnings = push_if(warnings, is_told, RecipeWarning::ScaledParameter(number))?;
    }
    Ok(warnings)
}

/// Whether a phase step is handed the value of the parameter, which grows with the size of the batch.
fn scales_for_a_phase(acts: &Acts, parameter: &Quantity) -> bool
    ensures { result ≡ (not parameter.now.fixed && list_any (takes_value parameter.now.name) acts.now.phases.items) }
{
    !parameter.fixed && is_handed(acts, &parameter.name)
}

/// Whether a phase step is handed the value of this name.
fn is_handed(acts: &Acts, name: &Name) -> bool
    ensures { result ≡ list_any (takes_value name.now) acts.now.phases.items }
{
    acts.phases.iter().any(|step| takes_value(step, name))
}

fn takes_value(step: &Act, name: &Name) -> bool
    ensures { result ≡ takes_value name.now step.now }
{
    match &step.work {
        Work::Follows(_) => false,
        Work::Runs { values, .. } => is_among(values, name),
    }
}

fn is_among(names: &[Name], name: &Name) -> bool
    ensures { result ≡ is_among names.now name.now }
{
    names.iter().any(|other| *name == *other)
}
