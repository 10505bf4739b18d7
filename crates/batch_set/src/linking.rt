//! Linking.
ghost use Rattle.std.specs.Prelude.{◌≡◌, ◌≤◌, length, map, position, IfOk};
ghost use Rattle.batch_recipe.specs.Conditions.{same_name};
ghost use Rattle.batch_recipe.specs.declared.role.TheConstants.{MAX_ROLES};
ghost use Rattle.batch_set.specs.Linking.{IsLinked, by_role, candidate_numbers, chosen_source, named, need_linked, needs_linked, reserved, run_phase_number, table_items, unit_needs};

use crate::cell_phases::CellPhases;
use crate::linked::{LinkedNeed, LinkedRecipe, Source};
use batch_cell::Cell;
use batch_recipe::{Act, MAX_VALUES, Need, Recipe, Role, UnitChoice, Work, act_named};
use batch_text::Name;
use std::alloc::{AllocError, Global};

/// The resource with this name.
fn named(cell: &Cell, name: &Name) -> Source
    ensures { result ≡ named cell.now name.now }
{
    match cell.resource_of(name) {
        None => Source::Unknown,
        Some(number) => Source::Resource(number),
    }
}

/// The number of the role with this name.
fn role_number(roles: &[Role], name: &Name) -> Option<usize>
    ensures { result ≡ position (λ role. same_name name.now role.name) roles.now }
{
    roles.iter().position(|role| *name == role.name)
}

/// The unit that takes the role with this name.
fn by_role(roles: &[Role], name: &Name) -> Source
    requires { length roles.now ≤ MAX_ROLES }
    ensures { result ≡ by_role roles.now name.now }
{
    match role_number(roles, name) {
        None => Source::Unknown,
        Some(number) => Source::Role(number as u8),
    }
}

/// The unit that is chosen.
fn chosen(cell: &Cell, recipe: &Recipe, choice: &UnitChoice) -> Source
    ensures { result ≡ chosen_source cell.now recipe.now choice.now }
{
    match choice {
        UnitChoice::Unit(name) => named(cell, name),
        UnitChoice::Role(name) => by_role(&recipe.roles, name),
    }
}

/// The unit of the unit procedure with this name.
fn reserved(cell: &Cell, recipe: &Recipe, name: &Name) -> Source
    ensures { result ≡ reserved cell.now recipe.now name.now }
{
    match act_named(&recipe.acts.unit_procedures, name) {
        None => Source::Unknown,
        Some(act) => match &act.unit {
            None => Source::Unknown,
            Some(choice) => chosen(cell, recipe, choice),
        },
    }
}

/// The need of the act's own unit, if it has one.
fn link_unit(
    alloc: Global,
    cell: &Cell,
    recipe: &Recipe,
    act: &Act,
) -> Result<Vec<LinkedNeed>, AllocError>
    ensures { IfOk result (λ needs. needs.items ≡ unit_needs cell.now recipe.now act.now.unit) }
{
    let mut needs = Vec::new(alloc);
    if let Some(choice) = &act.unit {
        let source = chosen(cell, recipe, choice);
        needs.push(LinkedNeed { source, units: 1 })?;
    }
    Ok(needs)
}

/// A need.
fn link_need(cell: &Cell, need: &Need) -> LinkedNeed
    ensures { result ≡ need_linked cell.now need.now }
{
    LinkedNeed {
        source: named(cell, &need.resource),
        units: need.units,
    }
}

/// All needs of an act, in the order in which it asks.
fn link_act(
    alloc: Global,
    cell: &Cell,
    recipe: &Recipe,
    act: &Act,
) -> Result<Vec<LinkedNeed>, AllocError>
    ensures { IfOk result (λ needs. needs.items ≡ needs_linked cell.now recipe.now act.now) }
{
    let mut needs = link_unit(alloc, cell, recipe, act)?;
    needs.reserve(act.needs.len())?;
    for name in &act.reserves {
        let source = reserved(cell, recipe, name);
        needs.push(LinkedNeed { source, units: 1 })?;
    }
    for need in &act.needs {
        needs.push(link_need(cell, need))?;
    }
    Ok(needs)
}

/// The needs of a table's acts.
fn link_table(
    alloc: Global,
    cell: &Cell,
    recipe: &Recipe,
    table: &[Act],
) -> Result<Vec<Vec<LinkedNeed>>, AllocError>
    ensures { IfOk result (λ needs. table_items needs.items ≡ map (needs_linked cell.now recipe.now) table.now) }
{
    let mut needs = Vec::with_capacity(alloc, table.len())?;
    for act in table {
        let own = link_act(alloc, cell, recipe, act)?;
        needs.push(own)?;
    }
    Ok(needs)
}

/// The units that may take the role, by number.
fn link_role(alloc: Global, cell: &Cell, role: &Role) -> Result<Vec<u16>, AllocError>
    ensures { IfOk result (λ units. units.items ≡ candidate_numbers cell.now role.now) }
{
    let mut units = Vec::new(alloc);
    for number in 0..cell.units() {
        if cell.units[usize::from(number)].is_of_class(&role.class) {
            units.push(number)?;
        }
    }
    Ok(units)
}

/// The units that may take each role.
fn link_roles(alloc: Global, cell: &Cell, roles: &[Role]) -> Result<Vec<Vec<u16>>, AllocError>
    ensures { IfOk result (λ units. table_items units.items ≡ map (candidate_numbers cell.now) roles.now) }
{
    let mut units = Vec::with_capacity(alloc, roles.len())?;
    for role in roles {
        let own = link_role(alloc, cell, role)?;
        units.push(own)?;
    }
    Ok(units)
}

/// The phases that the phase steps of a table run.
fn link_runs(
    alloc: Global,
    phases: &CellPhases,
    table: &[Act],
) -> Result<Vec<Option<usize>>, AllocError>
    ensures { IfOk result (λ runs. runs.items ≡ map (run_phase_number phases.now.names.keys) table.now) }
{
    let mut runs = Vec::with_capacity(alloc, table.len())?;
    for act in table {
        runs.push(phases.run_by(act))?;
    }
    Ok(runs)
}

/// The position at which a batch of the recipe has the value with this name. A name that isn't there gets 0.
fn value_position(recipe: &Recipe, name: &Name) -> usize {
    let quantities = recipe.inputs.iter().chain(&recipe.parameters);
    quantities
        .map(|quantity| &quantity.name)
        .chain(&recipe.outputs)
        .position(|value| *value == *name)
        .unwrap_or(0)
}

/// The positions at which a batch of the recipe has the values that the phase of each phase step is handed.
fn link_handed(alloc: Global, recipe: &Recipe) -> Result<Vec<[usize; MAX_VALUES]>, AllocError> {
    let mut handed = Vec::with_capacity(alloc, recipe.acts.phases.len())?;
    for act in &recipe.acts.phases {
        let mut positions = [0; MAX_VALUES];
        if let Work::Runs { values, .. } = &act.work {
            for (position, name) in positions.iter_mut().zip(values) {
                *position = value_position(recipe, name);
            }
        }
        handed.push(positions)?;
    }
    Ok(handed)
}

/// The recipe by the numbers of the resources, units and phases that it names in the cell. `phases` are those of the cell.
// claim: linked recipe
pub fn link(
    alloc: Global,
    cell: &Cell,
    phases: &CellPhases,
    recipe: &Recipe,
) -> Result<LinkedRecipe, AllocError>
    ensures { IfOk result (IsLinked cell.now phases.now recipe.now) }
{
    let acts = &recipe.acts;
    Ok(LinkedRecipe {
        procedure: link_act(alloc, cell, recipe, &acts.procedure)?,
        unit_procedures: link_table(alloc, cell, recipe, &acts.unit_procedures)?,
        operations: link_table(alloc, cell, recipe, &acts.operations)?,
        phases: link_table(alloc, cell, recipe, &acts.phases)?,
        candidates: link_roles(alloc, cell, &recipe.roles)?,
        runs: link_runs(alloc, phases, &acts.phases)?,
        handed: link_handed(alloc, recipe)?,
    })
}
