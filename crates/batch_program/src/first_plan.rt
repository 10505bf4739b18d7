//! The plan of the batches of a plant.
ghost use Rattle.std.specs.Prelude.{◌≡◌, IfOk, option_copied, slice_get};
ghost use Rattle.batch_cell.specs.LookUps.{units_of_class};
ghost use Rattle.batch_program.specs.PlantRuns.{first_bindings};
ghost use Rattle.batch_program.specs.PlantWork.{IsFirstPlan, IsPlanOf};

use batch_cell::Cell;
use batch_desk::BatchPlan;
use batch_plant::PlantFault;
use batch_recipe::{Recipe, Role};
use batch_text::Name;
use batch_verify::Cleared;
use std::alloc::{AllocError, Global};

/// The plan of the batches that a plant of the set makes: of its first recipe, in the size of the basis, each role taken by the first
/// unit of the cell that has its class.
///
/// The error is [`PlantFault::Memory`], or [`PlantFault::Refused`] if the set has no recipe, since no create is accepted then.
pub(crate) fn first_plan(alloc: Global, set: &Cleared) -> Result<BatchPlan, PlantFault>
    ensures { IfOk result (IsFirstPlan set.now) }
{
    let Some(recipe) = set.recipes().first() else {
        return Err(PlantFault::Refused);
    };
    plan_of(alloc, set.cell(), recipe).map_err(|_| PlantFault::Memory)
}

/// The plan of a batch of the recipe. It is refused only if memory is.
fn plan_of(alloc: Global, cell: &Cell, recipe: &Recipe) -> Result<BatchPlan, AllocError>
    ensures { IfOk result (IsPlanOf cell.now recipe.now) }
{
    Ok(BatchPlan {
        recipe: copied(alloc, &recipe.acts.procedure.name)?,
        size: recipe.basis,
        roles: first_bindings(alloc, cell, &recipe.roles)?,
    })
}

/// Each role that units of the cell may take, with the name of the first of these.
fn first_bindings(
    alloc: Global,
    cell: &Cell,
    roles: &[Role],
) -> Result<Vec<(Name, Name)>, AllocError>
    ensures { IfOk result (λ bindings. bindings.items ≡ first_bindings cell.now roles.now) }
{
    let mut bindings = Vec::new(alloc);
    for role in roles {
        if let Some(unit) = first_of_class(cell, &role.class) {
            let name = copied(alloc, &role.name)?;
            bindings.push((name, copied(alloc, unit)?))?;
        }
    }
    Ok(bindings)
}

/// The name of the first unit of the class.
fn first_of_class<'a>(cell: &'a Cell, class: &Name) -> Option<&'a Name>
    ensures { option_copied result ≡ slice_get (units_of_class cell.now class.now) 0 }
{
    match cell.candidate(class, 0) {
        None => None,
        Some(unit) => Some(cell.name_of(unit)),
    }
}

/// An equal name, with memory of its own.
fn copied(alloc: Global, name: &Name) -> Result<Name, AllocError>
    ensures { IfOk result (λ copy. copy ≡ name.now) }
{
    name.copy(alloc).map_err(|_| AllocError)
}
