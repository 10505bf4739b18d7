//! Warnings on a cell.
ghost use Rattle.std.specs.Prelude.{◌≡◌, IfOk};
ghost use Rattle.std.specs.List.{list_any};
ghost use Rattle.batch_cell.specs.Equipment.{belongs_to};
ghost use Rattle.batch_warnings.specs.Warnings.{units_without_modules};

use crate::adding::push_if;
use batch_cell::Cell;
use batch_text::Name;
use std::alloc::{AllocError, Global};

/// The numbers of the units to which no module belongs, so that they offer no phase.
// claim: kinds of warnings
pub fn units_without_modules(alloc: Global, cell: &Cell) -> Result<Vec<usize>, AllocError>
    ensures { IfOk result (λ numbers. numbers.items ≡ units_without_modules cell.now) }
{
    let mut numbers = Vec::new(alloc);
    for (number, unit) in cell.units.iter().enumerate() {
        numbers = push_if(numbers, !has_module(cell, &unit.name), number)?;
    }
    Ok(numbers)
}

/// Whether a module belongs to the unit of this name.
fn has_module(cell: &Cell, unit: &Name) -> bool
    ensures { result ≡ list_any (belongs_to unit.now) cell.now.modules.items }
{
    cell.modules.iter().any(|module| module.belongs_to(unit))
}
