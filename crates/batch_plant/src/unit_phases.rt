//! A unit as a link keeps it.
ghost use Rattle.std.specs.Prelude.{◌≡◌, ◌<◌, IfOk, length};
ghost use Rattle.batch_cell.specs.LookUps.{phases_of, units_of};
ghost use Rattle.batch_plant.specs.UnitsOfCell.{IsUnitAt};

use batch_cell::Cell;
use batch_text::Name;
use std::alloc::{AllocError, Global};

/// A unit's name, and the phases that it offers, in order of their numbers.
#[derive(Drop)]
pub(crate) struct UnitPhases {
    pub(crate) name: Name,
    pub(crate) phases: Vec<Name>,
}

impl UnitPhases {
    /// The unit of the cell with this number. It is refused only where memory is.
    pub(crate) fn of(alloc: Global, cell: &Cell, unit: u16) -> Result<UnitPhases, AllocError>
        requires { unit < length (units_of cell.now) }
        ensures { IfOk result (IsUnitAt cell.now unit) }
    {
        Ok(UnitPhases {
            name: copied(alloc, cell.name_of(unit))?,
            phases: phases_of(alloc, cell, unit)?,
        })
    }
}

/// The phases that the unit offers, in order of their numbers.
fn phases_of(alloc: Global, cell: &Cell, unit: u16) -> Result<Vec<Name>, AllocError>
    requires { unit < length (units_of cell.now) }
    ensures { IfOk result (λ phases. phases.items ≡ phases_of cell.now unit) }
{
    let mut phases = Vec::new(alloc);
    for number in 0..u16::MAX {
        match cell.phase_name(unit, number) {
            Some(phase) => phases.push(copied(alloc, phase)?)?,
            None => return Ok(phases),
        }
    }
    Ok(phases)
}

/// An equal name, with memory of its own.
fn copied(alloc: Global, name: &Name) -> Result<Name, AllocError>
    ensures { IfOk result (λ copy. copy ≡ name.now) }
{
    name.copy(alloc).map_err(|_| AllocError)
}
