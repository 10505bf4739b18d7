//! The units of a cell, as a link looks them up.
ghost use Rattle.std.specs.Prelude.{◌≡◌, ◌<◌, Some, IfOk, length, option_copied, slice_get};
ghost use Rattle.batch_cell.specs.LookUps.{phases_of, resources_of, units_of};
ghost use Rattle.batch_plant.specs.UnitsOfCell.{IsUnitAt};

use crate::unit_phases::UnitPhases;
use batch_cell::Cell;
use batch_text::Name;
use std::alloc::{AllocError, Global};
use std::marker::Model;
use std::snapshot::Snapshot;

/// The units of a cell and the phases that each offers, copied, so that a link looks them up while the hub has the cell.
///
/// A contract sees it as that cell.
#[derive(Drop)]
pub struct CellUnits {
    cell: Snapshot<Cell>,
    units: Vec<UnitPhases>,
}

impl Model for CellUnits {
    ghost use Rattle.std.specs.Prelude.{◌≡◌, length};
    ghost use Rattle.batch_cell.specs.LookUps.{units_of};
    ghost use Rattle.batch_cell.specs.contracts.cell.Cell as cell_contracts;
    ghost use Rattle.batch_cell.specs.declared.cell.Cell.{Cell};
    ghost use Rattle.batch_plant.specs.UnitsOfCell.{AreCellUnits};

    ghost Value = { Cell };

    ghost coded = { cell_contracts.the_row.coded };

    ghost view = { λ it. it.cell.value };

    ghost invariant = { λ it. (length it.units.items ≡ length (units_of it.cell.value)) × AreCellUnits it.cell.value it.units.items };
}

impl CellUnits {
    /// The units of the cell. It is refused only where memory is.
    // claim: cell of a link
    pub fn of(alloc: Global, cell: &Cell) -> Result<CellUnits, AllocError>
        ensures { IfOk result (λ units. units ≡ cell.now) }
    {
        let mut units = Vec::new(alloc);
        for unit in 0..cell.units() {
            units.push(UnitPhases::of(alloc, cell, unit)?)?;
        }
        Ok(CellUnits {
            cell: Snapshot::of(cell),
            units,
        })
    }

    /// How many units there are.
    pub(crate) fn units(&self) -> u16
        ensures { result ≡ length (units_of self.now) }
    {
        self.units.len() as u16
    }

    /// The name of the unit with this number.
    pub(crate) fn name_of(&self, unit: u16) -> &Name
        requires { unit < length (units_of self.now) }
        ensures { slice_get (resources_of self.now) unit ≡ Some result.now }
    {
        &self.unit(unit).name
    }

    /// The name of the phase with this number among those that the unit offers.
    pub(crate) fn phase_name(&self, unit: u16, number: u16) -> Option<&Name>
        requires { unit < length (units_of self.now) }
        ensures { option_copied result ≡ slice_get (phases_of self.now unit) number }
    {
        self.unit(unit).phases.get(usize::from(number))
    }

    fn unit(&self, unit: u16) -> &UnitPhases
        requires { unit < length (units_of self.now) }
        ensures { IsUnitAt self.now unit result.now }
    {
        &self.units[usize::from(unit)]
    }
}
