//! The units that desks name.
ghost use Rattle.std.specs.Prelude.{◌≡◌, OnOk, IfErr};
ghost use Rattle.batch_cell.specs.LookUps.{units_of};
ghost use Rattle.batch_reader.specs.DeskUnits.{HaveUnits, TellsNoUnit, has_known_unit};

use crate::desk::Desk;
use crate::desk_set::Desks;
use crate::fault::{DocFault, EntryFault, Spot, TableKind};
use batch_cell::Cell;

/// Looks up the units that desks name in the cell. The first desk whose unit is none of its units is refused as
/// `Undeclared`, and nothing else is.
// claim: units of desks
pub fn check_units(desks: &Desks, cell: &Cell) -> Result<(), DocFault>
    ensures ok { OnOk result (HaveUnits (units_of cell.now) desks.now.desks.items) }
    ensures refused { IfErr result (TellsNoUnit (units_of cell.now) desks.now.desks.items) }
{
    check_each(desks.desks.as_slice(), cell)
}

fn check_each(desks: &[Desk], cell: &Cell) -> Result<(), DocFault>
    ensures ok { OnOk result (HaveUnits (units_of cell.now) desks.now) }
    ensures refused { IfErr result (TellsNoUnit (units_of cell.now) desks.now) }
{
    for (entry, desk) in desks.iter().enumerate() {
        if !has_unit(desk, cell) {
            let kind = TableKind::Desk;
            return Err(DocFault::Entry(Spot { kind, entry }, EntryFault::Undeclared("unit")));
        }
    }
    Ok(())
}

/// Whether the desk's unit, if it has one, is one of the cell's.
fn has_unit(desk: &Desk, cell: &Cell) -> bool
    ensures { result ≡ has_known_unit (units_of cell.now) desk.now }
{
    match &desk.unit {
        None => true,
        Some(unit) => cell.unit_of(unit).is_some(),
    }
}
