//! The conditions on a cell's equipment.
ghost use Rattle.std.specs.Prelude.{◌≢◌, IfErr, OnOk};
ghost use Rattle.batch_reader.specs.CellDocument.{IsSoundEquipment};
ghost use Rattle.batch_reader.specs.Faults.{IsAmong, Tells, is_of_cell};
ghost use Rattle.batch_reader.specs.PartFaults.{IsEquipmentFault};

use crate::fault::{TableFault, TableKind};
use crate::offered::check_offered_phases;
use crate::resources::{check_names, check_units};
use crate::tables::check_count;
use batch_cell::{MAX_MODULES, MAX_SHARED, MAX_UNITS, Module, Shared, Unit};
use std::alloc::Global;

/// Tests that the counts and the names of equipment are as they must be.
pub(crate) fn check_equipment(
    alloc: Global,
    units: &[Unit],
    modules: &[Module],
    shared: &[Shared],
) -> Result<(), TableFault>
    ensures sound { OnOk result (IsSoundEquipment units.now modules.now shared.now) }
    ensures refused { IfErr result (λ fault. fault ≢ TableFault.Memory
        → ¬ (IsSoundEquipment units.now modules.now shared.now)) }
    ensures told { IfErr result (IsAmong is_of_cell) }
    ensures stands { IfErr result (Tells (λ spot. IsEquipmentFault (record { units = units.now; modules = modules.now; shared = shared.now }) spot.kind spot.entry)) }
{
    check_count(units.len(), 1, MAX_UNITS, TableKind::Unit)?;
    check_count(modules.len(), 0, MAX_MODULES, TableKind::Module)?;
    check_count(shared.len(), 0, MAX_SHARED, TableKind::Shared)?;
    check_names(alloc, units, modules, shared)?;
    check_units(units, modules)?;
    check_offered_phases(alloc, units, modules)?;
    Ok(())
}
