//! The phases that units offer.
ghost use Rattle.std.specs.Prelude.{◌≢◌, nat_eq, codes, OnOk, IfErr, IsErrOf};
ghost use Rattle.std.specs.Cmp.Lexicographic.{pointwise};
ghost use Rattle.std.specs.List.{IsDistinct};
ghost use Rattle.batch_cell.specs.Equipment.{OffersPhasesOnce, unit_phases};
ghost use Rattle.batch_reader.specs.Faults.{Tells, TellsIn};
ghost use Rattle.batch_reader.specs.PartFaults.{FailsFirst, IsDuplicateAt, OffersTwice};
ghost use Rattle.batch_reader.specs.declared.fault.EntryFault.{EntryFault};
ghost use Rattle.batch_reader.specs.declared.fault.Spot.{Spot};

use crate::fault::{Spot, TableFault, TableKind};
use crate::names::add_list;
use batch_cell::{Module, Unit};
use batch_text::Name;
use indexmap::IndexSet;
use std::alloc::Global;

/// Tests that no unit offers a phase twice.
pub(crate) fn check_offered_phases(
    alloc: Global,
    units: &[Unit],
    modules: &[Module],
) -> Result<(), TableFault>
    ensures ok { OnOk result (OffersPhasesOnce units.now modules.now) }
    ensures refused { IfErr result (λ fault. fault ≢ TableFault.Memory → ¬ (OffersPhasesOnce units.now modules.now)) }
    ensures told { IfErr result (TellsIn TableKind.Module (λ _. IsDuplicateAt (codes "phases"))) }
    ensures stands { IfErr result (Tells (λ spot _. OffersTwice units.now modules.now spot.entry)) }
{
    for unit in units {
        check_unit_phases(alloc, modules, &unit.name)?;
    }
    Ok(())
}

/// Tests that the unit's modules let it offer no phase twice.
fn check_unit_phases(alloc: Global, modules: &[Module], unit: &Name) -> Result<(), TableFault>
    ensures ok { OnOk result (IsDistinct (pointwise nat_eq) (unit_phases modules.now unit.now)) }
    ensures refused { IfErr result (λ fault. fault ≢ TableFault.Memory
        → ¬ (IsDistinct (pointwise nat_eq) (unit_phases modules.now unit.now))) }
    ensures told { IfErr result (TellsIn TableKind.Module (λ _. IsDuplicateAt (codes "phases"))) }
    ensures first { (spot : Spot) (wrong : EntryFault) → IsErrOf result (TableFault.Entry spot wrong)
        → FailsFirst (λ front. IsDistinct (pointwise nat_eq) (unit_phases front unit.now)) modules.now spot.entry }
{
    let mut phases = IndexSet::new(alloc);
    for (entry, module) in modules.iter().enumerate() {
        if module.belongs_to(unit) {
            let spot = Spot {
                kind: TableKind::Module,
                entry,
            };
            add_list(alloc, &mut phases, &module.phases, "phases", spot)?;
        }
    }
    Ok(())
}
