//! The names that a cell declares.
ghost use Rattle.std.specs.Prelude.{◌≡◌, ◌≢◌, [], ◌++◌, map, filter, nat_eq, codes, OnOk, IfOk, IfErr, IsErrOf};
ghost use Rattle.std.specs.Cmp.Lexicographic.{pointwise};
ghost use Rattle.std.specs.List.{IsDistinct, list_any};
ghost use Rattle.batch_cell.specs.Equipment.{IsDeclaredOnce, HasDeclaredUnits, is_free, has_declared_unit, resource_names, unit_names};
ghost use Rattle.batch_reader.specs.Faults.{IsAmong, Tells, TellsIn, is_of_cell};
ghost use Rattle.batch_reader.specs.PartFaults.{FailsFirst, HasNameTwice, IsDuplicateAt, IsUndeclaredAt};
ghost use Rattle.batch_reader.specs.declared.fault.EntryFault.{EntryFault};
ghost use Rattle.batch_reader.specs.declared.fault.Spot.{Spot};

use crate::fault::{EntryFault, Spot, TableFault, TableKind};
use crate::names::{Named, add_name, add_names};
use batch_cell::{Module, Shared, Unit};
use batch_text::Name;
use indexmap::IndexSet;
use std::alloc::Global;

impl Named for Unit {
    ghost name_of = { λ unit. unit.name };

    fn name(&self) -> &Name {
        &self.name
    }
}

impl Named for Module {
    ghost name_of = { λ m. m.name };

    fn name(&self) -> &Name {
        &self.name
    }
}

impl Named for Shared {
    ghost name_of = { λ shared. shared.name };

    fn name(&self) -> &Name {
        &self.name
    }
}

/// Tests that all names differ.
pub(crate) fn check_names(
    alloc: Global,
    units: &[Unit],
    modules: &[Module],
    shared: &[Shared],
) -> Result<(), TableFault>
    ensures ok { OnOk result (IsDeclaredOnce units.now modules.now shared.now) }
    ensures refused { IfErr result (λ fault. fault ≢ TableFault.Memory → ¬ (IsDeclaredOnce units.now modules.now shared.now)) }
    ensures told { IfErr result (λ fault. IsAmong is_of_cell fault × Tells (λ _. IsDuplicateAt (codes "name")) fault) }
    ensures stands { IfErr result (Tells (λ spot _. HasNameTwice (record { units = units.now; modules = modules.now; shared = shared.now }) spot.kind spot.entry)) }
{
    let mut names = IndexSet::new(alloc);
    add_declared(alloc, &mut names, units, modules, shared)
}

/// Adds the names of all tables to none so far.
fn add_declared(
    alloc: Global,
    names: &mut IndexSet<Name>,
    units: &[Unit],
    modules: &[Module],
    shared: &[Shared],
) -> Result<(), TableFault>
    requires none { names.old.keys ≡ [] }
    requires distinct { IsDistinct (pointwise nat_eq) names.old.keys }
    ensures ok { OnOk result (IsDeclaredOnce units.now modules.now shared.now) }
    ensures refused { IfErr result (λ fault. fault ≢ TableFault.Memory → ¬ (IsDeclaredOnce units.now modules.now shared.now)) }
    ensures told { IfErr result (λ fault. IsAmong is_of_cell fault × Tells (λ _. IsDuplicateAt (codes "name")) fault) }
    ensures stands { IfErr result (Tells (λ spot _. HasNameTwice (record { units = units.now; modules = modules.now; shared = shared.now }) spot.kind spot.entry)) }
{
    add_names(alloc, names, units, TableKind::Unit)?;
    add_names(alloc, names, modules, TableKind::Module)?;
    add_names(alloc, names, shared, TableKind::Shared)?;
    Ok(())
}

/// Tests that each module is free or belongs to one of the units.
pub(crate) fn check_units(units: &[Unit], modules: &[Module]) -> Result<(), TableFault>
    ensures ok { OnOk result (HasDeclaredUnits units.now modules.now) }
    ensures refused { IfErr result (λ fault. ¬ (HasDeclaredUnits units.now modules.now)) }
    ensures told { IfErr result (λ fault. (fault ≢ TableFault.Memory) × TellsIn TableKind.Module (λ _. IsUndeclaredAt (codes "unit")) fault) }
    ensures first { (spot : Spot) (wrong : EntryFault) → IsErrOf result (TableFault.Entry spot wrong)
        → FailsFirst (HasDeclaredUnits units.now) modules.now spot.entry }
{
    for (entry, module) in modules.iter().enumerate() {
        if !has_declared_unit(units, module) {
            let spot = Spot {
                kind: TableKind::Module,
                entry,
            };
            return Err(TableFault::Entry(spot, EntryFault::Undeclared("unit")));
        }
    }
    Ok(())
}

fn has_declared_unit(units: &[Unit], module: &Module) -> bool
    ensures { result ≡ has_declared_unit (unit_names units.now) «module».now }
{
    match &module.unit {
        None => true,
        Some(own) => is_unit(own, units),
    }
}

fn is_unit(name: &Name, units: &[Unit]) -> bool
    ensures { result ≡ list_any (pointwise nat_eq name.now) (unit_names units.now) }
{
    units.iter().any(|unit| *name == unit.name)
}
