//! The tables of a cell document.
ghost use Rattle.std.specs.Prelude.{◌≡◌, ◌≢◌, ℕ, None, codes, IfOk, IfErr, IsSome};
ghost use Rattle.toml.specs.Data.{get_member};
ghost use Rattle.toml.specs.View.{table_view};
ghost use Rattle.batch_cell.specs.declared.module.Module.{Module};
ghost use Rattle.batch_reader.specs.CellDocument.{IsUnitTable, IsModuleTable, IsSharedTable};
ghost use Rattle.batch_cell.specs.declared.shared.TheConstants.{MAX_CAPACITY};
ghost use Rattle.batch_reader.specs.Entries.{HasNumber};
ghost use Rattle.batch_reader.specs.Faults.{TellsAt};
ghost use Rattle.batch_reader.specs.Keys.{needed};
ghost use Rattle.batch_reader.specs.TableFaults.{IsKeyFault, IsTableFault};
ghost use Rattle.batch_reader.specs.declared.fault.TableKind.{TableKind};
ghost use Rattle.batch_reader.specs.declared.keys.ValueForm.{ValueForm};

use crate::entries::{member, name_at, names_at, number_at, optional_name_at};
use crate::fault::{EntryFault, Spot, TableFault, TableKind};
use crate::keys::has_known_keys;
use crate::tables::FromTable;
use batch_cell::{MAX_CAPACITY, MAX_PHASES, Module, Shared, Unit};
use std::alloc::Global;
use toml::Table;

impl FromTable for Unit {
    ghost stands_for = { λ _. IsUnitTable };

    ghost is_fault = { λ _. IsTableFault TableKind.Unit };

    fn from_table(alloc: Global, table: &Table, spot: Spot) -> Result<Unit, TableFault> {
        if !has_known_keys(table, TableKind::Unit) {
            return Err(TableFault::Entry(spot, EntryFault::UnknownKey));
        }
        let name = name_at(alloc, table, "name", spot)?;
        let class = optional_name_at(alloc, table, "class", spot)?;
        Ok(Unit { name, class })
    }
}

impl FromTable for Module {
    ghost stands_for = { λ _. IsModuleTable };

    ghost is_fault = { λ _. IsTableFault TableKind.Module };

    fn from_table(alloc: Global, table: &Table, spot: Spot) -> Result<Module, TableFault> {
        match member(table, "unit") {
            Some(_) => unit_module(alloc, table, spot),
            None => free_module(alloc, table, spot),
        }
    }
}

fn free_module(alloc: Global, table: &Table, spot: Spot) -> Result<Module, TableFault>
    requires { get_member (codes "unit") (table_view table.now) ≡ None }
    ensures ok { IfOk result (IsModuleTable (table_view table.now)) }
    ensures refused { IfErr result (λ fault. fault ≢ TableFault.Memory
        → (m : Module) → ¬ (IsModuleTable (table_view table.now) m)) }
    ensures told { IfErr result (TellsAt spot (IsTableFault TableKind.Module (table_view table.now))) }
{
    if !has_known_keys(table, TableKind::Module) {
        return Err(TableFault::Entry(spot, EntryFault::UnknownKey));
    }
    let name = name_at(alloc, table, "name", spot)?;
    Ok(Module {
        name,
        unit: None,
        phases: Vec::new(alloc),
    })
}

fn unit_module(alloc: Global, table: &Table, spot: Spot) -> Result<Module, TableFault>
    requires { IsSome (get_member (codes "unit") (table_view table.now)) }
    ensures ok { IfOk result (IsModuleTable (table_view table.now)) }
    ensures refused { IfErr result (λ fault. fault ≢ TableFault.Memory
        → (m : Module) → ¬ (IsModuleTable (table_view table.now) m)) }
    ensures told { IfErr result (TellsAt spot (IsTableFault TableKind.Module (table_view table.now))) }
{
    if !has_known_keys(table, TableKind::Module) {
        return Err(TableFault::Entry(spot, EntryFault::UnknownKey));
    }
    let name = name_at(alloc, table, "name", spot)?;
    let unit = name_at(alloc, table, "unit", spot)?;
    let phases = names_at(alloc, table, "phases", spot)?;
    if phases.is_empty() || phases.len() > MAX_PHASES {
        return Err(TableFault::Entry(spot, EntryFault::OutOfLimit(Some("phases"))));
    }
    Ok(Module {
        name,
        unit: Some(unit),
        phases,
    })
}

impl FromTable for Shared {
    ghost stands_for = { λ _. IsSharedTable };

    ghost is_fault = { λ _. IsTableFault TableKind.Shared };

    fn from_table(alloc: Global, table: &Table, spot: Spot) -> Result<Shared, TableFault> {
        if !has_known_keys(table, TableKind::Shared) {
            return Err(TableFault::Entry(spot, EntryFault::UnknownKey));
        }
        let name = name_at(alloc, table, "name", spot)?;
        let capacity = capacity_at(table, spot)?;
        Ok(Shared { name, capacity })
    }
}

/// The capacity in a shared resource's table.
fn capacity_at(table: &Table, spot: Spot) -> Result<u32, TableFault>
    ensures ok { IfOk result (HasNumber (codes "capacity") (table_view table.now) 1 MAX_CAPACITY) }
    ensures refused { IfErr result (λ fault. (number : ℕ) → ¬ (HasNumber (codes "capacity") (table_view table.now) 1 MAX_CAPACITY number)) }
    ensures no_memory { IfErr result (λ fault. fault ≢ TableFault.Memory) }
    ensures told { IfErr result (TellsAt spot (IsKeyFault (needed (codes "capacity") (ValueForm.Number 1 MAX_CAPACITY)) (table_view table.now))) }
{
    let capacity = number_at(table, "capacity", 1, u64::from(MAX_CAPACITY), spot)?;
    Ok(capacity as u32)
}
