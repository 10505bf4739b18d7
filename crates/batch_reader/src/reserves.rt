//! The unit procedures that acts reserve.
ghost use Rattle.std.specs.Prelude.{◌≡◌, ◌≢◌, ◌&&◌, true, codes, IfErr, OnOk};
ghost use Rattle.std.specs.List.{list_all};
ghost use Rattle.batch_recipe.specs.WellFormed.{act_names, are_reserves, is_among, reserve_well, reserves_among, reserves_none, reserves_once};
ghost use Rattle.batch_reader.specs.Faults.{IsAmong, Tells, TellsIn, is_of_recipe};
ghost use Rattle.batch_reader.specs.PartFaults.{FailsFirst, HasReserveFault, IsDuplicateAt, IsReserveFaultOf, IsUndeclaredAt};
ghost use Rattle.batch_reader.specs.declared.fault.EntryFault.{EntryFault};
ghost use Rattle.batch_reader.specs.declared.fault.Spot.{Spot};
ghost use Rattle.batch_reader.specs.declared.fault.TableFault.{TableFault};
ghost use Rattle.batch_reader.specs.declared.fault.TableKind.{TableKind};

use crate::fault::{EntryFault, Spot, TableFault, TableKind};
use crate::reports::are_distinct;
use batch_recipe::{Act, Acts};
use batch_text::Name;

/// Tests that acts reserve unit procedures of the recipe, each once.
pub(crate) fn check_reserves(acts: &Acts) -> Result<(), TableFault>
    requires { reserves_none acts.now.procedure ≡ true }
    ensures ok { OnOk result (are_reserves acts.now ≡ true) }
    ensures refused { IfErr result (λ fault. are_reserves acts.now ≢ true) }
    ensures no_memory { IfErr result (λ fault. fault ≢ TableFault.Memory) }
    ensures told { IfErr result (IsAmong is_of_recipe) }
    ensures stands { IfErr result (Tells (λ spot. HasReserveFault acts.now spot.kind spot.entry)) }
{
    let units = &acts.unit_procedures;
    check_table(units, units, TableKind::UnitProcedure)?;
    check_table(units, &acts.operations, TableKind::Operation)?;
    check_table(units, &acts.phases, TableKind::Phase)
}

/// Tests that the acts of a table reserve these unit procedures, each once.
fn check_table(units: &[Act], table: &[Act], kind: TableKind) -> Result<(), TableFault>
    ensures ok { OnOk result (reserve_well (act_names units.now) table.now ≡ true) }
    ensures refused { IfErr result (λ fault. reserve_well (act_names units.now) table.now ≢ true) }
    ensures no_memory { IfErr result (λ fault. fault ≢ TableFault.Memory) }
    ensures told { IfErr result (TellsIn kind (IsReserveFaultOf (act_names units.now) table.now)) }
{
    check_once(table, kind)?;
    check_declared(units, table, kind)
}

/// Tests that no act of a table reserves a unit procedure twice.
fn check_once(table: &[Act], kind: TableKind) -> Result<(), TableFault>
    ensures ok { OnOk result (list_all reserves_once table.now ≡ true) }
    ensures refused { IfErr result (λ fault. list_all reserves_once table.now ≢ true) }
    ensures no_memory { IfErr result (λ fault. fault ≢ TableFault.Memory) }
    ensures told { IfErr result (TellsIn kind (λ _. IsDuplicateAt (codes "reserves"))) }
    ensures stands { IfErr result (Tells (λ spot _. FailsFirst (λ front. list_all reserves_once front ≡ true) table.now spot.entry)) }
{
    for (entry, act) in table.iter().enumerate() {
        if !are_distinct(&act.reserves) {
            let spot = Spot { kind, entry };
            return Err(TableFault::Entry(spot, EntryFault::Duplicate("reserves")));
        }
    }
    Ok(())
}

/// Tests that the acts of a table reserve nothing but these unit procedures.
fn check_declared(units: &[Act], table: &[Act], kind: TableKind) -> Result<(), TableFault>
    ensures ok { OnOk result (list_all (reserves_among (act_names units.now)) table.now ≡ true) }
    ensures refused { IfErr result (λ fault. list_all (reserves_among (act_names units.now)) table.now ≢ true) }
    ensures no_memory { IfErr result (λ fault. fault ≢ TableFault.Memory) }
    ensures told { IfErr result (TellsIn kind (λ _. IsUndeclaredAt (codes "reserves"))) }
    ensures stands { IfErr result (Tells (λ spot _. FailsFirst (λ front. list_all (reserves_among (act_names units.now)) front ≡ true) table.now spot.entry)) }
{
    for (entry, act) in table.iter().enumerate() {
        if !reserves_among(act, units) {
            let spot = Spot { kind, entry };
            return Err(TableFault::Entry(spot, EntryFault::Undeclared("reserves")));
        }
    }
    Ok(())
}

fn reserves_among(act: &Act, units: &[Act]) -> bool
    ensures { result ≡ reserves_among (act_names units.now) act.now }
{
    act.reserves.iter().all(|name| is_named(name, units))
}

/// Whether an act of the table has the name.
fn is_named(name: &Name, table: &[Act]) -> bool
    ensures { result ≡ is_among (act_names table.now) name.now }
{
    table.iter().any(|act| *name == act.name)
}
