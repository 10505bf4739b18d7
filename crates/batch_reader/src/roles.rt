//! The roles of a recipe.
ghost use Rattle.std.specs.Prelude.{◌≡◌, ◌≢◌, true, codes, IfErr, IsErrOf, OnOk};
ghost use Rattle.std.specs.List.{list_all};
ghost use Rattle.batch_recipe.specs.WellFormed.{are_roles, is_role_among};
ghost use Rattle.batch_reader.specs.Faults.{IsAmong, Tells, TellsIn, is_of_recipe};
ghost use Rattle.batch_reader.specs.PartFaults.{FailsFirst, IsRoleFault, IsUndeclaredAt};
ghost use Rattle.batch_reader.specs.RecipeTables.{IsRoleTable};
ghost use Rattle.batch_reader.specs.TableFaults.{IsTableFault};
ghost use Rattle.batch_reader.specs.declared.fault.EntryFault.{EntryFault};
ghost use Rattle.batch_reader.specs.declared.fault.Spot.{Spot};
ghost use Rattle.batch_reader.specs.declared.fault.TableKind.{TableKind};

use crate::entries::name_at;
use crate::fault::{EntryFault, Spot, TableFault, TableKind};
use crate::keys::has_known_keys;
use crate::names::Named;
use crate::recipe_names::distinct_names;
use crate::tables::FromTable;
use batch_recipe::{Act, Acts, Role, UnitChoice};
use batch_text::Name;
use indexmap::IndexSet;
use std::alloc::Global;
use toml::Table;

impl FromTable for Role {
    ghost stands_for = { λ _. IsRoleTable };

    ghost is_fault = { λ _. IsTableFault TableKind.Role };

    fn from_table(alloc: Global, table: &Table, spot: Spot) -> Result<Role, TableFault> {
        if !has_known_keys(table, TableKind::Role) {
            return Err(TableFault::Entry(spot, EntryFault::UnknownKey));
        }
        let name = name_at(alloc, table, "name", spot)?;
        let class = name_at(alloc, table, "class", spot)?;
        Ok(Role { name, class })
    }
}

impl Named for Role {
    ghost name_of = { λ role. role.name };

    fn name(&self) -> &Name {
        &self.name
    }
}

/// Tests that names of roles differ, and that those which unit procedures have are declared.
pub(crate) fn check_roles(alloc: Global, roles: &[Role], acts: &Acts) -> Result<(), TableFault>
    ensures ok { OnOk result (are_roles roles.now acts.now ≡ true) }
    ensures refused { IfErr result (λ fault. fault ≢ TableFault.Memory → are_roles roles.now acts.now ≢ true) }
    ensures told { IfErr result (IsAmong is_of_recipe) }
    ensures stands { IfErr result (Tells (λ spot. IsRoleFault roles.now acts.now spot.kind spot.entry)) }
{
    let names = distinct_names(alloc, roles, TableKind::Role)?;
    check_declared(&acts.unit_procedures, &names)
}

/// Tests that each unit procedure that has a role has one of these.
fn check_declared(unit_procedures: &[Act], roles: &IndexSet<Name>) -> Result<(), TableFault>
    ensures ok { OnOk result (list_all (is_role_among roles.now.keys) unit_procedures.now ≡ true) }
    ensures refused { IfErr result (λ fault. list_all (is_role_among roles.now.keys) unit_procedures.now ≢ true) }
    ensures told { IfErr result (λ fault. (fault ≢ TableFault.Memory) × TellsIn TableKind.UnitProcedure (λ _. IsUndeclaredAt (codes "role")) fault) }
    ensures first { (spot : Spot) (wrong : EntryFault) → IsErrOf result (TableFault.Entry spot wrong)
        → FailsFirst (λ front. list_all (is_role_among roles.now.keys) front ≡ true) unit_procedures.now spot.entry }
{
    for (entry, act) in unit_procedures.iter().enumerate() {
        if !is_role_among(act, roles) {
            let spot = Spot {
                kind: TableKind::UnitProcedure,
                entry,
            };
            return Err(TableFault::Entry(spot, EntryFault::Undeclared("role")));
        }
    }
    Ok(())
}

/// Whether the act has one of these roles, or none.
fn is_role_among(act: &Act, roles: &IndexSet<Name>) -> bool
    ensures { result ≡ is_role_among roles.now.keys act.now }
{
    match &act.unit {
        None => true,
        Some(UnitChoice::Unit(_)) => true,
        Some(UnitChoice::Role(role)) => roles.contains(role),
    }
}
