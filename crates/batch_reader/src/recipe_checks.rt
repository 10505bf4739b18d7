//! The conditions on the parts of a recipe.
ghost use Rattle.std.specs.Prelude.{◌≡◌, ◌≢◌, ◌<◌, ◌≤◌, true, [], length, codes, IfErr, IfOk, IsErrOf, OnOk};
ghost use Rattle.std.specs.List.{list_all};
ghost use Rattle.batch_recipe.specs.TableNames.{AreNamesOf};
ghost use Rattle.batch_recipe.specs.WellFormed.{is_among, is_well_formed, is_work, value_names};
ghost use Rattle.batch_recipe.specs.declared.recipe.TheConstants.{MAX_ENTRIES, MAX_ACTS};
ghost use Rattle.batch_recipe.specs.declared.role.TheConstants.{MAX_ROLES};
ghost use Rattle.batch_reader.specs.Faults.{IsAmong, Tells, TellsAt, TellsIn, is_of_recipe};
ghost use Rattle.batch_reader.specs.PartFaults.{FailsFirst, HasUndeclaredName, IsNamingFault, IsPartFault, IsUndeclaredAt, naming_key};
ghost use Rattle.batch_reader.specs.Naming.{acts_are_declared};
ghost use Rattle.batch_reader.specs.FormedActs.{AreFormed, AreFormedActs, IsFormedWork};
ghost use Rattle.batch_reader.specs.SoundRecipe.{IsSoundRecipe};
ghost use Rattle.batch_reader.specs.SoundTables.{HasSoundTables};
ghost use Rattle.batch_reader.specs.declared.fault.EntryFault.{EntryFault};
ghost use Rattle.batch_reader.specs.declared.fault.Spot.{Spot};
ghost use Rattle.batch_reader.specs.declared.fault.TableKind.{TableKind};

use crate::chart_names::is_declared;
use crate::fault::{EntryFault, Spot, TableFault, TableKind};
use crate::recipe_names::recipe_names;
use crate::reports::check_reports;
use crate::reserves::check_reserves;
use crate::roles::check_roles;
use crate::tables::check_count;
use batch_recipe::{
    Act, Acts, MAX_ACTS, MAX_ENTRIES, MAX_ROLES, Quantity, RecipeNames, Role, Work,
};
use batch_text::Name;
use indexmap::IndexSet;
use std::alloc::Global;

/// Tests the counts and the names of a recipe's parts, but not how large the expanded tree is, and returns the names.
pub(crate) fn check_recipe(
    alloc: Global,
    inputs: &[Quantity],
    parameters: &[Quantity],
    outputs: &[Name],
    roles: &[Role],
    acts: &Acts,
) -> Result<RecipeNames, TableFault>
    requires { AreFormed acts.now }
    ensures ok { OnOk result (HasSoundTables inputs.now parameters.now outputs.now roles.now acts.now) }
    ensures names { IfOk result (λ names. AreNamesOf names.acts acts.now) }
    ensures refused { IfErr result (λ fault. fault ≢ TableFault.Memory
        → ¬ (IsSoundRecipe inputs.now parameters.now outputs.now roles.now acts.now)) }
    ensures told { IfErr result (IsAmong is_of_recipe) }
    ensures stands { IfErr result (Tells (λ spot. IsPartFault (record { inputs = inputs.now; parameters = parameters.now; outputs = outputs.now; roles = roles.now; acts = acts.now }) spot.kind spot.entry)) }
{
    check_counts(inputs, parameters, outputs, roles, acts)?;
    let names = check_names(alloc, inputs, parameters, outputs, acts)?;
    check_roles(alloc, roles, acts)?;
    check_reports(outputs, acts)?;
    check_reserves(acts)?;
    Ok(names)
}

/// Tests how many tables of each kind there are.
fn check_counts(
    inputs: &[Quantity],
    parameters: &[Quantity],
    outputs: &[Name],
    roles: &[Role],
    acts: &Acts,
) -> Result<(), TableFault>
    ensures values { OnOk result ((length inputs.now ≤ MAX_ENTRIES) × (length parameters.now ≤ MAX_ENTRIES) × (length outputs.now ≤ MAX_ENTRIES)) }
    ensures roles { OnOk result (length roles.now ≤ MAX_ROLES) }
    ensures some_acts { OnOk result ((0 < length acts.now.unit_procedures.items) × (0 < length acts.now.operations.items) × (0 < length acts.now.phases.items)) }
    ensures few_acts { OnOk result ((length acts.now.unit_procedures.items ≤ MAX_ACTS) × (length acts.now.operations.items ≤ MAX_ACTS) × (length acts.now.phases.items ≤ MAX_ACTS)) }
    ensures refused { IfErr result (λ fault. ¬ (IsSoundRecipe inputs.now parameters.now outputs.now roles.now acts.now)) }
    ensures no_memory { IfErr result (λ fault. fault ≢ TableFault.Memory) }
    ensures told { IfErr result (IsAmong is_of_recipe) }
    ensures stands { IfErr result (Tells (λ spot. IsPartFault (record { inputs = inputs.now; parameters = parameters.now; outputs = outputs.now; roles = roles.now; acts = acts.now }) spot.kind spot.entry)) }
{
    check_count(inputs.len(), 0, MAX_ENTRIES, TableKind::Input)?;
    check_count(parameters.len(), 0, MAX_ENTRIES, TableKind::Parameter)?;
    check_count(outputs.len(), 0, MAX_ENTRIES, TableKind::Output)?;
    check_count(roles.len(), 0, MAX_ROLES, TableKind::Role)?;
    check_count(
        acts.unit_procedures.len(),
        1,
        MAX_ACTS,
        TableKind::UnitProcedure,
    )?;
    check_count(acts.operations.len(), 1, MAX_ACTS, TableKind::Operation)?;
    check_count(acts.phases.len(), 1, MAX_ACTS, TableKind::Phase)?;
    Ok(())
}

/// Tests that names differ, and that the acts name nothing that isn't declared, and returns the names.
fn check_names(
    alloc: Global,
    inputs: &[Quantity],
    parameters: &[Quantity],
    outputs: &[Name],
    acts: &Acts,
) -> Result<RecipeNames, TableFault>
    requires { AreFormed acts.now }
    ensures names { IfOk result (λ names. AreNamesOf names.acts acts.now) }
    ensures ok { OnOk result (is_well_formed (value_names inputs.now parameters.now outputs.now) acts.now ≡ true) }
    ensures refused { IfErr result (λ fault. fault ≢ TableFault.Memory
        → is_well_formed (value_names inputs.now parameters.now outputs.now) acts.now ≢ true) }
    ensures told { IfErr result (IsAmong is_of_recipe) }
    ensures stands { IfErr result (Tells (λ spot. IsNamingFault inputs.now parameters.now outputs.now acts.now spot.kind spot.entry)) }
{
    let names = recipe_names(alloc, inputs, parameters, outputs, acts)?;
    check_acts(alloc, acts, &names)?;
    Ok(names)
}

/// Tests that the acts name nothing that isn't declared.
fn check_acts(alloc: Global, acts: &Acts, names: &RecipeNames) -> Result<(), TableFault>
    requires formed { AreFormed acts.now }
    requires names { AreNamesOf names.now.acts acts.now }
    ensures ok { OnOk result (acts_are_declared names.now.values.keys acts.now ≡ true) }
    ensures refused { IfErr result (λ fault. acts_are_declared names.now.values.keys acts.now ≢ true) }
    ensures told { IfErr result (λ fault. (fault ≢ TableFault.Memory) × (IsAmong is_of_recipe fault × Tells (λ spot. IsUndeclaredAt (naming_key spot.kind)) fault)) }
    ensures stands { IfErr result (Tells (λ spot _. HasUndeclaredName names.now.values.keys acts.now spot.kind spot.entry)) }
{
    let values = &names.values;
    check_procedure(&acts.procedure, &names.acts.unit_procedures, values)?;
    check_table(
        &acts.unit_procedures,
        &names.acts.operations,
        values,
        "chart",
        TableKind::UnitProcedure,
    )?;
    check_table(
        &acts.operations,
        &names.acts.phases,
        values,
        "chart",
        TableKind::Operation,
    )?;
    check_phases(alloc, &acts.phases, values)
}

/// Tests that the procedure names nothing but these labels and values.
fn check_procedure(
    procedure: &Act,
    labels: &IndexSet<Name>,
    values: &IndexSet<Name>,
) -> Result<(), TableFault>
    requires { IsFormedWork procedure.now.work }
    ensures ok { OnOk result (is_work labels.now.keys values.now.keys procedure.now ≡ true) }
    ensures refused { IfErr result (λ fault. is_work labels.now.keys values.now.keys procedure.now ≢ true) }
    ensures told { IfErr result (λ fault. (fault ≢ TableFault.Memory) × TellsAt (record { kind = TableKind.Procedure; entry = 0 }) (IsUndeclaredAt (codes "chart")) fault) }
{
    if !is_work(procedure, labels, values) {
        let spot = Spot {
            kind: TableKind::Procedure,
            entry: 0,
        };
        return Err(TableFault::Entry(spot, EntryFault::Undeclared("chart")));
    }
    Ok(())
}

/// Tests that the phase steps name nothing but these values. None has a chart, so there are no labels.
fn check_phases(alloc: Global, phases: &[Act], values: &IndexSet<Name>) -> Result<(), TableFault>
    requires { AreFormedActs phases.now }
    ensures ok { OnOk result (list_all (is_work [] values.now.keys) phases.now ≡ true) }
    ensures refused { IfErr result (λ fault. list_all (is_work [] values.now.keys) phases.now ≢ true) }
    ensures told { IfErr result (λ fault. (fault ≢ TableFault.Memory) × TellsIn TableKind.Phase (λ _. IsUndeclaredAt (codes "values")) fault) }
    ensures first { (spot : Spot) (wrong : EntryFault) → IsErrOf result (TableFault.Entry spot wrong)
        → FailsFirst (λ front. list_all (is_work [] values.now.keys) front ≡ true) phases.now spot.entry }
{
    let none = IndexSet::new(alloc);
    check_table(phases, &none, values, "values", TableKind::Phase)
}

/// Tests that the acts of a table name nothing at the key but these labels and values.
fn check_table(
    table: &[Act],
    labels: &IndexSet<Name>,
    values: &IndexSet<Name>,
    key: &'static str,
    kind: TableKind,
) -> Result<(), TableFault>
    requires { AreFormedActs table.now }
    ensures ok { OnOk result (list_all (is_work labels.now.keys values.now.keys) table.now ≡ true) }
    ensures refused { IfErr result (λ fault. list_all (is_work labels.now.keys values.now.keys) table.now ≢ true) }
    ensures told { IfErr result (λ fault. (fault ≢ TableFault.Memory) × TellsIn kind (λ _. IsUndeclaredAt key.now) fault) }
    ensures first { (spot : Spot) (wrong : EntryFault) → IsErrOf result (TableFault.Entry spot wrong)
        → FailsFirst (λ front. list_all (is_work labels.now.keys values.now.keys) front ≡ true) table.now spot.entry }
{
    for (entry, act) in table.iter().enumerate() {
        if !is_work(act, labels, values) {
            let spot = Spot { kind, entry };
            return Err(TableFault::Entry(spot, EntryFault::Undeclared(key)));
        }
    }
    Ok(())
}

/// Whether the act names nothing but these labels and values.
fn is_work(act: &Act, labels: &IndexSet<Name>, values: &IndexSet<Name>) -> bool
    requires { IsFormedWork act.now.work }
    ensures { result ≡ is_work labels.now.keys values.now.keys act.now }
{
    match &act.work {
        Work::Follows(chart) => is_declared(chart, labels, values),
        Work::Runs { values: handed, .. } => are_among(handed, values),
    }
}

fn are_among(names: &[Name], declared: &IndexSet<Name>) -> bool
    ensures { result ≡ list_all (is_among declared.now.keys) names.now }
{
    names.iter().all(|name| declared.contains(name))
}
