//! Reading the names of a recipe's values and acts.
ghost use Rattle.std.specs.Prelude.{◌≡◌, ◌≢◌, ◌⊎◌, true, map, codes, IfErr, IfOk, OnOk};
ghost use Rattle.batch_recipe.specs.TableNames.{AreNamesOf};
ghost use Rattle.batch_recipe.specs.WellFormed.{are_distinct, value_names};
ghost use Rattle.batch_reader.specs.Faults.{IsAmong, Tells, TellsIn, is_of_recipe};
ghost use Rattle.batch_reader.specs.PartFaults.{AreDistinct, FailsFirst, HasActTwice, HasValueTwice, IsDuplicateAt};
ghost use Rattle.batch_reader.specs.Naming.{act_names_differ, names_differ};

use crate::fault::{TableFault, TableKind};
use crate::names::{Named, add_names};
use batch_recipe::{Act, Acts, Quantity, RecipeNames, TableNames};
use batch_text::Name;
use indexmap::IndexSet;
use std::alloc::Global;

impl Named for Quantity {
    ghost name_of = { λ quantity. quantity.name };

    fn name(&self) -> &Name {
        &self.name
    }
}

impl Named for Act {
    ghost name_of = { λ act. act.name };

    fn name(&self) -> &Name {
        &self.name
    }
}

/// An output is its name alone.
impl Named for Name {
    ghost name_of = { λ name. name };

    fn name(&self) -> &Name {
        self
    }
}

/// The names of a recipe, where those that have to differ do.
pub(crate) fn recipe_names(
    alloc: Global,
    inputs: &[Quantity],
    parameters: &[Quantity],
    outputs: &[Name],
    acts: &Acts,
) -> Result<RecipeNames, TableFault>
    ensures values { IfOk result (λ names. names.values.keys ≡ value_names inputs.now parameters.now outputs.now) }
    ensures acts { IfOk result (λ names. AreNamesOf names.acts acts.now) }
    ensures differ { OnOk result (names_differ (value_names inputs.now parameters.now outputs.now) acts.now ≡ true) }
    ensures refused { IfErr result (λ fault. fault ≢ TableFault.Memory
        → names_differ (value_names inputs.now parameters.now outputs.now) acts.now ≢ true) }
    ensures told { IfErr result (λ fault. IsAmong is_of_recipe fault × Tells (λ _. IsDuplicateAt (codes "name")) fault) }
    ensures stands { IfErr result (Tells (λ spot _. HasValueTwice inputs.now parameters.now outputs.now spot.kind spot.entry ⊎ HasActTwice acts.now spot.kind spot.entry)) }
{
    let values = value_names(alloc, inputs, parameters, outputs)?;
    let acts = names_of_acts(alloc, acts)?;
    Ok(RecipeNames { values, acts })
}

/// The names of the acts, where those of each table differ.
fn names_of_acts(alloc: Global, acts: &Acts) -> Result<TableNames, TableFault>
    ensures ok { IfOk result (λ names. AreNamesOf names acts.now) }
    ensures differ { OnOk result (act_names_differ acts.now ≡ true) }
    ensures refused { IfErr result (λ fault. fault ≢ TableFault.Memory → act_names_differ acts.now ≢ true) }
    ensures told { IfErr result (λ fault. IsAmong is_of_recipe fault × Tells (λ _. IsDuplicateAt (codes "name")) fault) }
    ensures stands { IfErr result (Tells (λ spot _. HasActTwice acts.now spot.kind spot.entry)) }
{
    let unit_procedures = distinct_names(alloc, &acts.unit_procedures, TableKind::UnitProcedure)?;
    let operations = distinct_names(alloc, &acts.operations, TableKind::Operation)?;
    let phases = distinct_names(alloc, &acts.phases, TableKind::Phase)?;
    Ok(TableNames {
        unit_procedures,
        operations,
        phases,
    })
}

/// The names of inputs, parameters and outputs, in this order.
fn value_names(
    alloc: Global,
    inputs: &[Quantity],
    parameters: &[Quantity],
    outputs: &[Name],
) -> Result<IndexSet<Name>, TableFault>
    ensures ok { IfOk result (λ names. names.keys ≡ value_names inputs.now parameters.now outputs.now) }
    ensures differ { OnOk result (are_distinct (value_names inputs.now parameters.now outputs.now) ≡ true) }
    ensures refused { IfErr result (λ fault. fault ≢ TableFault.Memory
        → are_distinct (value_names inputs.now parameters.now outputs.now) ≢ true) }
    ensures told { IfErr result (λ fault. IsAmong is_of_recipe fault × Tells (λ _. IsDuplicateAt (codes "name")) fault) }
    ensures stands { IfErr result (Tells (λ spot _. HasValueTwice inputs.now parameters.now outputs.now spot.kind spot.entry)) }
{
    let mut names = IndexSet::new(alloc);
    add_names(alloc, &mut names, inputs, TableKind::Input)?;
    add_names(alloc, &mut names, parameters, TableKind::Parameter)?;
    add_names(alloc, &mut names, outputs, TableKind::Output)?;
    Ok(names)
}

/// The names of all tables of a kind, where they differ.
pub(crate) fn distinct_names<T: Named>(
    alloc: Global,
    table: &[T],
    kind: TableKind,
) -> Result<IndexSet<Name>, TableFault>
    ensures ok { IfOk result (λ names. names.keys ≡ map T.name_of table.now) }
    ensures differ { OnOk result (are_distinct (map T.name_of table.now) ≡ true) }
    ensures refused { IfErr result (λ fault. fault ≢ TableFault.Memory → are_distinct (map T.name_of table.now) ≢ true) }
    ensures told { IfErr result (TellsIn kind (λ _. IsDuplicateAt (codes "name"))) }
    ensures stands { IfErr result (Tells (λ spot _. FailsFirst (λ front. AreDistinct (map T.name_of front)) table.now spot.entry)) }
{
    let mut names = IndexSet::new(alloc);
    add_names(alloc, &mut names, table, kind)?;
    Ok(names)
}
