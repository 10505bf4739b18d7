//! The tables of a recipe's acts.
ghost use Rattle.std.specs.Prelude.{◌≡◌, ◌≢◌, codes, IfOk, IfErr};
ghost use Rattle.toml.specs.Data.{get_member};
ghost use Rattle.toml.specs.View.{table_view};
ghost use Rattle.batch_recipe.specs.declared.act.Act.{Act};
ghost use Rattle.batch_reader.specs.Entries.{HasName, HasTable};
ghost use Rattle.batch_reader.specs.RecipeTables.{IsActTable, IsProcedureTable, IsUnitProcedureTable, IsOperationTable, IsPhaseTable, choice_key, choice_name};
ghost use Rattle.batch_reader.specs.Faults.{IsActFault, TellsAt};
ghost use Rattle.batch_reader.specs.TableFaults.{IsProcedureFault, IsTableFault};
ghost use Rattle.batch_reader.specs.declared.fault.TableKind.{TableKind};

use crate::chart_entry::{chart_at, chart_without_par_at};
use crate::entries::{member, name_at, optional_name_at};
use crate::fault::{EntryFault, Spot, TableFault, TableKind};
use crate::keys::has_known_keys;
use crate::needs::few_needs_at;
use crate::recipe_entries::{few_names_at, label_at, name_or};
use crate::tables::FromTable;
use batch_recipe::{Act, MAX_NEEDS, MAX_REPORTS, MAX_RESERVES, MAX_VALUES, UnitChoice, Work};
use batch_text::Name;
use std::alloc::Global;
use toml::Table;

const PROCEDURE: Spot = Spot {
    kind: TableKind::Procedure,
    entry: 0,
};

impl FromTable for Act {
    ghost stands_for = { IsActTable };

    ghost is_fault = { IsActFault };

    fn from_table(alloc: Global, table: &Table, spot: Spot) -> Result<Act, TableFault> {
        match spot.kind {
            TableKind::UnitProcedure => unit_procedure(alloc, table, spot),
            TableKind::Operation => operation(alloc, table, spot),
            TableKind::Phase => phase_step(alloc, table, spot),
            // never asked for: no table of another kind stands for an act, but a spot may have any kind
            _ => Err(TableFault::Entry(spot, EntryFault::WrongKind(None))),
        }
    }
}

/// The unit of a unit procedure, or the role that stands in its place.
fn choice_at(alloc: Global, table: &Table, spot: Spot) -> Result<UnitChoice, TableFault>
    ensures ok { IfOk result (λ choice. HasName (choice_key choice) (table_view table.now) (choice_name choice)) }
    ensures refused { IfErr result (λ fault. fault ≢ TableFault.Memory
        → (act : Act) → ¬ (IsUnitProcedureTable (table_view table.now) act)) }
    ensures told { IfErr result (TellsAt spot (IsTableFault TableKind.UnitProcedure (table_view table.now))) }
{
    let chosen = optional_name_at(alloc, table, "role", spot)?;
    if let Some(role) = chosen {
        return Ok(UnitChoice::Role(role));
    }
    let unit = name_at(alloc, table, "unit", spot)?;
    Ok(UnitChoice::Unit(unit))
}

fn unit_procedure(alloc: Global, table: &Table, spot: Spot) -> Result<Act, TableFault>
    ensures ok { IfOk result (IsUnitProcedureTable (table_view table.now)) }
    ensures refused { IfErr result (λ fault. fault ≢ TableFault.Memory
        → (act : Act) → ¬ (IsUnitProcedureTable (table_view table.now) act)) }
    ensures told { IfErr result (TellsAt spot (IsTableFault TableKind.UnitProcedure (table_view table.now))) }
{
    if !has_known_keys(table, TableKind::UnitProcedure) {
        return Err(TableFault::Entry(spot, EntryFault::UnknownKey));
    }
    let name = label_at(alloc, table, "name", spot)?;
    let choice = choice_at(alloc, table, spot)?;
    let needs = few_needs_at(alloc, table, "needs", MAX_NEEDS, spot)?;
    let chart = chart_without_par_at(alloc, table, spot)?;
    let reserves = few_names_at(alloc, table, "reserves", MAX_RESERVES, spot)?;
    Ok(Act {
        name,
        unit: Some(choice),
        reserves,
        needs,
        work: Work::Follows(chart),
    })
}

fn operation(alloc: Global, table: &Table, spot: Spot) -> Result<Act, TableFault>
    ensures ok { IfOk result (IsOperationTable (table_view table.now)) }
    ensures refused { IfErr result (λ fault. fault ≢ TableFault.Memory
        → (act : Act) → ¬ (IsOperationTable (table_view table.now) act)) }
    ensures told { IfErr result (TellsAt spot (IsTableFault TableKind.Operation (table_view table.now))) }
{
    if !has_known_keys(table, TableKind::Operation) {
        return Err(TableFault::Entry(spot, EntryFault::UnknownKey));
    }
    let name = label_at(alloc, table, "name", spot)?;
    let needs = few_needs_at(alloc, table, "needs", MAX_NEEDS, spot)?;
    let chart = chart_at(alloc, table, spot)?;
    let reserves = few_names_at(alloc, table, "reserves", MAX_RESERVES, spot)?;
    Ok(Act {
        name,
        unit: None,
        reserves,
        needs,
        work: Work::Follows(chart),
    })
}

fn phase_step(alloc: Global, table: &Table, spot: Spot) -> Result<Act, TableFault>
    ensures ok { IfOk result (IsPhaseTable (table_view table.now)) }
    ensures refused { IfErr result (λ fault. fault ≢ TableFault.Memory
        → (act : Act) → ¬ (IsPhaseTable (table_view table.now) act)) }
    ensures told { IfErr result (TellsAt spot (IsTableFault TableKind.Phase (table_view table.now))) }
{
    if !has_known_keys(table, TableKind::Phase) {
        return Err(TableFault::Entry(spot, EntryFault::UnknownKey));
    }
    let name = label_at(alloc, table, "name", spot)?;
    let phase = name_or(alloc, table, "runs", &name, spot)?;
    let needs = few_needs_at(alloc, table, "needs", MAX_NEEDS, spot)?;
    let values = few_names_at(alloc, table, "values", MAX_VALUES, spot)?;
    let reports = few_names_at(alloc, table, "reports", MAX_REPORTS, spot)?;
    let reserves = few_names_at(alloc, table, "reserves", MAX_RESERVES, spot)?;
    Ok(Act {
        name,
        unit: None,
        reserves,
        needs,
        work: Work::Runs {
            phase,
            values,
            reports,
        },
    })
}

/// The procedure, which gets the recipe's name.
pub(crate) fn procedure_at(alloc: Global, table: &Table, name: Name) -> Result<Act, TableFault>
    ensures ok { IfOk result (HasTable IsProcedureTable (codes "procedure") (table_view table.now)) }
    ensures named { IfOk result (λ act. act.name ≡ name) }
    ensures refused { IfErr result (λ fault. fault ≢ TableFault.Memory
        → (act : Act) → ¬ (HasTable IsProcedureTable (codes "procedure") (table_view table.now) act)) }
    ensures told { IfErr result (TellsAt PROCEDURE (IsProcedureFault (get_member (codes "procedure") (table_view table.now)))) }
{
    let Some(value) = member(table, "procedure") else {
        return Err(TableFault::Entry(PROCEDURE, EntryFault::MissingKey(None)));
    };
    match value.as_table() {
        Some(inner) => procedure(alloc, inner, name),
        None => Err(TableFault::Entry(PROCEDURE, EntryFault::WrongKind(None))),
    }
}

fn procedure(alloc: Global, table: &Table, name: Name) -> Result<Act, TableFault>
    ensures ok { IfOk result (IsProcedureTable (table_view table.now)) }
    ensures named { IfOk result (λ act. act.name ≡ name) }
    ensures refused { IfErr result (λ fault. fault ≢ TableFault.Memory
        → (act : Act) → ¬ (IsProcedureTable (table_view table.now) act)) }
    ensures told { IfErr result (TellsAt PROCEDURE (IsTableFault TableKind.Procedure (table_view table.now))) }
{
    if !has_known_keys(table, TableKind::Procedure) {
        return Err(TableFault::Entry(PROCEDURE, EntryFault::UnknownKey));
    }
    let needs = few_needs_at(alloc, table, "needs", MAX_NEEDS, PROCEDURE)?;
    let chart = chart_at(alloc, table, PROCEDURE)?;
    Ok(Act {
        name,
        unit: None,
        reserves: Vec::new(alloc),
        needs,
        work: Work::Follows(chart),
    })
}
