//! The chart texts of tables.
ghost use Rattle.std.specs.Prelude.{◌≡◌, ◌≢◌, true, codes, IfOk, IfErr};
ghost use Rattle.toml.specs.View.{table_view};
ghost use Rattle.batch_recipe.specs.Diagram.{Diagram, diagram_of};
ghost use Rattle.batch_recipe.specs.WellFormed.{has_no_par};
ghost use Rattle.batch_reader.specs.Entries.{HasChart};
ghost use Rattle.batch_reader.specs.Faults.{HasReadChart, TellsAt};
ghost use Rattle.batch_reader.specs.Keys.{needed};
ghost use Rattle.batch_reader.specs.TableFaults.{IsKeyFault};
ghost use Rattle.batch_reader.specs.declared.keys.ValueForm.{ValueForm};

use crate::chart_fault::ChartFault;
use crate::chart_reading::{MAX_CHART_LEN, ReadChart, read_chart_and_par};
use crate::entries::member;
use crate::fault::{EntryFault, Spot, TableFault};
use batch_recipe::Chart;
use std::alloc::Global;
use toml::Table;

/// The chart of the text at the key `chart`, and where its first `par` opens.
fn read_chart_at(alloc: Global, table: &Table, spot: Spot) -> Result<ReadChart, TableFault>
    ensures ok { IfOk result (λ read. HasChart (codes "chart") (table_view table.now) (diagram_of read.chart)) }
    ensures read { IfOk result (λ read. HasReadChart (table_view table.now) (diagram_of read.chart) read.first_par) }
    ensures refused { IfErr result (λ fault. fault ≢ TableFault.Memory
        → (chart : Diagram) → ¬ (HasChart (codes "chart") (table_view table.now) chart)) }
    ensures told { IfErr result (TellsAt spot (IsKeyFault (needed (codes "chart") ValueForm.Chart) (table_view table.now))) }
{
    let key = Some("chart");
    let Some(value) = member(table, "chart") else {
        return Err(TableFault::Entry(spot, EntryFault::MissingKey(key)));
    };
    let Some(text) = value.as_str() else {
        return Err(TableFault::Entry(spot, EntryFault::WrongKind(key)));
    };
    if text.len() > MAX_CHART_LEN {
        return Err(TableFault::Entry(spot, EntryFault::OutOfLimit(key)));
    }
    match read_chart_and_par(alloc, text.as_bytes()) {
        Ok(read) => Ok(read),
        Err(ChartFault::NotAChart(offset)) => {
            Err(TableFault::Entry(spot, EntryFault::Chart(offset)))
        }
        Err(ChartFault::OutOfRange(offset)) => {
            Err(TableFault::Entry(spot, EntryFault::NumberOutOfLimit(offset)))
        }
        Err(ChartFault::Memory) => Err(TableFault::Memory),
    }
}

/// The chart of a table.
pub(crate) fn chart_at(alloc: Global, table: &Table, spot: Spot) -> Result<Chart, TableFault>
    ensures ok { IfOk result (λ chart. HasChart (codes "chart") (table_view table.now) (diagram_of chart)) }
    ensures refused { IfErr result (λ fault. fault ≢ TableFault.Memory
        → (chart : Diagram) → ¬ (HasChart (codes "chart") (table_view table.now) chart)) }
    ensures told { IfErr result (TellsAt spot (IsKeyFault (needed (codes "chart") ValueForm.Chart) (table_view table.now))) }
{
    let read = read_chart_at(alloc, table, spot)?;
    Ok(read.chart)
}

/// The chart of a table in which it may have no `par`.
pub(crate) fn chart_without_par_at(
    alloc: Global,
    table: &Table,
    spot: Spot,
) -> Result<Chart, TableFault>
    ensures ok { IfOk result (λ chart. HasChart (codes "chart") (table_view table.now) (diagram_of chart)) }
    ensures no_par { IfOk result (λ chart. has_no_par (diagram_of chart) ≡ true) }
    ensures refused { IfErr result (λ fault. fault ≢ TableFault.Memory
        → (chart : Diagram) → HasChart (codes "chart") (table_view table.now) chart → ¬ (has_no_par chart ≡ true)) }
    ensures told { IfErr result (TellsAt spot (IsKeyFault (needed (codes "chart") ValueForm.ChartWithoutPar) (table_view table.now))) }
{
    let read = read_chart_at(alloc, table, spot)?;
    match read.first_par {
        None => Ok(read.chart),
        Some(offset) => Err(TableFault::Entry(spot, EntryFault::Chart(offset))),
    }
}
