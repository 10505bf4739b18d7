//! The table of a desk.
ghost use Rattle.std.specs.Prelude.{◌≡◌};
ghost use Rattle.toml.specs.View.{table_view};
ghost use Rattle.batch_reader.specs.DesksDocument.{IsDeskTable, has_way};
ghost use Rattle.batch_reader.specs.DesksFaults.{IsDeskFault};

use crate::desk::Desk;
use crate::desk_entries::{has_key, lag_at, path_at};
use crate::entries::{name_at, optional_name_at, truth_at};
use crate::fault::{EntryFault, Spot, TableFault, TableKind};
use crate::keys::has_known_keys;
use crate::tables::FromTable;
use std::alloc::Global;
use toml::Table;

/// Whether lines go to the desk or come from it.
fn has_way(table: &Table) -> bool
    ensures { result ≡ has_way (table_view table.now) }
{
    has_key(table, "input") || has_key(table, "output")
}

impl FromTable for Desk {
    ghost stands_for = { λ _. IsDeskTable };

    ghost is_fault = { λ _. IsDeskFault };

    fn from_table(alloc: Global, table: &Table, spot: Spot) -> Result<Desk, TableFault> {
        if !has_known_keys(table, TableKind::Desk) {
            return Err(TableFault::Entry(spot, EntryFault::UnknownKey));
        }
        let name = name_at(alloc, table, "name", spot)?;
        let input = path_at(alloc, table, "input", spot)?;
        let output = path_at(alloc, table, "output", spot)?;
        if !has_way(table) {
            return Err(TableFault::Entry(spot, EntryFault::MissingKey(None)));
        }
        let unit = optional_name_at(alloc, table, "unit", spot)?;
        let stays = truth_at(table, "stays", spot)?;
        let lag = lag_at(table, spot)?;
        Ok(Desk {
            name,
            input,
            output,
            unit,
            stays,
            lag,
        })
    }
}
