//! The tables of a recipe's inputs, parameters and outputs.
ghost use Rattle.batch_reader.specs.RecipeTables.{IsQuantityTable, IsOutputTable};
ghost use Rattle.batch_reader.specs.TableFaults.{IsTableFault};
ghost use Rattle.batch_reader.specs.declared.fault.TableKind.{TableKind};

use crate::entries::{number_at, truth_at};
use crate::fault::{EntryFault, Spot, TableFault, TableKind};
use crate::keys::has_known_keys;
use crate::recipe_entries::label_at;
use crate::tables::FromTable;
use batch_recipe::{MAX_VALUE, Quantity};
use batch_text::Name;
use std::alloc::Global;
use toml::Table;

impl FromTable for Quantity {
    ghost stands_for = { λ _. IsQuantityTable };

    ghost is_fault = { λ _. IsTableFault TableKind.Input };

    fn from_table(alloc: Global, table: &Table, spot: Spot) -> Result<Quantity, TableFault> {
        if !has_known_keys(table, TableKind::Input) {
            return Err(TableFault::Entry(spot, EntryFault::UnknownKey));
        }
        let name = label_at(alloc, table, "name", spot)?;
        let value = number_at(table, "value", 0, MAX_VALUE, spot)?;
        let min = number_at(table, "min", 0, MAX_VALUE, spot)?;
        let max = number_at(table, "max", 0, MAX_VALUE, spot)?;
        if min > max {
            return Err(TableFault::Entry(spot, EntryFault::OutOfLimit(Some("min"))));
        }
        let fixed = truth_at(table, "fixed", spot)?;
        Ok(Quantity {
            name,
            value,
            min,
            max,
            fixed,
        })
    }
}

/// The name of an output.
impl FromTable for Name {
    ghost stands_for = { λ _. IsOutputTable };

    ghost is_fault = { λ _. IsTableFault TableKind.Output };

    fn from_table(alloc: Global, table: &Table, spot: Spot) -> Result<Name, TableFault> {
        if !has_known_keys(table, TableKind::Output) {
            return Err(TableFault::Entry(spot, EntryFault::UnknownKey));
        }
        label_at(alloc, table, "name", spot)
    }
}
