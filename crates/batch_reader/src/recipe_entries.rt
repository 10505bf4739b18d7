//! The entries that tables of recipes alone have.
ghost use Rattle.std.specs.Prelude.{◌≢◌, ℕ, List, Some, IfOk, IfErr};
ghost use Rattle.toml.specs.Data.{get_member};
ghost use Rattle.toml.specs.View.{table_view};
ghost use Rattle.batch_reader.specs.Entries.{HasLabel, HasNameOr, HasFewNames, items_at};
ghost use Rattle.batch_reader.specs.Faults.{IsToldAs, few_names_fault, missing_or_wrong};

use crate::entries::{member, name_at, names_of};
use crate::fault::{EntryFault, Spot, TableFault};
use crate::tables::items_at;
use crate::word::is_chart_word;
use batch_text::Name;
use std::alloc::Global;
use toml::Table;

/// The name at a key, which is none of the words of charts.
pub(crate) fn label_at(
    alloc: Global,
    table: &Table,
    key: &'static str,
    spot: Spot,
) -> Result<Name, TableFault>
    ensures ok { IfOk result (HasLabel key.now (table_view table.now)) }
    ensures refused { IfErr result (λ fault. fault ≢ TableFault.Memory
        → (name : List ℕ) → ¬ (HasLabel key.now (table_view table.now) name)) }
    ensures told { IfErr result (IsToldAs spot (missing_or_wrong key.entry (get_member key.now (table_view table.now)))) }
{
    let name = name_at(alloc, table, key, spot)?;
    if is_chart_word(name.text().as_bytes()) {
        return Err(TableFault::Entry(spot, EntryFault::WrongKind(Some(key))));
    }
    Ok(name)
}

/// The name at a key; where it is missing, a copy of the other one.
pub(crate) fn name_or(
    alloc: Global,
    table: &Table,
    key: &'static str,
    other: &Name,
    spot: Spot,
) -> Result<Name, TableFault>
    ensures ok { IfOk result (HasNameOr key.now (table_view table.now) other.now) }
    ensures refused { IfErr result (λ fault. fault ≢ TableFault.Memory
        → (name : List ℕ) → ¬ (HasNameOr key.now (table_view table.now) other.now name)) }
    ensures told { IfErr result (IsToldAs spot (EntryFault.WrongKind (Some key.entry))) }
{
    if member(table, key).is_some() {
        return name_at(alloc, table, key, spot);
    }
    match other.copy(alloc) {
        Ok(name) => Ok(name),
        Err(_) => Err(TableFault::Memory),
    }
}

/// The names in the list at a key, at most so many, and none where the key is missing.
#[tactic(auto, using(crate::proofs::OneEntry::few_names))]
pub(crate) fn few_names_at(
    alloc: Global,
    table: &Table,
    key: &'static str,
    most: usize,
    spot: Spot,
) -> Result<Vec<Name>, TableFault>
    ensures ok { IfOk result (λ names. HasFewNames key.now (table_view table.now) most names.items) }
    ensures refused { IfErr result (λ fault. fault ≢ TableFault.Memory
        → (names : List (List ℕ)) → ¬ (HasFewNames key.now (table_view table.now) most names)) }
    ensures told { IfErr result (IsToldAs spot (few_names_fault key.entry most (items_at key.now (table_view table.now)))) }
{
    let wrong_kind = TableFault::Entry(spot, EntryFault::WrongKind(Some(key)));
    let values = items_at(table, key, wrong_kind)?;
    if values.len() > most {
        return Err(TableFault::Entry(spot, EntryFault::OutOfLimit(Some(key))));
    }
    names_of(alloc, values, key, spot)
}
