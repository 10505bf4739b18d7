//! The tables of an array.
ghost use Rattle.std.specs.Prelude.{◌≡◌, ◌≢◌, ◌≤◌, List, Some, None, Err, IfOk, IfErr, OnOk};
ghost use Rattle.toml.specs.Data.{Members};
ghost use Rattle.toml.specs.View.{table_view, items_view};
ghost use Rattle.batch_reader.specs.Entries.{HasTables, IsTableOf, items_at};
ghost use Rattle.batch_reader.specs.Faults.{IsToldIn, Tells, TellsAt, TellsIn};
ghost use Rattle.batch_reader.specs.PartFaults.{IsCountFault};
ghost use Rattle.batch_reader.specs.TableFaults.{IsArrayFault};
ghost use Rattle.batch_reader.specs.declared.fault.EntryFault.{EntryFault};
ghost use Rattle.batch_reader.specs.declared.fault.TableKind.{TableKind};

use crate::entries::member;
use crate::fault::{EntryFault, Spot, TableFault, TableKind};
use std::alloc::Global;
use toml::{Table, Value};

/// A value that a table of a document stands for.
pub trait FromTable: Drop {
    // the table of this kind stands for the value
    ghost stands_for: { TableKind → Members → Self → Type 0 };

    // this is wrong with the table of this kind
    ghost is_fault: { TableKind → Members → EntryFault → Type 0 };

    /// Reads the table that stands at the spot.
    fn from_table(alloc: Global, table: &Table, spot: Spot) -> Result<Self, TableFault>
        ensures ok { IfOk result (stands_for spot.kind (table_view table.now)) }
        ensures refused { IfErr result (λ fault. fault ≢ TableFault.Memory
            → (value : Self) → ¬ (stands_for spot.kind (table_view table.now) value)) }
        ensures told { IfErr result (TellsAt spot (is_fault spot.kind (table_view table.now))) };
}

/// The items of the array at a key, none where the key is missing. It is refused as this where it is no array.
pub(crate) fn items_at<'a>(
    table: &'a Table,
    key: &str,
    refusal: TableFault,
) -> Result<&'a [Value], TableFault>
    ensures ok { IfOk result (λ values. items_at key.now (table_view table.now) ≡ Some (items_view values.now)) }
    ensures refused { IfErr result (λ fault. items_at key.now (table_view table.now) ≡ None) }
    ensures told { IfErr result (λ fault. fault ≡ refusal) }
{
    let Some(value) = member(table, key) else {
        return Ok(&[]);
    };
    match value.as_array() {
        Some(values) => Ok(values.as_slice()),
        None => Err(refusal),
    }
}

/// The values of the tables in the array at a key, in order; none if the key is missing. It is refused by the first table that is
/// refused, and as of the wrong kind if the value is no array, or an item no table.
// claim: tables of an array
pub fn tables_at<T: FromTable>(
    alloc: Global,
    table: &Table,
    key: &str,
    kind: TableKind,
) -> Result<Vec<T>, TableFault>
    ensures ok { IfOk result (λ values. HasTables (T.stands_for kind) key.now (table_view table.now) values.items) }
    ensures refused { IfErr result (λ fault. fault ≢ TableFault.Memory
        → (values : List T) → ¬ (HasTables (T.stands_for kind) key.now (table_view table.now) values)) }
    ensures told { IfErr result (TellsIn kind (IsArrayFault (λ d. (value : T) × IsTableOf (T.stands_for kind) d value) (T.is_fault kind) (items_at key.now (table_view table.now)))) }
    ensures no_list { items_at key.now (table_view table.now) ≡ None
        → result ≡ Err (TableFault.Entry (record { kind = kind; entry = 0 }) (EntryFault.WrongKind None)) }
{
    let mut values = Vec::new(alloc);
    let no_array = TableFault::Entry(Spot { kind, entry: 0 }, EntryFault::WrongKind(None));
    for (entry, item) in items_at(table, key, no_array)?.iter().enumerate() {
        let spot = Spot { kind, entry };
        let Some(inner) = item.as_table() else {
            return Err(TableFault::Entry(spot, EntryFault::WrongKind(None)));
        };
        let value = T::from_table(alloc, inner, spot)?;
        values.push(value)?;
    }
    Ok(values)
}

/// Checks how many tables of a kind there are. Too few are refused at entry 0, too many at the first one too many: out of limits.
// claim: tables counted
pub fn check_count(
    count: usize,
    least: usize,
    most: usize,
    kind: TableKind,
) -> Result<(), TableFault>
    ensures ok { OnOk result ((least ≤ count) × (count ≤ most)) }
    ensures refused { IfErr result (λ fault. ¬ ((least ≤ count) × (count ≤ most))) }
    ensures no_memory { IfErr result (λ fault. fault ≢ TableFault.Memory) }
    ensures told { IfErr result (λ fault. IsToldIn kind (EntryFault.OutOfLimit None) fault × Tells (λ spot _. IsCountFault least most count spot.entry) fault) }
{
    if count < least {
        return Err(TableFault::Entry(Spot { kind, entry: 0 }, EntryFault::OutOfLimit(None)));
    }
    if count > most {
        return Err(TableFault::Entry(Spot { kind, entry: most }, EntryFault::OutOfLimit(None)));
    }
    Ok(())
}
