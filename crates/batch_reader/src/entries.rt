//! The entries of a table.
ghost use Rattle.std.specs.Prelude.{◌≡◌, ◌≢◌, ◌≤◌, ℕ, List, Bool, Option, Some, None, option_map, string_bytes, string_len, IfOk, IfErr};
ghost use Rattle.std.specs.Option.{ForSome};
ghost use Rattle.toml.specs.Data.{as_integer, as_str, get_member};
ghost use Rattle.toml.specs.View.{view, items_view, table_view};
ghost use Rattle.batch_reader.specs.Entries.{HasName, HasNumber, HasNames, HasText, AllItems, IsNameItem, IsTruth, MayHaveName, MayHaveText, has_only_key};
ghost use Rattle.batch_reader.specs.Faults.{IsToldAs, missing_or_wrong, value_fault};

use crate::fault::{EntryFault, Spot, TableFault};
use batch_text::{Name, TextFault};
use std::alloc::Global;
use toml::{Table, Value};

/// The value at a key.
// claim: keys of a table
pub fn member<'a>(table: &'a Table, key: &str) -> Option<&'a Value>
    ensures { option_map (λ value. view value.now) result ≡ get_member key.now (table_view table.now) }
{
    table.get(key)
}

/// Whether the table has no key but this one.
// claim: keys of a table
pub fn has_only_key(table: &Table, key: &str) -> bool
    ensures { result ≡ has_only_key key.now (table_view table.now) }
{
    table.keys().all(|word| word.as_str() == key)
}

/// The name that a value is.
fn name_of(alloc: Global, value: &Value, key: &'static str, spot: Spot) -> Result<Name, TableFault>
    ensures ok { IfOk result (IsNameItem (view value.now)) }
    ensures refused { IfErr result (λ fault. fault ≢ TableFault.Memory
        → (name : List ℕ) → ¬ (IsNameItem (view value.now) name)) }
    ensures told { IfErr result (IsToldAs spot (EntryFault.WrongKind (Some key.entry))) }
{
    let Some(text) = value.as_str() else {
        return Err(TableFault::Entry(spot, EntryFault::WrongKind(Some(key))));
    };
    match Name::read(alloc, text.as_bytes()) {
        Ok(name) => Ok(name),
        Err(TextFault::Memory) => Err(TableFault::Memory),
        Err(_) => Err(TableFault::Entry(spot, EntryFault::WrongKind(Some(key)))),
    }
}

/// The name at a key of the table at the spot. It is refused there as missing, and as of the wrong kind where it is no name.
// claim: values of a table
pub fn name_at(
    alloc: Global,
    table: &Table,
    key: &'static str,
    spot: Spot,
) -> Result<Name, TableFault>
    ensures ok { IfOk result (HasName key.now (table_view table.now)) }
    ensures refused { IfErr result (λ fault. fault ≢ TableFault.Memory
        → (name : List ℕ) → ¬ (HasName key.now (table_view table.now) name)) }
    ensures told { IfErr result (IsToldAs spot (missing_or_wrong key.entry (get_member key.now (table_view table.now)))) }
{
    let Some(value) = member(table, key) else {
        return Err(TableFault::Entry(spot, EntryFault::MissingKey(Some(key))));
    };
    name_of(alloc, value, key, spot)
}

/// The name at a key of the table at the spot, where the key is there. It is refused as of the wrong kind where it is no name.
// claim: values of a table
pub fn optional_name_at(
    alloc: Global,
    table: &Table,
    key: &'static str,
    spot: Spot,
) -> Result<Option<Name>, TableFault>
    ensures ok { IfOk result (MayHaveName key.now (table_view table.now)) }
    ensures refused { IfErr result (λ fault. fault ≢ TableFault.Memory
        → (name : Option (List ℕ)) → ¬ (MayHaveName key.now (table_view table.now) name)) }
    ensures told { IfErr result (IsToldAs spot (EntryFault.WrongKind (Some key.entry))) }
{
    if member(table, key).is_none() {
        return Ok(None);
    }
    let name = name_at(alloc, table, key, spot)?;
    Ok(Some(name))
}

/// The number at a key of the table at the spot. It is refused as missing, as of the wrong kind where it is no integer, and as out of
/// limits where it isn't from `low` to `high`.
// claim: values of a table
pub fn number_at(
    table: &Table,
    key: &'static str,
    low: u64,
    high: u64,
    spot: Spot,
) -> Result<u64, TableFault>
    ensures ok { IfOk result (HasNumber key.now (table_view table.now) low high) }
    ensures refused { IfErr result (λ fault. (number : ℕ) → ¬ (HasNumber key.now (table_view table.now) low high number)) }
    ensures told { IfErr result (λ fault. fault ≡ TableFault.Entry spot (value_fault key.entry as_integer (get_member key.now (table_view table.now)))) }
{
    let Some(value) = member(table, key) else {
        return Err(TableFault::Entry(spot, EntryFault::MissingKey(Some(key))));
    };
    let Some(integer) = value.as_integer() else {
        return Err(TableFault::Entry(spot, EntryFault::WrongKind(Some(key))));
    };
    if integer < 0 {
        return Err(TableFault::Entry(spot, EntryFault::OutOfLimit(Some(key))));
    }
    let number = integer as u64;
    if number < low || number > high {
        return Err(TableFault::Entry(spot, EntryFault::OutOfLimit(Some(key))));
    }
    Ok(number)
}

/// The truth value at a key of the table at the spot, false where it is missing. It is refused where it is of the wrong kind.
// claim: values of a table
pub fn truth_at(table: &Table, key: &'static str, spot: Spot) -> Result<bool, TableFault>
    ensures ok { IfOk result (IsTruth key.now (table_view table.now)) }
    ensures refused { IfErr result (λ fault. (truth : Bool) → ¬ (IsTruth key.now (table_view table.now) truth)) }
    ensures told { IfErr result (λ fault. fault ≡ TableFault.Entry spot (EntryFault.WrongKind (Some key.entry))) }
{
    let Some(value) = member(table, key) else {
        return Ok(false);
    };
    match value.as_bool() {
        Some(truth) => Ok(truth),
        None => Err(TableFault::Entry(spot, EntryFault::WrongKind(Some(key)))),
    }
}

/// The text at a key, of at most so many bytes.
pub(crate) fn text_at(
    alloc: Global,
    table: &Table,
    key: &'static str,
    most: usize,
    spot: Spot,
) -> Result<String, TableFault>
    ensures ok { IfOk result (λ text. HasText key.now (table_view table.now) most (string_bytes text)) }
    ensures short { IfOk result (λ text. string_len text ≤ most) }
    ensures refused { IfErr result (λ fault. fault ≢ TableFault.Memory
        → (text : List ℕ) → ¬ (HasText key.now (table_view table.now) most text)) }
    ensures told { IfErr result (IsToldAs spot (value_fault key.entry as_str (get_member key.now (table_view table.now)))) }
{
    let Some(value) = member(table, key) else {
        return Err(TableFault::Entry(spot, EntryFault::MissingKey(Some(key))));
    };
    let Some(text) = value.as_str() else {
        return Err(TableFault::Entry(spot, EntryFault::WrongKind(Some(key))));
    };
    if text.len() > most {
        return Err(TableFault::Entry(spot, EntryFault::OutOfLimit(Some(key))));
    }
    Ok(String::from_str(alloc, text)?)
}

/// The text at a key of the table at the spot, of at most so many bytes, if the key is there. It is refused as of the wrong kind if
/// it is no text, and as out of limits if it is longer.
// claim: values of a table
pub fn optional_text_at(
    alloc: Global,
    table: &Table,
    key: &'static str,
    most: usize,
    spot: Spot,
) -> Result<Option<String>, TableFault>
    ensures ok { IfOk result (λ text. MayHaveText key.now (table_view table.now) most (option_map string_bytes text)) }
    ensures short { IfOk result (λ text. ForSome text (λ t. string_len t ≤ most)) }
    ensures refused { IfErr result (λ fault. fault ≢ TableFault.Memory
        → (text : Option (List ℕ)) → ¬ (MayHaveText key.now (table_view table.now) most text)) }
    ensures told { IfErr result (IsToldAs spot (value_fault key.entry as_str (get_member key.now (table_view table.now)))) }
{
    if member(table, key).is_none() {
        return Ok(None);
    }
    let text = text_at(alloc, table, key, most, spot)?;
    Ok(Some(text))
}

/// The names in the list at a key.
pub(crate) fn names_at(
    alloc: Global,
    table: &Table,
    key: &'static str,
    spot: Spot,
) -> Result<Vec<Name>, TableFault>
    ensures ok { IfOk result (λ names. HasNames key.now (table_view table.now) names.items) }
    ensures refused { IfErr result (λ fault. fault ≢ TableFault.Memory
        → (names : List (List ℕ)) → ¬ (HasNames key.now (table_view table.now) names)) }
    ensures told { IfErr result (IsToldAs spot (missing_or_wrong key.entry (get_member key.now (table_view table.now)))) }
{
    let Some(value) = member(table, key) else {
        return Err(TableFault::Entry(spot, EntryFault::MissingKey(Some(key))));
    };
    let Some(values) = value.as_array() else {
        return Err(TableFault::Entry(spot, EntryFault::WrongKind(Some(key))));
    };
    names_of(alloc, values.as_slice(), key, spot)
}

/// The names that some values are, in order.
pub(crate) fn names_of(
    alloc: Global,
    values: &[Value],
    key: &'static str,
    spot: Spot,
) -> Result<Vec<Name>, TableFault>
    ensures ok { IfOk result (λ names. AllItems IsNameItem (items_view values.now) names.items) }
    ensures refused { IfErr result (λ fault. fault ≢ TableFault.Memory
        → (names : List (List ℕ)) → ¬ (AllItems IsNameItem (items_view values.now) names)) }
    ensures told { IfErr result (IsToldAs spot (EntryFault.WrongKind (Some key.entry))) }
{
    let mut names = Vec::with_capacity(alloc, values.len())?;
    for value in values {
        let name = name_of(alloc, value, key, spot)?;
        names.push(name)?;
    }
    Ok(names)
}
