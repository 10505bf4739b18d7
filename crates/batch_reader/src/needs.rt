//! The needs of acts: each a resource, and how many units of its capacity.
ghost use Rattle.std.specs.Prelude.{◌≡◌, ◌≢◌, ℕ, List, true, position, IfOk, IfErr};
ghost use Rattle.toml.specs.View.{view, items_view, table_view};
ghost use Rattle.batch_recipe.specs.Needs.{have_units};
ghost use Rattle.batch_recipe.specs.declared.need.Need.{Need};
ghost use Rattle.batch_text.specs.NameText.{IsName};
ghost use Rattle.batch_reader.specs.Entries.{AllItems, HasFewNeeds, IsNeedItem};
ghost use Rattle.batch_reader.specs.Faults.{IsNeedFault, IsNeedTextFault, IsNeedsFault, IsToldAs, IsUnitsFault, TellsAt};
ghost use Rattle.batch_reader.specs.Keys.{optional};
ghost use Rattle.batch_reader.specs.NeedText.{IsNeedText, IsUnits, is_star};
ghost use Rattle.batch_reader.specs.TableFaults.{IsKeyFault};
ghost use Rattle.batch_reader.specs.declared.keys.ValueForm.{ValueForm};

use crate::fault::{EntryFault, Spot, TableFault};
use crate::tables::items_at;
use batch_recipe::{MAX_NEED_UNITS, Need};
use batch_text::{Name, TextFault, read_number};
use std::alloc::Global;
use toml::{Table, Value};

/// The needs in the list at a key, at most so many, and none where the key is missing.
#[tactic(auto, using(crate::proofs::OneEntry::few_needs))]
pub(crate) fn few_needs_at(
    alloc: Global,
    table: &Table,
    key: &'static str,
    most: usize,
    spot: Spot,
) -> Result<Vec<Need>, TableFault>
    // claim: need read
    ensures ok { IfOk result (λ needs. HasFewNeeds key.now (table_view table.now) most needs.items) }
    // claim: units of a need
    ensures units { IfOk result (λ needs. have_units needs.items ≡ true) }
    // claim: no need
    ensures refused { IfErr result (λ fault. fault ≢ TableFault.Memory
        → (needs : List Need) → ¬ (HasFewNeeds key.now (table_view table.now) most needs)) }
    ensures told { IfErr result (TellsAt spot (IsKeyFault (optional key.now (ValueForm.Needs most)) (table_view table.now))) }
{
    let wrong_kind = TableFault::Entry(spot, EntryFault::WrongKind(Some(key)));
    let values = items_at(table, key, wrong_kind)?;
    if values.len() > most {
        return Err(TableFault::Entry(spot, EntryFault::OutOfLimit(Some(key))));
    }
    needs_of(alloc, values, spot)
}

/// The needs that some values are, in order.
#[tactic(auto, using(crate::proofs::OneEntry::needs_have_units))]
fn needs_of(alloc: Global, values: &[Value], spot: Spot) -> Result<Vec<Need>, TableFault>
    ensures ok { IfOk result (λ needs. AllItems IsNeedItem (items_view values.now) needs.items) }
    ensures units { IfOk result (λ needs. have_units needs.items ≡ true) }
    ensures refused { IfErr result (λ fault. fault ≢ TableFault.Memory
        → (needs : List Need) → ¬ (AllItems IsNeedItem (items_view values.now) needs)) }
    ensures told { IfErr result (TellsAt spot (IsNeedsFault (items_view values.now))) }
{
    let mut needs = Vec::with_capacity(alloc, values.len())?;
    for value in values {
        let need = need_of(alloc, value, needs.len(), spot)?;
        needs.push(need)?;
    }
    Ok(needs)
}

/// The need with this number that a value is.
fn need_of(alloc: Global, value: &Value, number: usize, spot: Spot) -> Result<Need, TableFault>
    ensures ok { IfOk result (λ need. IsNeedItem (view value.now) need) }
    ensures refused { IfErr result (λ fault. fault ≢ TableFault.Memory
        → (need : Need) → ¬ (IsNeedItem (view value.now) need)) }
    ensures told { IfErr result (TellsAt spot (IsNeedFault number (view value.now))) }
{
    let Some(text) = value.as_str() else {
        return Err(TableFault::Entry(spot, EntryFault::NoNeed(number)));
    };
    read_need(alloc, text.as_bytes(), number, spot)
}

/// The need that a text is: a resource, of which it is one unit, or so many after a star.
#[tactic(auto, using(crate::proofs::NeedCuts::name_is_need))]
fn read_need(alloc: Global, text: &[u8], number: usize, spot: Spot) -> Result<Need, TableFault>
    // claim: need read
    ensures ok { IfOk result (λ need. IsNeedText text.now need) }
    // claim: no need
    ensures refused { IfErr result (λ fault. fault ≢ TableFault.Memory → (need : Need) → ¬ (IsNeedText text.now need)) }
    ensures told { IfErr result (TellsAt spot (IsNeedTextFault number text.now)) }
{
    match Name::read(alloc, text) {
        // Most needs are of one unit, and no star stands in a name.
        Ok(resource) => Ok(Need { resource, units: 1 }),
        Err(TextFault::Memory) => Err(TableFault::Memory),
        Err(_) => read_parts(alloc, text, number, spot),
    }
}

/// The need that a text is, by its parts: the resource before the first star, and the units behind it.
fn read_parts(alloc: Global, text: &[u8], number: usize, spot: Spot) -> Result<Need, TableFault>
    ensures ok { IfOk result (λ need. IsNeedText text.now need) }
    ensures refused { IfErr result (λ fault. fault ≢ TableFault.Memory → (need : Need) → ¬ (IsNeedText text.now need)) }
    ensures told { IfErr result (TellsAt spot (IsNeedTextFault number text.now)) }
{
    match first_star(text) {
        None => {
            let resource = read_resource(alloc, text, number, spot)?;
            Ok(Need { resource, units: 1 })
        }
        Some(star) => {
            let resource = read_resource(alloc, &text[..star], number, spot)?;
            let units = read_units(&text[star + 1..], number, spot)?;
            Ok(Need { resource, units })
        }
    }
}

/// The place of the first star of a text.
fn first_star(text: &[u8]) -> Option<usize>
    ensures { result ≡ position is_star text.now }
{
    text.iter().position(|byte| *byte == b'*')
}

/// The resource that a text names.
fn read_resource(alloc: Global, text: &[u8], number: usize, spot: Spot) -> Result<Name, TableFault>
    ensures ok { IfOk result (λ name. IsName text.now × (name ≡ text.now)) }
    ensures refused { IfErr result (λ fault. fault ≢ TableFault.Memory → ¬ (IsName text.now)) }
    ensures told { IfErr result (IsToldAs spot (EntryFault.NoNeed number)) }
{
    match Name::read(alloc, text) {
        Ok(name) => Ok(name),
        Err(TextFault::Memory) => Err(TableFault::Memory),
        Err(_) => Err(TableFault::Entry(spot, EntryFault::NoNeed(number))),
    }
}

/// The number of units that a text is. Another form is of a wrong kind, a number that is too small or too great out of limit.
fn read_units(text: &[u8], number: usize, spot: Spot) -> Result<u32, TableFault>
    ensures ok { IfOk result (λ units. IsUnits text.now units) }
    ensures refused { IfErr result (λ fault. (units : ℕ) → ¬ (IsUnits text.now units)) }
    ensures no_memory { IfErr result (λ fault. fault ≢ TableFault.Memory) }
    ensures told { IfErr result (TellsAt spot (IsUnitsFault number text.now)) }
{
    match read_number(text, u64::from(MAX_NEED_UNITS)) {
        Ok(0) => Err(TableFault::Entry(spot, EntryFault::NeedOutOfLimit(number))),
        Ok(units) => Ok(units as u32),
        Err(TextFault::OutOfRange) => Err(TableFault::Entry(
            spot,
            EntryFault::NeedOutOfLimit(number),
        )),
        Err(_) => Err(TableFault::Entry(spot, EntryFault::NoNeed(number))),
    }
}
