//! The entries that tables of desks alone have.
ghost use Rattle.std.specs.Prelude.{◌≡◌, ◌≢◌, ◌≤◌, ℕ, List, Option, option_map, codes, is_some, string_bytes, IfOk, IfErr};
ghost use Rattle.toml.specs.Data.{as_str, get_member};
ghost use Rattle.toml.specs.View.{table_view};
ghost use Rattle.batch_reader.specs.Faults.{IsToldAs, TellsAt, value_fault};
ghost use Rattle.batch_reader.specs.Keys.{optional};
ghost use Rattle.batch_reader.specs.TableFaults.{IsKeyFault};
ghost use Rattle.batch_reader.specs.declared.keys.TheConstants.{MAX_LAG};
ghost use Rattle.batch_reader.specs.declared.keys.ValueForm.{ValueForm};
ghost use Rattle.batch_reader.specs.DesksDocument.{HasLag, MayHavePath};

use crate::desk::USUAL_LAG;
use crate::entries::{member, number_at, optional_text_at};
use crate::fault::{EntryFault, Spot, TableFault};
use crate::keys::{MAX_LAG, MAX_PATH_LEN};
use std::alloc::Global;
use toml::Table;

/// Whether the key is there.
pub(crate) fn has_key(table: &Table, key: &str) -> bool
    ensures { result ≡ is_some (get_member key.now (table_view table.now)) }
{
    member(table, key).is_some()
}

/// The path at a key, where the key is there: a text that isn't empty.
#[tactic(auto, using(crate::proofs::DeskFaults::text_of_path, crate::proofs::DeskFaults::no_empty_path, crate::proofs::DeskFaults::text_fault))]
pub(crate) fn path_at(
    alloc: Global,
    table: &Table,
    key: &'static str,
    spot: Spot,
) -> Result<Option<String>, TableFault>
    ensures ok { IfOk result (λ path. MayHavePath key.now (table_view table.now) (option_map string_bytes path)) }
    ensures refused { IfErr result (λ fault. fault ≢ TableFault.Memory
        → (path : Option (List ℕ)) → ¬ (MayHavePath key.now (table_view table.now) path)) }
    ensures told { IfErr result (IsToldAs spot (value_fault key.entry as_str (get_member key.now (table_view table.now)))) }
{
    let Some(path) = optional_text_at(alloc, table, key, MAX_PATH_LEN, spot)? else {
        return Ok(None);
    };
    if path.is_empty() {
        return Err(TableFault::Entry(spot, EntryFault::OutOfLimit(Some(key))));
    }
    Ok(Some(path))
}

/// How many lines may wait for the desk.
pub(crate) fn lag_at(table: &Table, spot: Spot) -> Result<usize, TableFault>
    ensures ok { IfOk result (HasLag (table_view table.now)) }
    ensures some { IfOk result (λ lag. 1 ≤ lag) }
    ensures few { IfOk result (λ lag. lag ≤ MAX_LAG) }
    ensures no_memory { IfErr result (λ fault. fault ≢ TableFault.Memory) }
    ensures told { IfErr result (TellsAt spot (IsKeyFault (optional (codes "lag") (ValueForm.Number 1 MAX_LAG)) (table_view table.now))) }
{
    if !has_key(table, "lag") {
        return Ok(USUAL_LAG);
    }
    let lag = number_at(table, "lag", 1, MAX_LAG as u64, spot)?;
    Ok(lag as usize)
}
