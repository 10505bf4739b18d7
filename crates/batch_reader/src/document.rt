//! The parsing of a document's bytes to a table.
ghost use Rattle.std.specs.Prelude.{◌≡◌, ◌≢◌, ◌≤◌, ◌<◌, Some, None, Err, length, IfOk, IfErr, IsErrOf, IsSome, IsUtf8};
ghost use Rattle.toml.specs.Parse.{parse_document};
ghost use Rattle.toml.specs.View.{table_view};
ghost use Rattle.batch_reader.specs.declared.fault.EntryFault.{EntryFault};
ghost use Rattle.batch_reader.specs.declared.fault.Spot.{Spot};

use crate::fault::{DocFault, EntryFault, Spot, TableFault};
use std::alloc::Global;
use toml::Table;

/// The longest document, in bytes.
pub const MAX_DOCUMENT_LEN: usize = 1_048_576;

/// The table of a document. It is refused as
/// - `Entry`, at its top and out of limits, if it is too long, which is tested first;
/// - `NotToml`, if its bytes are no TOML in UTF-8;
/// - `Memory`, if memory is refused.
// claim: table of a document
pub fn table_of(alloc: Global, bytes: &[u8], top: Spot) -> Result<Table, DocFault>
    ensures short { IfOk result (λ _. length bytes.now ≤ MAX_DOCUMENT_LEN) }
    ensures is_text { IfOk result (λ _. IsUtf8 bytes.now) }
    ensures parsed { IfOk result (λ table. parse_document bytes.now ≡ Some (table_view table)) }
    ensures told { (spot : Spot) (wrong : EntryFault) → IsErrOf result (DocFault.Entry spot wrong)
        → (spot ≡ top) × (wrong ≡ EntryFault.OutOfLimit None) × (MAX_DOCUMENT_LEN < length bytes.now) }
    ensures long { MAX_DOCUMENT_LEN < length bytes.now → result ≡ Err (DocFault.Entry top (EntryFault.OutOfLimit None)) }
    ensures not_toml { IsErrOf result DocFault.NotToml → ¬ (IsUtf8 bytes.now × IsSome (parse_document bytes.now)) }
    ensures refused { IfErr result (λ fault. fault ≢ DocFault.Memory
        → ¬ ((length bytes.now ≤ MAX_DOCUMENT_LEN) × (IsUtf8 bytes.now × IsSome (parse_document bytes.now)))) }
{
    if bytes.len() > MAX_DOCUMENT_LEN {
        return Err(DocFault::Entry(top, EntryFault::OutOfLimit(None)));
    }
    match toml::table_from_slice(alloc, bytes) {
        Ok(table) => Ok(table),
        Err(error) => Err(if error.is_memory() {
            DocFault::Memory
        } else {
            DocFault::NotToml
        }),
    }
}

/// The refusal of a document one of whose tables is refused.
// claim: refused table
pub fn document_fault(fault: TableFault) -> DocFault
    ensures entry { (spot : Spot) (wrong : EntryFault) → fault ≡ TableFault.Entry spot wrong → result ≡ DocFault.Entry spot wrong }
    ensures memory { fault ≡ TableFault.Memory → result ≡ DocFault.Memory }
    ensures is_toml { result ≢ DocFault.NotToml }
{
    match fault {
        TableFault::Entry(spot, fault) => DocFault::Entry(spot, fault),
        TableFault::Memory => DocFault::Memory,
    }
}
