//! Documents of desks.
ghost use Rattle.std.specs.Prelude.{◌≡◌, ◌≢◌, ◌<◌, length, None, Err, IfOk, IfErr, IsErrOf, IsSome, IsUtf8};
ghost use Rattle.toml.specs.Parse.{parse_document};
ghost use Rattle.toml.specs.View.{table_view};
ghost use Rattle.batch_reader.specs.Faults.{TellsIn};
ghost use Rattle.batch_reader.specs.declared.document.TheConstants.{MAX_DOCUMENT_LEN};
ghost use Rattle.batch_reader.specs.declared.fault.EntryFault.{EntryFault};
ghost use Rattle.batch_reader.specs.declared.fault.Spot.{Spot};
ghost use Rattle.batch_reader.specs.declared.fault.TableKind.{TableKind};
ghost use Rattle.batch_reader.specs.DesksDocument.{IsDesksDocument, IsDesksTable};
ghost use Rattle.batch_reader.specs.DesksFaults.{DesksFaultStands, IsDesksFault};
ghost use Rattle.batch_reader.specs.declared.desk_set.Desks.{Desks};

use crate::desk::Desk;
use crate::desk_names::check_names;
use crate::desk_set::{Desks, MAX_DESKS};
use crate::document::{document_fault, table_of};
use crate::entries::has_only_key;
use crate::fault::{DocFault, EntryFault, Spot, TableFault, TableKind};
use crate::tables::{check_count, tables_at};
use std::alloc::Global;
use toml::Table;

// A document of desks has no key at its top but `desk`, so a fault there is reported of the first desk.
const TOP: Spot = Spot {
    kind: TableKind::Desk,
    entry: 0,
};

/// Reads a document of desks. One that is too long is refused as `Entry` at number 0, before it is parsed. Any other is refused as
/// - `NotToml`, if its bytes are no TOML in UTF-8;
/// - `Entry`, if they give no desks;
/// - `Memory`, if memory is refused on the way.
///
/// The first fault is reported, in this order:
/// - of the top's keys;
/// - of each table by itself: unknown keys, and then its values in the order of `Desk`;
/// - of how many tables there are;
/// - of their names.
///
/// That a table has neither input nor output follows the faults of these two values.
pub fn read_desks(alloc: Global, bytes: &[u8]) -> Result<Desks, DocFault>
    // claim: desks read
    ensures ok { IfOk result (IsDesksDocument bytes.now) }
    // claim: desks not TOML
    ensures not_toml { IsErrOf result DocFault.NotToml → ¬ (IsUtf8 bytes.now × IsSome (parse_document bytes.now)) }
    // claim: no desks
    ensures refused { IfErr result (λ fault. fault ≢ DocFault.Memory
        → (desks : Desks) → ¬ (IsDesksDocument bytes.now desks)) }
    // claim: many bytes of desks
    ensures long { MAX_DOCUMENT_LEN < length bytes.now
        → result ≡ Err (DocFault.Entry (record { kind = TableKind.Desk; entry = 0 }) (EntryFault.OutOfLimit None)) }
    // claim: faults of desks
    ensures told { (spot : Spot) (wrong : EntryFault) → IsErrOf result (DocFault.Entry spot wrong) → spot.kind ≡ TableKind.Desk }
    // claim: first fault of desks
    ensures stands { (spot : Spot) (wrong : EntryFault) → IsErrOf result (DocFault.Entry spot wrong) → DesksFaultStands bytes.now spot.entry wrong }
{
    let table = table_of(alloc, bytes, TOP)?;
    match desks_from_table(alloc, &table) {
        Ok(desks) => Ok(desks),
        Err(fault) => Err(document_fault(fault)),
    }
}

fn desks_from_table(alloc: Global, table: &Table) -> Result<Desks, TableFault>
    ensures ok { IfOk result (IsDesksTable (table_view table.now)) }
    ensures refused { IfErr result (λ fault. fault ≢ TableFault.Memory
        → (desks : Desks) → ¬ (IsDesksTable (table_view table.now) desks)) }
    ensures told { IfErr result (TellsIn TableKind.Desk (IsDesksFault (table_view table.now))) }
{
    if !has_only_key(table, "desk") {
        return Err(TableFault::Entry(TOP, EntryFault::UnknownKey));
    }
    let desks = tables_at::<Desk>(alloc, table, "desk", TableKind::Desk)?;
    check_count(desks.len(), 1, MAX_DESKS, TableKind::Desk)?;
    check_names(&desks)?;
    Ok(Desks { desks })
}
