//! Cell documents.
ghost use Rattle.std.specs.Prelude.{◌≡◌, ◌≢◌, ◌<◌, true, length, None, Err, IfOk, IfErr, IsErrOf, IsSome, IsUtf8};
ghost use Rattle.toml.specs.Parse.{parse_document};
ghost use Rattle.toml.specs.View.{table_view};
ghost use Rattle.batch_cell.specs.declared.cell.Cell.{Cell};
ghost use Rattle.batch_reader.specs.CellDocument.{IsCellTable, IsCellDocument};
ghost use Rattle.batch_reader.specs.Faults.{IsAmong, Tells, is_of_cell};
ghost use Rattle.batch_reader.specs.FaultStands.{FaultStands, IsWrongAt};
ghost use Rattle.batch_reader.specs.declared.document.TheConstants.{MAX_DOCUMENT_LEN};
ghost use Rattle.batch_reader.specs.declared.fault.EntryFault.{EntryFault};
ghost use Rattle.batch_reader.specs.declared.fault.Spot.{Spot};

use crate::document::{document_fault, table_of};
use crate::entries::name_at;
use crate::equipment::check_equipment;
use crate::fault::{DocFault, EntryFault, Spot, TableFault, TableKind};
use crate::keys::has_known_keys;
use crate::tables::tables_at;
use batch_cell::{Cell, Module, Shared, Unit};
use std::alloc::Global;
use toml::Table;

const TOP: Spot = Spot {
    kind: TableKind::Cell,
    entry: 0,
};

/// Reads a cell document. One that is too long is refused as `Entry` at its top, before it is parsed. Any other is refused as
/// - `NotToml`, if its bytes are no TOML in UTF-8;
/// - `Entry`, if they give no cell;
/// - `Memory`, if memory is refused on the way.
///
/// The first fault is reported, in this order:
/// - of the top's entries;
/// - of each table by itself: units, modules, shared resources;
/// - of how many there are;
/// - of their names;
/// - of the units that modules name;
/// - of the phases that each unit offers.
pub fn read_cell(alloc: Global, bytes: &[u8]) -> Result<Cell, DocFault>
    // claim: cell read
    ensures ok { IfOk result (IsCellDocument bytes.now) }
    // claim: cell not TOML
    ensures not_toml { IsErrOf result DocFault.NotToml → ¬ (IsUtf8 bytes.now × IsSome (parse_document bytes.now)) }
    // claim: no cell
    ensures refused { IfErr result (λ fault. fault ≢ DocFault.Memory
        → (cell : Cell) → ¬ (IsCellDocument bytes.now cell)) }
    // claim: long cell
    ensures long { MAX_DOCUMENT_LEN < length bytes.now
        → result ≡ Err (DocFault.Entry (record { kind = TableKind.Cell; entry = 0 }) (EntryFault.OutOfLimit None)) }
    // claim: table of a cell
    ensures told { (spot : Spot) (wrong : EntryFault) → IsErrOf result (DocFault.Entry spot wrong) → is_of_cell spot.kind ≡ true }
    // claim: fault of a cell; first of its kind
    ensures stands { (spot : Spot) (wrong : EntryFault) → IsErrOf result (DocFault.Entry spot wrong) → FaultStands bytes.now spot wrong }
{
    let table = table_of(alloc, bytes, TOP)?;
    match cell_from_table(alloc, &table) {
        Ok(cell) => Ok(cell),
        Err(fault) => Err(document_fault(fault)),
    }
}

fn cell_from_table(alloc: Global, table: &Table) -> Result<Cell, TableFault>
    ensures ok { IfOk result (IsCellTable (table_view table.now)) }
    ensures refused { IfErr result (λ fault. fault ≢ TableFault.Memory
        → (cell : Cell) → ¬ (IsCellTable (table_view table.now) cell)) }
    ensures told { IfErr result (IsAmong is_of_cell) }
    ensures stands { IfErr result (Tells (IsWrongAt (table_view table.now))) }
{
    if !has_known_keys(table, TableKind::Cell) {
        return Err(TableFault::Entry(TOP, EntryFault::UnknownKey));
    }
    let name = name_at(alloc, table, "cell", TOP)?;
    let units = tables_at::<Unit>(alloc, table, "unit", TableKind::Unit)?;
    let modules = tables_at::<Module>(alloc, table, "module", TableKind::Module)?;
    let shared = tables_at::<Shared>(alloc, table, "shared", TableKind::Shared)?;
    check_equipment(alloc, &units, &modules, &shared)?;
    let cell = Cell::new(alloc, name, units, modules, shared)?;
    Ok(cell)
}
