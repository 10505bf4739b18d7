//! Reading the documents of desks, and of the set that they are served over.
ghost use Rattle.std.specs.Prelude.{map, IfOk, IfErr, OnOk, string_bytes};
ghost use Rattle.batch_cell.specs.LookUps.{units_of};
ghost use Rattle.batch_reader.specs.DeskUnits.{HaveUnits};
ghost use Rattle.batch_reader.specs.DesksDocument.{IsDesksDocument};
ghost use Rattle.batch_verdicts.specs.DeskSets.{AreDesksCleared, HaltsAtDesks, HaltsDesks, ReadsDesks, RefusesDesks, RefusesUnits};

use crate::digested::Digested;
use crate::documents::{Documents, clear_behind, read_cell};
use crate::judging::document_halt;
use crate::refusal::Halt;
use batch_cell::Cell;
use batch_journal::DocumentsDigest;
use batch_messages::Asked;
use batch_reader::{Desks, MAX_DOCUMENT_LEN, check_units, read_desks};
use std::alloc::Global;

/// Desks, and the set over which they are served, with the digits that name its documents in a journal.
#[derive(Drop)]
pub struct DeskSet {
    pub desks: Desks,
    pub digested: Digested,
}

/// The desks and the set of the documents at these paths.
///
/// The first of these ends it: a document of desks that can't be read or is refused; a cell; a desk's unit that the cell doesn't have; a
/// certificate or a recipe; recipes that aren't cleared.
pub fn clear_desks<D: Documents>(
    alloc: Global,
    documents: &D,
    desks: &str,
    cell: &str,
    certificate: &str,
    recipes: &[String],
) -> Result<DeskSet, Halt>
    // claim: set of desks
    ensures set { IfOk result (λ served. AreDesksCleared (D.gives documents.now) desks.now cell.now certificate.now (map string_bytes recipes.now)
        served.desks served.digested.set served.digested.documents.text) }
    // claim: no set of desks
    ensures halted { IfErr result (HaltsDesks (D.gives documents.now) desks.now cell.now certificate.now (map string_bytes recipes.now)) }
{
    let path = desks;
    let read = read_desk_document(alloc, documents, path)?;
    let mut digest = DocumentsDigest::new();
    let cell = read_cell(alloc, documents, cell, &mut digest)?;
    look_up_units(alloc, path, &read.bytes, &read.desks, &cell)?;
    let set = clear_behind(alloc, documents, cell, certificate, recipes, &mut digest)?;
    Ok(DeskSet {
        desks: read.desks,
        digested: Digested {
            set,
            documents: digest.digits(),
        },
    })
}

/// A document of desks, and its bytes.
#[derive(Drop)]
struct DeskDocument {
    desks: Desks,
    bytes: Vec<u8>,
}

fn read_desk_document<D: Documents>(
    alloc: Global,
    documents: &D,
    path: &str,
) -> Result<DeskDocument, Halt>
    ensures read { IfOk result (λ read. ReadsDesks (D.gives documents.now) path.now read.desks) }
    ensures halted { IfErr result (HaltsAtDesks (D.gives documents.now) path.now) }
{
    let bytes = documents.read(alloc, path, MAX_DOCUMENT_LEN)?;
    let desks = parse_desks(alloc, path, &bytes)?;
    Ok(DeskDocument { desks, bytes })
}

/// The desks of the document at the path. Only a refusal names the path. Their units are looked up in no cell.
fn parse_desks(alloc: Global, path: &str, bytes: &[u8]) -> Result<Desks, Halt>
    ensures ok { IfOk result (IsDesksDocument bytes.now) }
    ensures refused { IfErr result (RefusesDesks path.now bytes.now) }
{
    match read_desks(alloc, bytes) {
        Ok(desks) => Ok(desks),
        Err(fault) => Err(document_halt(alloc, Asked::Desks, path, bytes, fault)),
    }
}

/// Looks up the units that the desks name.
fn look_up_units(
    alloc: Global,
    path: &str,
    bytes: &[u8],
    desks: &Desks,
    cell: &Cell,
) -> Result<(), Halt>
    ensures ok { OnOk result (HaveUnits (units_of cell.now) desks.now.desks.items) }
    ensures refused { IfErr result (RefusesUnits path.now cell.now desks.now) }
{
    match check_units(desks, cell) {
        Ok(()) => Ok(()),
        Err(fault) => Err(document_halt(alloc, Asked::Desks, path, bytes, fault)),
    }
}
