//! The faults of a document, in words.
mod charts;
mod declared;
mod entries;
mod entry;
mod fits;
mod hints;
mod kinds;
mod lines;
mod names_declared;

use crate::documents::entries::wrong_at;
use crate::documents::kinds::{is_word_of_several, kind_said};
use crate::documents::lines::line_of;
use crate::header::header_in;
use crate::sentence::Sentence;
use batch_reader::{DocFault, EntryFault, MAX_DOCUMENT_LEN, Spot, TableKind};
use std::alloc::{AllocError, Global};
use toml::Table;
use toml::de::Error;

/// The kind of document that a path is to have.
#[derive(Clone, Copy)]
pub enum Asked {
    Cell,
    Recipe,
    Desks,
}

/// The meaning of the fault of the document at this path: the wrong key or name and its line, if they are known.
///
/// It says so if a cell is in a recipe's place, a recipe in a cell's, or either in the place of the desks.
pub fn document_sentence(
    alloc: Global,
    asked: Asked,
    path: &str,
    bytes: &[u8],
    fault: DocFault,
) -> Result<Sentence, AllocError> {
    let said = match fault {
        DocFault::NotToml => toml_said(alloc, bytes),
        DocFault::Entry(spot, fault) => refused_said(alloc, asked, bytes, spot, fault),
        DocFault::Memory => String::from_str(alloc, "there is no memory to read it"),
    };
    Sentence::at(alloc, path, said?.as_str())
}

/// The fault of bytes that are TOML and no document of the kind.
fn refused_said(
    alloc: Global,
    asked: Asked,
    bytes: &[u8],
    spot: Spot,
    fault: EntryFault,
) -> Result<String, AllocError> {
    let Some((text, document)) = parts_of(alloc, bytes) else {
        return format!(in alloc; "it is longer than {MAX_DOCUMENT_LEN} bytes");
    };
    let (own, place) = asked.place();
    let mut kinds = ["cell", "recipe"].iter();
    match kinds.find(|kind| **kind != own && document.contains_key(**kind)) {
        Some(kind) => format!(in alloc; "this is a {kind}, and {place}"),
        None => entry_said(alloc, text, &document, spot, fault),
    }
}

impl Asked {
    /// The key that documents of the kind have at their top, and the words on their place.
    fn place(self) -> (&'static str, &'static str) {
        match self {
            Asked::Cell => ("cell", "the cell is to stand here: the cell comes first"),
            Asked::Recipe => ("recipe", "a recipe is to stand here: the cell comes first"),
            Asked::Desks => ("desk", "the desks are to stand here: they come first"),
        }
    }
}

/// The reason why the bytes are no TOML.
fn toml_said(alloc: Global, bytes: &[u8]) -> Result<String, AllocError> {
    if bytes.starts_with(b"rank ") {
        return String::from_str(
            alloc,
            "this looks like a certificate, which stands behind the cell alone: CELL CERT RECIPE..",
        );
    }
    match toml::table_from_slice(alloc, bytes) {
        Ok(_) => String::from_str(alloc, "it is no TOML"),
        Err(error) => error_said(alloc, bytes, &error),
    }
}

/// The message of TOML, in one line.
fn error_said(alloc: Global, bytes: &[u8], error: &Error) -> Result<String, AllocError> {
    let told = format!(in alloc; "{error}")?;
    let lines: Vec<&str> = told.lines().collect(alloc)?;
    let said = lines.join(alloc, ": ")?;
    let text = std::str::from_utf8(bytes).unwrap_or("");
    match single_header(text) {
        Some(word) if told.contains("duplicate key") => format!(in alloc;
            "it is no TOML: {said}; the header is [[{word}]], since a document may have several of these tables"
        ),
        _ => format!(in alloc; "it is no TOML: {said}"),
    }
}

/// The word of the first header with single brackets that is to have double ones.
fn single_header(text: &str) -> Option<&str> {
    text.lines()
        .map(|line| line.trim())
        .filter(|line| !line.starts_with("[["))
        .filter_map(header_in)
        .find(|word| is_word_of_several(word))
}

/// The text of a document, and its content as TOML. None of one that is too long.
fn parts_of(alloc: Global, bytes: &[u8]) -> Option<(&str, Table)> {
    if bytes.len() > MAX_DOCUMENT_LEN {
        return None;
    }
    let text = std::str::from_utf8(bytes).ok()?;
    let document = toml::table_from_str(alloc, text).ok()?;
    Some((text, document))
}

/// The line and the table of the fault, and the fault in words.
fn entry_said(
    alloc: Global,
    text: &str,
    document: &Table,
    spot: Spot,
    fault: EntryFault,
) -> Result<String, AllocError> {
    let wrong = wrong_at(alloc, text, document, spot, fault)?;
    let mistake = wrong.mistake;
    let table = table_said(alloc, spot)?;
    match line_of(text, document, spot, wrong.key) {
        Some(line) => format!(in alloc; "line {line}, {table}: {mistake}"),
        None => format!(in alloc; "{table}: {mistake}"),
    }
}

/// The table at the spot, counted from 1.
pub(crate) fn table_said(alloc: Global, spot: Spot) -> Result<String, AllocError> {
    let kind = kind_said(alloc, spot.kind)?;
    match spot.kind {
        TableKind::Cell | TableKind::Recipe => format!(in alloc; "at {kind}"),
        TableKind::Procedure => Ok(kind),
        _ => {
            let number = spot.entry.saturating_add(1);
            format!(in alloc; "{kind} number {number}")
        }
    }
}
