//! The kinds of tables that documents have.
use batch_reader::TableKind;
use std::alloc::{AllocError, Global};

/// The word of the kind's tables; a top has none.
pub(crate) fn word_of(kind: TableKind) -> Option<&'static str> {
    match kind {
        TableKind::Cell | TableKind::Recipe => None,
        _ => Some(kind.word()),
    }
}

const OF_CELLS: [TableKind; 4] = [
    TableKind::Cell,
    TableKind::Unit,
    TableKind::Module,
    TableKind::Shared,
];

/// The kinds of tables of recipes, in the order in which they are read. The top and the procedure have no key `name`.
pub(crate) const OF_RECIPES: [TableKind; 9] = [
    TableKind::Recipe,
    TableKind::Input,
    TableKind::Parameter,
    TableKind::Output,
    TableKind::Role,
    TableKind::Procedure,
    TableKind::UnitProcedure,
    TableKind::Operation,
    TableKind::Phase,
];

const OF_DESKS: [TableKind; 1] = [TableKind::Desk];

/// Whether a document may have several tables of this word: one of these kinds, and not that of procedures, has it.
pub(crate) fn is_word_of_several(word: &str) -> bool {
    let mut kinds = OF_CELLS.iter().chain(&OF_RECIPES).chain(&OF_DESKS);
    kinds.any(|kind| *kind != TableKind::Procedure && word_of(*kind) == Some(word))
}

/// The kinds of tables of the documents that have tables of this kind.
pub(crate) fn kinds_beside(kind: TableKind) -> &'static [TableKind] {
    match kind {
        TableKind::Cell | TableKind::Unit | TableKind::Module | TableKind::Shared => &OF_CELLS,
        TableKind::Desk => &OF_DESKS,
        _ => &OF_RECIPES,
    }
}

/// The kinds of tables whose names differ from those of this kind, in the order in which they are read.
pub(crate) fn namesakes_of(kind: &TableKind) -> &[TableKind] {
    match kind {
        TableKind::Cell | TableKind::Unit | TableKind::Module | TableKind::Shared => &OF_CELLS,
        TableKind::Input | TableKind::Parameter | TableKind::Output => &VALUES,
        _ => std::slice::from_ref(kind),
    }
}

/// The kinds of tables that declare values.
pub(crate) const VALUES: [TableKind; 3] = [
    TableKind::Input,
    TableKind::Parameter,
    TableKind::Output,
];

/// The kinds of tables that the labels of a chart name, in a table of this kind.
pub(crate) fn kinds_below(kind: TableKind) -> &'static [TableKind] {
    match kind {
        TableKind::Procedure => &[TableKind::UnitProcedure],
        TableKind::UnitProcedure => &[TableKind::Operation],
        _ => &[TableKind::Phase],
    }
}

/// The header of tables of this kind; the top has none.
pub(crate) fn kind_said(alloc: Global, kind: TableKind) -> Result<String, AllocError> {
    match word_of(kind) {
        None => String::from_str(alloc, "the top"),
        Some("procedure") => String::from_str(alloc, "[procedure]"),
        Some(word) => format!(in alloc; "[[{word}]]"),
    }
}
