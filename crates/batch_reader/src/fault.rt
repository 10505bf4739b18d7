//! Why a document is refused.
ghost use Rattle.std.specs.Prelude.{◌≡◌, Some};
ghost use Rattle.batch_reader.specs.Words.{table_word, spot_text};
ghost use Rattle.batch_reader.specs.declared.fault.TableFault.TheVariants.{Memory};

use std::alloc::{AllocError, AllocFailed};
use std::fmt;
use thiserror::Error;

/// A kind of table of a document. Its word is the key of its tables, and of a top `cell` or `recipe`. A fault at the top
/// of a document of desks is reported of its first desk.
#[derive(Clone, Copy, Debug, PartialEq, Eq)]
pub enum TableKind {
    /// The top of a cell document.
    Cell,
    /// A unit, `[[unit]]`.
    Unit,
    /// An equipment module, `[[module]]`.
    Module,
    /// A shared resource, `[[shared]]`.
    Shared,
    /// The top of a recipe document.
    Recipe,
    /// A process input, `[[input]]`.
    Input,
    /// A process parameter, `[[parameter]]`.
    Parameter,
    /// A process output, `[[output]]`.
    Output,
    /// A role, `[[role]]`.
    Role,
    /// The procedure, `[procedure]`, the one table of its kind.
    Procedure,
    /// A unit procedure, `[[unit_procedure]]`.
    UnitProcedure,
    /// An operation, `[[operation]]`.
    Operation,
    /// A phase step, `[[phase]]`.
    Phase,
    /// A console or an equipment link, `[[desk]]`. Neither a cell nor a recipe has these tables: `read_desks` reads them.
    Desk,
}

impl TableKind {
    /// The word for the kind, as refusals print it.
    // claim: word of a table
    pub fn word(self) -> &'static str
        ensures { result.now ≡ table_word self }
    {
        match self {
            TableKind::Cell => "cell",
            TableKind::Unit => "unit",
            TableKind::Module => "module",
            TableKind::Shared => "shared",
            TableKind::Recipe => "recipe",
            TableKind::Input => "input",
            TableKind::Parameter => "parameter",
            TableKind::Output => "output",
            TableKind::Role => "role",
            TableKind::Procedure => "procedure",
            TableKind::UnitProcedure => "unit_procedure",
            TableKind::Operation => "operation",
            TableKind::Phase => "phase",
            TableKind::Desk => "desk",
        }
    }
}

impl fmt::Display for TableKind {
    // claim: word of a table
    ghost output = { λ kind. Some (table_word kind) };

    fn fmt<W: fmt::Write>(&self, f: &mut fmt::Formatter<W>) -> fmt::Result {
        f.write_str(self.word())
    }
}

/// The table that a fault is in: its kind, and its number among the tables of that kind, from 0.
#[derive(Clone, Copy, Debug, PartialEq, Eq)]
pub struct Spot {
    pub kind: TableKind,
    pub entry: usize,
}

impl fmt::Display for Spot {
    // claim: words of a spot
    ghost output = { λ spot. Some (spot_text spot) };

    fn fmt<W: fmt::Write>(&self, f: &mut fmt::Formatter<W>) -> fmt::Result {
        let Spot { kind, entry } = *self;
        write!(f, "{kind} {entry}")
    }
}

/// The fault of a table.
#[derive(Clone, Copy, Debug, Error)]
pub enum EntryFault {
    /// A key that the table needs is missing: this one (of a unit procedure `unit`, where `role` is missing too). With none, a desk has
    /// neither `input` nor `output`, or the document has no procedure.
    #[error("a key is missing")]
    MissingKey(Option<&'static str>),
    /// The value at this key is of another kind than its key has, is no name, or declares a name that is a word of charts. With no key,
    /// the table isn't there as a table.
    #[error("a value is of the wrong kind, or is no name")]
    WrongKind(Option<&'static str>),
    /// The need of the table with this number, from 0, is none, and each before it is right.
    #[error("need {0} is none")]
    NoNeed(usize),
    /// The table has a key that tables of its kind don't have, as a unit procedure's `unit` beside `role`.
    #[error("a key is unknown here")]
    UnknownKey,
    /// At this key a unit, a role, a label or a value is named that the document doesn't declare; of a desk, a unit that the cell hasn't.
    #[error("a name is not declared")]
    Undeclared(&'static str),
    /// At this key a name stands that an earlier table has, a phase that the unit offers already, or a name twice in a list.
    #[error("a name stands twice")]
    Duplicate(&'static str),
    /// At this key a number, a text's length in bytes or a count is out of its limits, or `min` is above `max`. With no key, the tables,
    /// the nodes of the procedure or the bytes of the document are too many, or the tables too few.
    #[error("a number, a length or a count is out of its limits")]
    OutOfLimit(Option<&'static str>),
    /// The need of the table with this number, from 0, is of no units or of too many, and each before it is right.
    #[error("the units of need {0} are out of their limits")]
    NeedOutOfLimit(usize),
    /// A number of the chart's text is out of its limits: the byte, from 0, at which the first of these begins.
    #[error("the number at byte {0} of the chart is out of its limits")]
    NumberOutOfLimit(usize),
    /// The chart's text is no chart, or has a `par` where none may stand: the byte, from 0, at which this shows.
    #[error("no chart, from byte {0} on")]
    Chart(usize),
}

/// Why a document is refused. Of several faults it is the first that the reader meets.
#[derive(Clone, Copy, Debug, Error)]
pub enum DocFault {
    #[error("not a TOML document")]
    NotToml,
    #[error("{0}: {1}")]
    Entry(Spot, EntryFault),
    #[error("out of memory")]
    Memory,
}

/// Why a table of a document is refused: a fault at its spot, or want of memory on the way.
#[derive(Clone, Copy, Debug, Error)]
pub enum TableFault {
    #[error("{0}: {1}")]
    Entry(Spot, EntryFault),
    #[error("out of memory")]
    Memory,
}

impl From<AllocError> for TableFault {
    ghost from_gives = { λ _ fault. fault ≡ Memory };

    fn from(_error: AllocError) -> TableFault {
        TableFault::Memory
    }
}

impl<T: Drop> From<AllocFailed<T>> for TableFault {
    ghost from_gives = { λ _ fault. fault ≡ Memory };

    fn from(_error: AllocFailed<T>) -> TableFault {
        TableFault::Memory
    }
}
