//! The outcome of the program's words.
use crate::desks::DeskSet;
use crate::digested::Digested;
use batch_cli::{AuditWords, Comments, PlantOptions};
use batch_verify::Cleared;

/// The outcome of the program's words.
#[derive(Drop)]
pub enum Course {
    /// All is written, and the program ends with this exit status.
    Ends(u8),
    /// The program is to write this text into the file at the path, in place of the output.
    Writes {
        path: String,
        text: String,
    },
    /// The program is to serve event lines over this set, and to write nothing beside the record if quiet is asked for.
    Serves {
        set: Cleared,
        quiet: bool,
    },
    /// The set is run, with comments in the record.
    Remarks {
        set: Cleared,
        quiet: bool,
        comments: Comments,
    },
    /// The set, whose documents have these digits, is run with a journal in the file at this path, and with comments in the record or
    /// without them.
    Keeps {
        digested: Digested,
        quiet: bool,
        path: String,
        comments: Comments,
    },
    /// The program is to serve these desks over their set, with a journal in the file at the path if there is one, and with the time
    /// of each turn in the record or without it.
    ServesDesks {
        served: DeskSet,
        quiet: bool,
        journal: Option<String>,
        times: bool,
    },
    /// The program is to report the content of a record: the one at this path, or the one on its input.
    Reads {
        path: Option<String>,
    },
    /// The program is to draw the content of a record: the one at this path, or the one on its input.
    Draws {
        path: Option<String>,
    },
    /// The program is to compare the record that the words name with the record that event lines give over this set.
    Audits {
        set: Cleared,
        audit: AuditWords,
    },
    /// The program is to run a plant of this set.
    Plants {
        set: Cleared,
        options: PlantOptions,
    },
}
