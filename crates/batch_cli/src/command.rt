//! The requests of the command line.
ghost use Rattle.std.specs.Prelude.{◌≡◌};
ghost use Rattle.batch_cli.specs.declared.command.CommandFault.TheVariants.{Memory};

use crate::comments::Comments;
use crate::plant_options::PlantOptions;
use std::alloc::AllocError;
use thiserror::Error;

/// The request of the words.
#[derive(Drop)]
pub struct CommandWords {
    /// The program is to write no sentence on a refusal.
    pub quiet: bool,
    pub command: Subcommand,
}

/// A command of the program.
#[derive(Drop)]
pub enum Subcommand {
    /// To judge documents.
    Judge(Judgement),
    /// To write the text of a judgement that accepts into the file at this path.
    Write {
        path: String,
        judgement: Judgement,
    },
    /// To serve event lines from standard input over a set.
    Serve(SetSource),
    /// To serve event lines from standard input over a set, with comments in the record.
    Remark {
        source: SetSource,
        comments: Comments,
    },
    /// To serve event lines from standard input over the set of the documents at these paths, with a journal of them in the file at the
    /// first one.
    Keep {
        journal: String,
        cell: String,
        certificate: String,
        recipes: Vec<String>,
        comments: Comments,
    },
    /// To serve several desks.
    ServeDesks(DeskWords),
    /// To report the content of a record: the one at this path, or the one on standard input.
    Status {
        path: Option<String>,
    },
    /// To draw the content of a record: the one at this path, or the one on standard input.
    Picture {
        path: Option<String>,
    },
    /// To compare a record with the record that event lines from standard input give over a set.
    Audit(AuditWords),
    /// To run the plant of a set: its hub in the calling thread, its console and its link to the units in threads of their own.
    Plant {
        source: SetSource,
        options: PlantOptions,
    },
    /// To explain the first code in these texts, or without texts to print the meaning of each code.
    Explain {
        texts: Vec<String>,
    },
}

/// Which desks are to be served.
#[derive(Drop)]
pub struct DeskWords {
    /// The path of the document of the desks.
    pub desks: String,
    /// The path of the document of the cell.
    pub cell: String,
    /// The path of the certificate.
    pub certificate: String,
    /// The paths of the documents of the recipes.
    pub recipes: Vec<String>,
    /// The path of the journal of their lines, if one is to be kept.
    pub journal: Option<String>,
    /// The record is to contain the time of each turn.
    pub times: bool,
}

/// An audit.
#[derive(Drop)]
pub struct AuditWords {
    /// A record that ends too soon is accepted.
    pub beginning: bool,
    /// The path of the record.
    pub path: String,
    /// The source of the set.
    pub source: SetSource,
}

/// A judgement of documents, with their paths.
#[derive(Drop)]
pub enum Judgement {
    /// To find a certificate for the recipes. With `all` every refusal is to be reported, else the first alone.
    Check {
        all: bool,
        cell: String,
        recipes: Vec<String>,
    },
    /// To draw the orders in which the recipes ask for resources.
    Draw {
        all: bool,
        cell: String,
        recipes: Vec<String>,
    },
    /// To check a certificate for the recipes.
    Verify {
        cell: String,
        certificate: String,
        recipes: Vec<String>,
    },
    /// To show the nodes of the recipes.
    Show {
        cell: String,
        recipes: Vec<String>,
    },
}

/// The source of the set that is to be served, or whose plant is to be run.
#[derive(Drop)]
pub enum SetSource {
    /// The documents that are built into the program.
    Demo,
    /// The documents at these paths.
    Documents {
        cell: String,
        certificate: String,
        recipes: Vec<String>,
    },
}

/// Why the words are no command.
#[derive(Debug, Error, Drop)]
pub enum CommandFault {
    /// Help or the version was asked for, with the text of it.
    #[error("{0}")]
    Help(String),
    /// The words are no command, with a text that names their fault.
    #[error("{0}")]
    Usage(String),
    /// Memory ran out while the words were read, or for the text of another fault.
    #[error("out of memory")]
    Memory,
}

impl From<AllocError> for CommandFault {
    ghost from_gives = { λ _ fault. fault ≡ Memory };

    fn from(_error: AllocError) -> CommandFault {
        CommandFault::Memory
    }
}
