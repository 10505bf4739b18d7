//! Verdicts on documents: their texts, the files, the runs of command lines, and the set that is to be served.
#![tactic(auto)]

mod course;
mod demo;
mod desks;
mod digested;
mod documents;
mod drawing;
mod every;
mod files;
mod gathering;
mod judging;
mod laws;
mod limits;
mod reading;
mod refusal;
mod rings;
mod running;
mod saying;
mod sources;
mod taking;
mod texts;
mod warnings;

pub use course::Course;
pub use desks::{DeskSet, clear_desks};
pub use digested::{Digested, clear_digested};
pub use documents::{Documents, clear_documents, show_documents, verify_documents};
pub use drawing::draw_recipes;
pub use every::{check_asked, draw_asked};
pub use files::FilesOf;
pub use judging::{check_recipes, clear_recipes, parse_cell, parse_certificate, parse_recipe};
pub use laws::{sets_stay, statuses_tell};
pub use limits::file_limits_are_fixed;
pub use reading::{MAX_DOCUMENT_READS, ReadFault, read_document};
pub use refusal::{DocumentRefusal, Halt, RefusalKind};
pub use running::{
    FILE_FAULT, NO_MEMORY, OUT_OF_MEMORY, SUCCESS, USAGE, complain, print, print_bytes, run_words,
};
pub use saying::write_and_flush;
pub use texts::{
    certificate_refused, certificate_text, document_text, fault_text, graph_text, refusal_text,
};
