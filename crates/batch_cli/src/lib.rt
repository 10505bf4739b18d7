//! The words of the program's command line, and the command that they name.
#![tactic(auto)]

mod argument;
mod command;
mod comments;
mod line;
mod plant_options;
mod table;
mod words;

pub use command::{
    AuditWords, CommandFault, CommandWords, DeskWords, Judgement, SetSource, Subcommand,
};
pub use comments::Comments;
pub use line::VERSION;
pub use plant_options::PlantOptions;
pub use words::parse;
