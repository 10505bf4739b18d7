//! Event lines and record lines.
#![tactic(auto)]

mod create_line;
mod event_line;
mod fault;
mod known_places;
mod line_ends;
mod line_room;
mod names;
mod pairs;
mod places;
mod putting;
mod quick_lines;
mod recipe_places;
mod record_line;
mod record_words;
mod report_line;
mod rows;
mod site;
mod steps;
mod words;
mod writing;

pub use event_line::{MAX_LINE_LEN, command_of, read_event};
pub use fault::{WireFault, WriteFault};
pub use known_places::KnownPlaces;
pub use line_ends::line_feed;
pub use record_line::{add_out, write_out, write_waiting};
pub use report_line::{MAX_PAIRS, word_of_report};
pub use rows::{create_lines, line_limits_are_fixed, record_lines};
pub use writing::write_all;
