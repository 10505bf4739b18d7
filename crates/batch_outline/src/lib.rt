//! The nodes of recipes' expanded trees, a line for each.
#![tactic(auto)]

mod acts;
mod lines;
mod rows;
mod showing;
mod trimming;
mod walk;

pub use rows::{shown_lines, trimmed_acts};
pub use showing::show_recipes;
pub use trimming::drop_idle_charts;
