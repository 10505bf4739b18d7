//! The linked set: recipes by the numbers of the resources, units and phases that their acts name in a cell.
//!
//! Linking never refuses: a name that stands for nothing has the source `Unknown`.
#![tactic(auto)]

mod cell_phases;
mod laws;
mod linked;
mod linked_set;
mod linking;

pub use cell_phases::CellPhases;
pub use laws::{candidates_say_names, needs_say_names, phases_say_names, units_say_names};
pub use linked::{LinkedNeed, LinkedRecipe, Source};
pub use linked_set::LinkedSet;
pub use linking::link;
