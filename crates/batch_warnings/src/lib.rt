//! Parts of a cell and of its recipes that are accepted though they can hardly be meant so.
#![tactic(auto)]

mod adding;
mod cells;
mod labels;
mod mentions;
mod recipes;
mod warning;

pub use cells::units_without_modules;
pub use recipes::recipe_warnings;
pub use warning::{QuantityTable, RecipeWarning};
