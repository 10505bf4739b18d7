//! The process cell: its units, equipment modules and shared resources, and look-ups in them.
#![tactic(auto)]

mod cell;
mod classes;
mod index;
mod limits;
mod look_ups;
mod module;
mod phases;
mod shared;
mod unit;

pub use cell::{Cell, MAX_MODULES, MAX_SHARED, MAX_UNITS};
pub use limits::cell_limits_are_fixed;
pub use module::{MAX_PHASES, Module};
pub use shared::{MAX_CAPACITY, Shared};
pub use unit::Unit;
