//! A plant: a hub in the thread that calls, and a console and a link to the units of the cell, in threads of their own. And driving, by
//! which one thread runs an engine and its units.
#![tactic(auto)]

mod answer;
mod cell_units;
mod closing;
mod console_thread;
mod drive_fault;
mod driving;
mod ending;
mod faults;
mod flag;
mod handling;
mod hub_running;
mod link;
mod link_thread;
mod linking;
mod opening;
mod ordering;
mod parts;
mod plant_end;
mod plant_fault;
mod plant_gates;
mod plant_rests;
mod plant_task;
mod reporting;
mod running;
mod unit_phases;

pub use cell_units::CellUnits;
pub use drive_fault::DriveFault;
pub use driving::drive;
pub use linking::link_loop;
pub use plant_end::PlantEnd;
pub use plant_fault::PlantFault;
pub use plant_gates::PlantGates;
pub use plant_rests::PlantRests;
pub use plant_task::PlantTask;
pub use running::plant_run;
