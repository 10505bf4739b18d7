//! The program carries out the command of its words over files and streams. `main` of the program and of every stored run calls it.
#![tactic(auto)]

mod complaints;
mod desk_keeping;
mod desk_runner;
mod desk_serving;
mod file_pipes;
mod file_writing;
mod first_plan;
mod journal_faults;
mod journals;
mod keeping;
mod laws;
mod limits;
mod patient_gate;
mod plant;
mod plant_runner;
mod process;
mod program;
mod record_audit;
mod record_drawing;
mod record_status;
mod records;
mod statuses;
mod steady_units;
mod threads;

pub use desk_runner::DeskRunner;
pub use file_writing::write_file;
pub use journals::Journals;
pub use keeping::serve_over_journal;
pub use laws::{
    audits_are_true, certificates_are_kept, desks_are_kept, desks_are_safe,
    journalled_serving_is_safe, plants_are_complete, remarked_serving_is_safe, serving_is_safe,
};
pub use limits::{read_limit_is_fixed, turn_limit_is_fixed};
pub use plant::report_of_plant;
pub use plant_runner::PlantRunner;
pub use process::{run_on_files, run_process};
pub use program::{MAX_READS, run_program};
pub use record_audit::audit_record;
pub use record_drawing::{draw_record_at, draw_record_of};
pub use record_status::{print_record_state, print_status};
pub use records::Records;
pub use statuses::serving_status;
pub use threads::{TURNS, ThreadsOf};
