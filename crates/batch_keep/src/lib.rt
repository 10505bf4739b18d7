//! Serving over a journal, so that nothing that was answered is lost; and audits, which compare a record with the lines sent.
#![tactic(auto)]

mod auditing;
mod block;
mod counting;
mod desks;
mod finding;
mod holding;
mod record;
mod remarking;
mod replaying;
mod rows;
mod serving;
mod starting;
mod wants;

pub use auditing::audit;
pub use block::{BlockFault, block_rows, recovery_blocks};
pub use desks::desks_are_told_again;
pub use finding::{AuditFault, Finding};
pub use holding::{KeepFault, serve_holding, serve_started};
pub use remarking::serve_started_remarked;
pub use replaying::replay;
pub use rows::audit_rows;
pub use serving::{Journal, serve_in_memory, serve_journalled};
pub use starting::{RecoveredPlant, StartFault, start, start_desks};
