//! The definitions of the machine, in `specs/`: the rest of a recipe while a batch runs, the plant, its moves and events, the
//! records that they lead to, and the safety of a record.
//!
//! Nothing runs here, and nothing is proved but the limits and small lemmas: the laws of these definitions are in batch_step_laws, batch_record_laws
//! and batch_safety, their worked rows in batch_examples.
#![tactic(auto)]

mod limits;

pub use limits::{LAST_NUMBER, MAX_LIVE_BATCHES, MAX_RECIPES, limits_are_fixed};
