//! Several desks over pipes: the input and the output of each in a thread of its own, and the machine in the thread that calls.
//! Streams that note why they failed.
#![tactic(auto)]

mod cutting;
mod dropping;
mod ending;
mod fault;
mod flag;
mod input;
mod input_order;
mod laws;
mod noted;
mod opening;
mod outcome;
mod output;
mod output_thread;
mod pace;
mod pipes;
mod ports;
mod reading;
mod rest;
mod rounds;
mod serving;
mod tending;
mod times;
mod timing;
mod writing;
mod written;

pub use fault::{DesksFault, PipeFault};
pub use input_order::InputOrder;
pub use laws::{input_rows, output_rows};
pub use noted::Noted;
pub use outcome::OutputOutcome;
pub use output::OutputChild;
pub use pipes::{InputBytes, Outputs, Pipes};
pub use reading::InputTask;
pub use serving::{DesksEnd, serve_desks};
pub use timing::Timing;
pub use writing::OutputTask;
pub use written::Written;
