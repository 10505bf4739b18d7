//! Orders to phases.
use batch_matrix::Command;

/// An order to a unit, for a phase that it offers.
#[derive(Clone, Copy)]
pub enum Order {
    /// The phase starts.
    Start,
    /// The live phase is sent a command.
    Send(Command),
}
