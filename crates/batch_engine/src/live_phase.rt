//! Live phases.
use crate::phase_number::PhaseNumber;
use batch_matrix::State;

/// A live phase of a batch.
#[derive(Clone, Copy)]
pub struct LivePhase {
    /// The index of its batch.
    pub index: usize,
    /// The number of the batch's recipe.
    pub recipe: u16,
    pub node: u16,
    pub state: State,
    pub phase: PhaseNumber,
}
