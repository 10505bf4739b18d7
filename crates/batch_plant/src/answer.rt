//! Answers of units.
use batch_matrix::Report;

/// The answer of a unit to a tick: a report of one of its phases, by number.
#[derive(Clone, Copy)]
pub(crate) struct Answer {
    pub(crate) unit: u16,
    pub(crate) phase: u16,
    pub(crate) word: Report,
}
