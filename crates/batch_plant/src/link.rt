//! The state of a link.
use crate::answer::Answer;

/// How many batches are still to be completed, which unit is the next to tick, and the answer that is to be reported.
#[derive(Clone, Copy)]
pub(crate) struct Link {
    pub(crate) left: u64,
    pub(crate) next: u16,
    pub(crate) kept: Option<Answer>,
}
