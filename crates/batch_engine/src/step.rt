//! Steps.

use batch_chart::Move;

/// A step of the engine: a move of a batch's chart, or a grant.
#[derive(Clone, Copy)]
pub enum Step {
    /// A move of the batch at this index.
    Own {
        index: usize,
        made: Move,
    },
    /// The act at this node of the batch at this index gets its next need.
    Grant {
        index: usize,
        node: u16,
        resource: u16,
        units: u32,
    },
}
