//! How a loop ended.

/// How a loop ended.
#[derive(Clone, Copy)]
pub enum LoopEnd {
    /// The work of the loop is done.
    Done,
    /// An event of a console was refused.
    Refused,
    /// The allowed number of turns was counted.
    TurnsOut,
}
