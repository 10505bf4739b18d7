//! The outcome of a turn of the hub.

/// The outcome of a turn of the hub.
#[derive(Clone, Copy)]
pub enum Turned {
    /// No move was possible, and no event was taken.
    Idle,
    /// An event was taken, or moves were made; no further move is possible.
    Handled,
    /// The greatest number of moves of one turn was made, and more are possible.
    MovesLeft,
}
