//! The time of turns.
use std::time::Clock;

/// Whether the record has the time of each turn, and the clock that gives it.
#[derive(Drop)]
pub struct Timing<K: Clock> {
    pub clock: K,
    pub times: bool,
}
