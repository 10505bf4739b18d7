//! How a thread waits for its ring, and how it learns that it is to end.

/// Waits until a ring may have changed: briefly if work was done of late, else longer.
pub trait Pause {
    /// Waits. Returns false if the thread is to end.
    fn pause(&mut self) -> bool;

    /// Whether the thread is to end.
    fn is_over(&mut self) -> bool;

    /// Notes that work was done since the last wait, so that more may come soon.
    fn note_work(&mut self);
}
