//! The next event of a console.

/// The next event of a console.
#[derive(Clone, Copy, PartialEq, Eq)]
pub(crate) enum Step {
    Create,
    /// The start of the batch with this number.
    Start(u64),
    /// Nothing, until an answer comes.
    Wait,
}
