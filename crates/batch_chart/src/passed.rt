//! Needs that are held in advance.

/// A need that an act has passed on to a unit procedure, which holds it in advance.
#[derive(Clone, Copy)]
pub(crate) struct Passed {
    /// The node of the unit procedure.
    pub(crate) to: u16,
    /// The node of the act.
    pub(crate) node: u16,
    /// The number of the act's need.
    pub(crate) need: u16,
}
