//! The node to which a line refers.

/// A node of a batch's recipe, by the numbers of all three.
#[derive(Clone, Copy)]
pub struct Site {
    pub batch: u64,
    pub recipe: u16,
    pub node: u16,
}
