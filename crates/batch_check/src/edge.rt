//! Edges between resources.

/// The act at a node of a recipe asks for `later`, and `earlier` is asked for before on its path.
#[derive(Clone, Copy, Debug)]
pub struct Edge {
    /// The recipe's number, from 0 in the order given.
    pub recipe: u16,
    /// The node's number, from 0 at the procedure, in the order of places.
    pub node: u16,
    /// The number in the cell of the resource that is asked for before.
    pub earlier: u16,
    /// The number in the cell of the resource that the node's act asks for.
    pub later: u16,
}
