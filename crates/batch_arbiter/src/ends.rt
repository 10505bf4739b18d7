//! Lists of claims.

/// The ends of a list of claims in the pool.
#[derive(Clone, Copy)]
pub struct Ends {
    /// The number of its first entry.
    pub first: u32,
    /// How many claims it has.
    pub len: u32,
    /// The number of the empty entry behind its last.
    pub end: u32,
}
