//! The needs of acts.
use batch_text::Name;

/// The most units of a capacity that one need asks for.
pub const MAX_NEED_UNITS: u32 = 1_000;

/// A number of units of a resource's capacity, which are granted and released at once.
#[derive(Drop)]
pub struct Need {
    /// The resource's name.
    pub resource: Name,
    /// How many units of its capacity.
    pub units: u32,
}
