//! Shared resources.
ghost use Rattle.std.specs.Prelude.{◌<◌, ◌≤◌};
ghost use Rattle.batch_cell.specs.declared.shared.TheConstants.{MAX_CAPACITY};

use batch_text::Name;

/// The greatest capacity of a shared resource.
pub const MAX_CAPACITY: u32 = 1000;

/// A shared resource, which stands outside the units.
// claim: formed cells
#[derive(Drop)]
pub struct Shared {
    pub name: Name,
    /// The capacity: how many units of it steps may hold at once, all steps together.
    pub capacity: u32,
    ghost some: { 0 < capacity },
    ghost few: { capacity ≤ MAX_CAPACITY },
}
