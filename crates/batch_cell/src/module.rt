//! Equipment modules.
ghost use Rattle.std.specs.Prelude.{◌≡◌, ◌<◌, ◌≤◌, length, IsSome, IsNone};
ghost use Rattle.batch_cell.specs.declared.module.TheConstants.{MAX_PHASES};

use batch_text::Name;

/// The most phases of an equipment module.
pub const MAX_PHASES: usize = 32;

/// An equipment module. One that belongs to no unit is a free module: a resource of its own, without phases.
// claim: formed cells
#[derive(Drop)]
pub struct Module {
    pub name: Name,
    /// The unit that the module belongs to.
    pub unit: Option<Name>,
    /// The phases that the module lets its unit offer, in order of declaration.
    pub phases: Vec<Name>,
    ghost some_phase: { IsSome unit → 0 < length phases.items },
    ghost no_phase: { IsNone unit → length phases.items ≡ 0 },
    ghost few_phases: { length phases.items ≤ MAX_PHASES },
}

impl Module {
    ghost use Rattle.batch_cell.specs.Equipment.{belongs_to};

    /// Whether it belongs to the unit.
    // claim: modules of a unit
    pub fn belongs_to(&self, unit: &Name) -> bool
        ensures { result ≡ belongs_to unit.now self.now }
    {
        match &self.unit {
            None => false,
            Some(own) => *own == *unit,
        }
    }
}
