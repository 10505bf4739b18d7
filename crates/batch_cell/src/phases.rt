//! Look-ups of phases.
ghost use Rattle.std.specs.Prelude.{◌≡◌, ◌<◌, ◌≤◌, ◌*◌, length, nat_eq, position, slice_get, option_copied};
ghost use Rattle.std.specs.List.{list_any};
ghost use Rattle.std.specs.Cmp.Lexicographic.{pointwise};
ghost use Rattle.batch_cell.specs.LookUps.{units_of, phases_of};

use crate::cell::{Cell, MAX_MODULES};
use crate::module::MAX_PHASES;
use batch_text::Name;
use indexmap::IndexSet;

impl Cell {
    fn phases_of(&self, unit: u16) -> &IndexSet<Name>
        requires { unit < length (units_of self.now) }
        ensures phases { result.now.keys ≡ phases_of self.now unit }
        ensures few { length (phases_of self.now unit) ≤ MAX_PHASES * MAX_MODULES }
    {
        &self.offered[usize::from(unit)]
    }

    /// Whether the unit offers the phase.
    // claim: phases of a unit
    pub fn offers(&self, unit: u16, phase: &Name) -> bool
        requires { unit < length (units_of self.now) }
        ensures { result ≡ list_any (pointwise nat_eq phase.now) (phases_of self.now unit) }
    {
        self.phases_of(unit).contains(phase)
    }

    /// The number of the phase among those that the unit offers. None if it isn't one of them.
    // claim: phases of a unit
    pub fn phase_number(&self, unit: u16, phase: &Name) -> Option<u16>
        requires { unit < length (units_of self.now) }
        ensures { result ≡ position (pointwise nat_eq phase.now) (phases_of self.now unit) }
    {
        let number = self.phases_of(unit).get_index_of(phase)?;
        Some(number as u16)
    }

    /// The name of the phase with this number among those that the unit offers. None if it offers fewer.
    // claim: phases of a unit
    pub fn phase_name(&self, unit: u16, number: u16) -> Option<&Name>
        requires { unit < length (units_of self.now) }
        ensures { option_copied result ≡ slice_get (phases_of self.now unit) number }
    {
        self.phases_of(unit).get_index(usize::from(number))
    }
}
