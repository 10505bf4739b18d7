//! Look-ups of the units of a class.
ghost use Rattle.std.specs.Prelude.{◌≡◌, ◌<◌, [], length, option_map, slice_get};
ghost use Rattle.std.specs.List.{slice_index_or};
ghost use Rattle.std.specs.Option.{ForSome};
ghost use Rattle.batch_cell.specs.LookUps.{units_of, units_of_class};

use crate::cell::Cell;
use batch_text::Name;

impl Cell {
    /// How many units are of the class.
    // claim: units of a class
    pub fn candidates(&self, class: &Name) -> u16
        ensures { result ≡ length (units_of_class self.now class.now) }
    {
        let mut count = 0;
        for unit in &self.units {
            if unit.is_of_class(class) {
                count += 1;
            }
        }
        count
    }

    /// The number of the unit with this index among those of the class. None where the index is past them.
    // claim: units of a class
    pub fn candidate(&self, class: &Name, index: u16) -> Option<u16>
        ensures number { ForSome result (λ unit. unit < length (units_of self.now)) }
        ensures name { option_map (λ unit. slice_index_or (units_of self.now) unit []) result ≡ slice_get (units_of_class self.now class.now) index }
    {
        let mut left = index;
        for number in 0..self.units() {
            if self.units[usize::from(number)].is_of_class(class) {
                if left == 0 {
                    return Some(number);
                }
                left -= 1;
            }
        }
        None
    }
}
