//! Look-ups of resources.
ghost use Rattle.std.specs.Prelude.{◌≡◌, ◌<◌, Some, length, nat_eq, position, slice_get, slice_index};
ghost use Rattle.std.specs.Cmp.Lexicographic.{pointwise};
ghost use Rattle.batch_cell.specs.LookUps.{units_of, resources_of, capacities_of};

use crate::cell::Cell;
use batch_text::Name;

impl Cell {
    /// How many units there are. Their numbers as units are their numbers as resources.
    // claim: units and resources
    pub fn units(&self) -> u16
        ensures { result ≡ length (units_of self.now) }
    {
        self.units.len() as u16
    }

    /// How many resources there are.
    // claim: units and resources
    pub fn resources(&self) -> u16
        ensures { result ≡ length (resources_of self.now) }
    {
        self.names.len() as u16
    }

    /// The number of the resource with this name. None if no resource has it.
    // claim: numbers of names
    pub fn resource_of(&self, name: &Name) -> Option<u16>
        ensures { result ≡ position (pointwise nat_eq name.now) (resources_of self.now) }
    {
        let number = self.names.get_index_of(name)?;
        Some(number as u16)
    }

    /// The name of the resource with this number.
    // claim: names of numbers
    pub fn name_of(&self, resource: u16) -> &Name
        requires { resource < length (resources_of self.now) }
        ensures { slice_get (resources_of self.now) resource ≡ Some result.now }
    {
        &self.names[usize::from(resource)]
    }

    /// The capacity of the resource with this number: how many units of capacity may be held at once.
    // claim: names of numbers
    pub fn capacity(&self, resource: u16) -> u32
        requires { resource < length (resources_of self.now) }
        ensures { result ≡ slice_index (capacities_of self.now) resource }
    {
        let number = usize::from(resource);
        let first_shared = self.names.len() - self.shared.len();
        if number < first_shared {
            1
        } else {
            self.shared[number - first_shared].capacity
        }
    }

    /// The number of the unit with this name. None if no unit has it.
    // claim: numbers of names
    pub fn unit_of(&self, name: &Name) -> Option<u16>
        ensures { result ≡ position (pointwise nat_eq name.now) (units_of self.now) }
    {
        match self.names.get_index_of(name) {
            Some(number) if number < self.units.len() => Some(number as u16),
            _ => None,
        }
    }
}
