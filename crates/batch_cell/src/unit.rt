//! Units.
ghost use Rattle.std.specs.Prelude.{◌≡◌};
ghost use Rattle.batch_cell.specs.LookUps.{is_of_class};

use batch_text::Name;

/// A unit of a cell.
#[derive(Drop)]
pub struct Unit {
    pub name: Name,
    /// The class of units that it is one of. Units of one class may take the same roles.
    pub class: Option<Name>,
}

impl Unit {
    /// Whether it is one of the class.
    // claim: units of a class
    pub fn is_of_class(&self, class: &Name) -> bool
        ensures { result ≡ is_of_class class.now self.now }
    {
        match &self.class {
            None => false,
            Some(own) => *class == *own,
        }
    }
}
