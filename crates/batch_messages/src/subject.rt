//! The recipe that a sentence is on, and the names that may have been meant in it.
use crate::names::resource_names;
use crate::near::meant_or_known;
use crate::roles::class_of;
use batch_cell::Cell;
use batch_recipe::Recipe;
use batch_text::Name;
use batch_verify::Certificate;
use std::alloc::{AllocError, Global};

/// A recipe over its cell, with the certificate if there is one, and the memory for the words on them.
#[derive(Clone, Copy)]
pub(crate) struct Subject<'a> {
    pub(crate) alloc: Global,
    pub(crate) cell: &'a Cell,
    pub(crate) recipe: &'a Recipe,
    pub(crate) certificate: Option<&'a Certificate>,
}

impl<'a> Subject<'a> {
    /// The rank of the resource by the certificate, or 0 if it has none.
    pub(crate) fn rank_of(self, name: &Name) -> u32 {
        let Some(certificate) = self.certificate else {
            return 0;
        };
        let mut ranks = certificate.ranks.iter();
        match ranks.find(|(ranked, _)| *ranked == *name) {
            Some((_, rank)) => *rank,
            None => 0,
        }
    }

    /// Whether the name is that of a role.
    fn is_role(self, name: &Name) -> bool {
        class_of(self.recipe, name).is_some()
    }

    /// Whether the name is that of a class of units.
    pub(crate) fn is_class(self, name: &Name) -> bool {
        self.cell.candidates(name) > 0
    }

    /// The unit that may have been meant.
    pub(crate) fn meant_unit(self, written: &Name) -> Result<String, AllocError> {
        let alloc = self.alloc;
        if self.is_role(written) {
            format!(in alloc; "; {written} is a role, which stands under the key `role`")
        } else if self.is_class(written) {
            format!(in alloc;
                "; {written} is a class: a [[role]] of it stands for one of its units, and the key `role` names that"
            )
        } else {
            let units = self.cell.units.iter();
            let names = units.map(|unit| unit.name.text()).collect(alloc);
            meant_or_known(alloc, written.text(), names)
        }
    }

    /// The class that may have been meant.
    pub(crate) fn meant_class(self, written: &Name) -> Result<String, AllocError> {
        let alloc = self.alloc;
        if self.cell.unit_of(written).is_some() {
            format!(in alloc; "; {written} is a unit, and the key `class` names the class of units")
        } else {
            meant_or_known(alloc, written.text(), class_names(alloc, self.cell))
        }
    }

    /// The resource that may have been meant.
    pub(crate) fn meant_resource(self, written: &Name) -> Result<String, AllocError> {
        let alloc = self.alloc;
        if self.is_role(written) {
            format!(in alloc; "; {written} is a role, and needs are of units by their own names")
        } else if self.is_class(written) {
            format!(in alloc; "; {written} is a class, and needs are of units by their own names")
        } else if let Some(unit) = unit_with(self.cell, written) {
            format!(in alloc;
                "; {written} is a module of the unit {unit}, and only the unit can be needed"
            )
        } else {
            meant_or_known(alloc, written.text(), resource_names(alloc, self.cell))
        }
    }
}

/// The unit to which the module of this name belongs.
fn unit_with<'a>(cell: &'a Cell, name: &Name) -> Option<&'a Name> {
    let module = cell.modules.iter().find(|module| module.name == *name)?;
    module.unit.as_ref()
}

/// The classes of the units, each once.
fn class_names(alloc: Global, cell: &Cell) -> Result<Vec<&str>, AllocError> {
    let mut names = Vec::new(alloc);
    for class in cell.units.iter().filter_map(|unit| unit.class.as_ref()) {
        if !names.contains(&class.text()) {
            names.push(class.text())?;
        }
    }
    Ok(names)
}
