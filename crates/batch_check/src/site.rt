//! A recipe in a cell, whose edges are collected.
ghost use Rattle.std.specs.Prelude.{◌≡◌, IfOk};
ghost use Rattle.batch_check.specs.Sites.{count_with_roles, number_of, numbers_of};

use batch_cell::Cell;
use batch_recipe::Recipe;
use batch_set::{LinkedNeed, Source};
use std::alloc::{AllocError, Global};

/// A recipe in a cell.
#[derive(Clone, Copy)]
pub(crate) struct Site<'a> {
    pub(crate) cell: &'a Cell,
    pub(crate) recipe: &'a Recipe,
}

impl Site<'_> {
    /// How many resources the cell has, and roles the recipe.
    pub(crate) fn count_with_roles(&self) -> u16
        ensures { result ≡ count_with_roles self.now }
    {
        self.cell.resources() + self.recipe.roles.len() as u16
    }

    /// The number of the source's resource, or of its role. The numbers of roles come after those of the resources.
    pub(crate) fn number_of(&self, source: Source) -> Option<u16>
        ensures { result ≡ number_of self.now source }
    {
        match source {
            Source::Resource(number) => Some(number),
            Source::Role(number) => Some(self.cell.resources() + u16::from(number)),
            Source::Unknown => None,
        }
    }

    /// The numbers of these needs, in their order.
    pub(crate) fn numbers_of(
        &self,
        alloc: Global,
        needs: &[LinkedNeed],
    ) -> Result<Vec<Option<u16>>, AllocError>
        ensures { IfOk result (λ numbers. numbers.items ≡ numbers_of self.now needs.now) }
    {
        let mut numbers = Vec::with_capacity(alloc, needs.len())?;
        for need in needs {
            numbers.push(self.number_of(need.source))?;
        }
        Ok(numbers)
    }
}
