//! A set of recipes that a sentence is on.
use crate::sources::RecipeSource;
use batch_cell::Cell;
use batch_recipe::Recipe;
use std::alloc::Global;

/// The recipes of a set over their cell, with their sources, and the memory for the words on them.
#[derive(Clone, Copy)]
pub(crate) struct Set<'a> {
    pub(crate) alloc: Global,
    pub(crate) cell: &'a Cell,
    pub(crate) recipes: &'a [Recipe],
    pub(crate) sources: &'a [RecipeSource],
}

impl<'a> Set<'a> {
    /// The recipe with this number.
    pub(crate) fn recipe(self, number: u16) -> Option<&'a Recipe> {
        self.recipes.get(usize::from(number))
    }

    /// The source of the recipe with this number.
    pub(crate) fn source(self, number: u16) -> Option<&'a RecipeSource> {
        self.sources.get(usize::from(number))
    }
}
