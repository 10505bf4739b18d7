//! The documents of recipes, for sentences.
use batch_messages::RecipeSource;
use std::alloc::{AllocError, Global};

/// The files and lines of the acts of recipes, which only sentences name. None are kept if no sentence is wanted.
#[derive(Drop)]
pub(crate) struct Sources {
    kept: Vec<RecipeSource>,
    are_wanted: bool,
}

impl Sources {
    /// Nothing is kept yet.
    pub(crate) fn new(alloc: Global, are_wanted: bool) -> Sources {
        Sources {
            kept: Vec::new(alloc),
            are_wanted,
        }
    }

    /// Keeps the source of the document at the path, if sources are wanted.
    pub(crate) fn add(
        &mut self,
        alloc: Global,
        path: &str,
        document: &[u8],
    ) -> Result<(), AllocError> {
        if self.are_wanted {
            self.kept.push(RecipeSource::of(alloc, path, document)?)?;
        }
        Ok(())
    }

    /// Those that are kept, in the order of the recipes.
    pub(crate) fn kept(&self) -> &[RecipeSource] {
        &self.kept
    }
}
