//! Recipes that are read one after the other.
ghost use Rattle.std.specs.Prelude.{◌≡◌, [], OnOk};
ghost use Rattle.batch_verdicts.specs.Gathering.{AddsRecipe, HoldsLines};

use crate::sources::Sources;
use crate::warnings::WarningLines;
use batch_outline::drop_idle_charts;
use batch_recipe::Recipe;
use std::alloc::{AllocError, Global};

/// The sentences for a person that are wanted of recipes.
#[derive(Clone, Copy)]
pub(crate) enum Wanted {
    Nothing,
    /// Those of refusals, which name files and lines.
    Refusals,
    /// Those of refusals and of warnings.
    All,
}

impl Wanted {
    /// All, unless quiet is asked for.
    pub(crate) fn unless(quiet: bool) -> Wanted {
        if quiet { Wanted::Nothing } else { Wanted::All }
    }
}

/// A recipe, and the text of its document.
#[derive(Drop)]
pub(crate) struct ReadRecipe {
    pub(crate) text: Vec<u8>,
    pub(crate) recipe: Recipe,
}

/// Recipes, with the sentences for a person beside them, as far as these are wanted.
#[derive(Drop)]
pub(crate) struct ReadRecipes {
    /// Without the charts that no node follows.
    pub(crate) recipes: Vec<Recipe>,
    /// The files and lines of the acts of the recipes.
    pub(crate) sources: Sources,
    /// The lines of the warnings on the recipes.
    pub(crate) lines: WarningLines,
}

impl ReadRecipes {
    /// Nothing is read yet.
    pub(crate) fn new(alloc: Global, wanted: Wanted) -> ReadRecipes
        ensures none { result.recipes.items ≡ [] }
        ensures silent { HoldsLines result.lines [] }
    {
        ReadRecipes {
            recipes: Vec::new(alloc),
            sources: Sources::new(alloc, !matches!(wanted, Wanted::Nothing)),
            lines: WarningLines::new(alloc, matches!(wanted, Wanted::All)),
        }
    }

    /// Appends the recipe of the document at the path, and the lines of its warnings. Then nothing looks at the charts that no node
    /// follows, and they are dropped.
    pub(crate) fn add(
        &mut self,
        alloc: Global,
        path: &str,
        read: ReadRecipe,
    ) -> Result<(), AllocError>
        ensures { OnOk result (AddsRecipe self.old self.new path.now read.recipe) }
    {
        self.sources.add(alloc, path, &read.text)?;
        let mut recipe = read.recipe;
        self.lines.add(alloc, path, &recipe);
        drop_idle_charts(&mut recipe);
        self.recipes.push(recipe)?;
        Ok(())
    }
}
