//! The control recipe of a batch.
ghost use Rattle.std.specs.Prelude.{◌≡◌};
ghost use Rattle.std.proofs.Props.{props};

use batch_recipe::{Entry, Recipe, Values};

/// The control recipe of a batch: the nodes of its master recipe, and the batch's values.
#[derive(Clone, Copy)]
pub(crate) struct ControlRecipe<'a> {
    pub(crate) nodes: &'a [Entry],
    pub(crate) master: &'a Recipe,
    pub(crate) values: &'a Values,
    ghost own: { nodes.now ≡ master.now.outline.entries.items } by { Prim.hlevel props },
}
