//! A view of a running chart.

use crate::stage::Stage;
use batch_recipe::{Entry, Recipe};
use batch_signs::Signs;

/// A view of a running chart: the nodes of its recipe, the stage of each, and the signs of its acts.
#[derive(Clone, Copy)]
pub(crate) struct Scene<'a> {
    pub(crate) nodes: &'a [Entry],
    pub(crate) recipe: &'a Recipe,
    pub(crate) stages: &'a [Stage],
    pub(crate) signs: &'a Signs,
}
