//! Conditions of nodes, with the positions of the values that they name.
ghost use Rattle.std.specs.Prelude.{◌≡◌};
ghost use Rattle.batch_recipe.specs.Conditions.{holds};

use crate::condition::{Condition, Term};
use crate::values::Values;
use batch_text::Name;
use indexmap::IndexSet;
use std::marker::Model;

/// The condition of a node, and the positions at which a batch of the recipe has the values that it names.
pub struct NodeCondition {
    cond: Condition,
    left: usize,
    right: usize,
}

impl Model for NodeCondition {
    ghost use Rattle.batch_recipe.specs.declared.condition.Condition.{Condition};

    ghost Value = { Condition };

    ghost view = { λ node. node.cond };
}

impl Drop for NodeCondition {
    fn drop(self) {
        let NodeCondition {
            cond: _,
            left: _,
            right: _,
        } = self;
    }
}

/// The position of the name among those of the recipe's values, looked for at the guess first. A name that isn't there gets 0, which costs
/// a search.
fn position_of(values: &IndexSet<Name>, guess: usize, name: &Name) -> usize {
    match values.as_slice().get(guess) {
        Some(guessed) if *guessed == *name => guess,
        _ => values.get_index_of(name).unwrap_or(0),
    }
}

impl NodeCondition {
    /// The condition, with the positions of its names among those of the recipe's values. They are looked for where those of the condition
    /// before are.
    pub(crate) fn new(
        cond: Condition,
        values: &IndexSet<Name>,
        before: Option<&NodeCondition>,
    ) -> NodeCondition
        ensures { result ≡ cond }
    {
        let (first, second) = match before {
            Some(before) => (before.left, before.right),
            None => (0, 0),
        };
        let left = position_of(values, first, &cond.name);
        let right = match &cond.term {
            Term::Named(name) => position_of(values, second, name),
            Term::Number(_) => 0,
        };
        NodeCondition { cond, left, right }
    }

    /// Whether the condition holds for the values, where a name without a value counts as 0.
    // claim: conditions
    pub fn holds(&self, values: &Values) -> bool
        ensures { result ≡ holds values.now self.now }
    {
        let left = values.value_from(self.left, &self.cond.name).unwrap_or(0);
        let right = match &self.cond.term {
            Term::Named(name) => values.value_from(self.right, name).unwrap_or(0),
            Term::Number(number) => *number,
        };
        self.cond.op.compares(left, right)
    }
}
