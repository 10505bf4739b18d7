//! Faults of recipes.
ghost use Rattle.std.specs.Prelude.{◌≡◌};
ghost use Rattle.batch_check.specs.declared.fault.CheckFault.TheVariants.{Memory};

use crate::edge::Edge;
use batch_verify::Broken;
use std::alloc::{AllocError, AllocFailed};
use thiserror::Error;

/// Why no ranking clears recipes for a cell: the first fault in the order of these, or want of memory, if a growth was refused.
#[derive(Debug, Error, Drop)]
pub enum CheckFault {
    /// Two recipes have one name, or there are too many.
    #[error("two recipes have one name, or there are too many")]
    Recipes,
    /// A node of the recipe with this number is the first that breaks a rule.
    #[error("recipe {recipe} breaks a rule: {broken:?}")]
    Recipe {
        /// The recipe's number, from 0 in the order given.
        recipe: u16,
        /// The rule and the node's number.
        broken: Broken,
    },
    /// These edges, which all stand in recipes, lead from a resource back to it, and no resource comes twice. The first comes
    /// from the resource with the least name. No circle has fewer edges.
    #[error("edges lead from a resource back to it: {0:?}")]
    Circle(Vec<Edge>),
    /// Out of memory.
    #[error("out of memory")]
    Memory,
}

impl From<AllocError> for CheckFault {
    ghost from_gives = { λ _ fault. fault ≡ Memory };

    fn from(_error: AllocError) -> CheckFault {
        CheckFault::Memory
    }
}

impl<T: Drop> From<AllocFailed<T>> for CheckFault {
    ghost from_gives = { λ _ fault. fault ≡ Memory };

    fn from(_error: AllocFailed<T>) -> CheckFault {
        CheckFault::Memory
    }
}
