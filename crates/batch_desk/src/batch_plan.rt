//! The plan of a batch.
ghost use Rattle.std.specs.Prelude.{◌≡◌, IfOk};
ghost use Rattle.batch_desk.specs.Consoles.{IsSamePlan};

use batch_text::Name;
use std::alloc::{AllocError, Global};

/// The plan of a batch: its recipe, its size, and pairs of a role of the recipe and the unit that is to take it, as a create has them.
#[derive(Drop)]
pub struct BatchPlan {
    /// The name of the recipe.
    pub recipe: Name,
    /// The size of the batch, in the unit of the recipe's basis.
    pub size: u64,
    /// The names of roles, each with that of its unit.
    pub roles: Vec<(Name, Name)>,
}

impl BatchPlan {
    /// An equal plan, with memory of its own. It is refused only if memory is.
    pub(crate) fn copy(&self, alloc: Global) -> Result<BatchPlan, AllocError>
        ensures { IfOk result (IsSamePlan self.now) }
    {
        Ok(BatchPlan {
            recipe: copied(alloc, &self.recipe)?,
            size: self.size,
            roles: copies(alloc, &self.roles)?,
        })
    }
}

/// Equal pairs, with memory of their own.
fn copies(alloc: Global, pairs: &[(Name, Name)]) -> Result<Vec<(Name, Name)>, AllocError>
    ensures { IfOk result (λ copies. copies.items ≡ pairs.now) }
{
    let mut copies = Vec::new(alloc);
    for pair in pairs {
        let role = copied(alloc, &pair.0)?;
        copies.push((role, copied(alloc, &pair.1)?))?;
    }
    Ok(copies)
}

/// An equal name, with memory of its own.
fn copied(alloc: Global, name: &Name) -> Result<Name, AllocError>
    ensures { IfOk result (λ copy. copy ≡ name.now) }
{
    name.copy(alloc).map_err(|_| AllocError)
}
