//! Lists that grow by an item on a condition.
ghost use Rattle.std.specs.Prelude.{◌≡◌, ◌++◌, ◌∷◌, [], if◌then◌else◌, IfOk};

use std::alloc::AllocError;

/// The items, and `item` after them if the flag is set.
pub(crate) fn push_if<T: Drop>(items: Vec<T>, is_told: bool, item: T) -> Result<Vec<T>, AllocError>
    ensures { IfOk result (λ all. all.items ≡ items.items ++ (if is_told then item ∷ [] else [])) }
{
    let mut items = items;
    if is_told {
        items.push(item)?;
    }
    Ok(items)
}
