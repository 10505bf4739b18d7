//! Ranks by name.
ghost use Rattle.std.specs.Prelude.{◌≡◌, length, IfOk};
ghost use Rattle.batch_cell.specs.LookUps.{resources_of};
ghost use Rattle.batch_check.specs.ByName.{IsCertificateOf};

use batch_cell::Cell;
use batch_text::Name;
use std::alloc::{AllocError, Global};

/// The name of each resource with its rank, in order of name. The ranks are given by the resources' numbers.
pub(crate) fn ranks_by_name(
    alloc: Global,
    cell: &Cell,
    ranks: &[u32],
) -> Result<Vec<(Name, u32)>, AllocError>
    requires { length ranks.now ≡ length (resources_of cell.now) }
    ensures { IfOk result (λ entries. IsCertificateOf cell.now ranks.now entries.items) }
{
    let mut entries = Vec::new(alloc);
    for resource in 0..cell.resources() {
        let name = copied(alloc, cell.name_of(resource))?;
        entries.push((name, ranks[usize::from(resource)]))?;
    }
    entries.sort_unstable();
    Ok(entries)
}

/// A copy of the name. It fails for want of memory alone.
fn copied(alloc: Global, name: &Name) -> Result<Name, AllocError>
    ensures { IfOk result (λ copy. copy ≡ name.now) }
{
    match name.copy(alloc) {
        Ok(copy) => Ok(copy),
        Err(_) => Err(AllocError),
    }
}
