//! The holders of resources of capacity 1.
ghost use Rattle.std.specs.Prelude.{◌≡◌, ◌<◌, IfOk, IfSome, length};
ghost use Rattle.batch_cell.specs.LookUps.{resources_of};
ghost use Rattle.batch_engine.specs.Marking.{noted_by};
ghost use Rattle.batch_engine.specs.Steps.{touched_by};

use crate::line::{ClaimKind, Line};
use batch_cell::Cell;
use std::alloc::{AllocError, Global};

/// No batch, for each resource of the cell.
pub fn no_holders(alloc: Global, cell: &Cell) -> Result<Vec<u64>, AllocError>
    ensures { IfOk result (λ holders. length holders.items ≡ length (resources_of cell.now)) }
{
    let mut holders = Vec::new(alloc);
    for _resource in 0..cell.resources() {
        holders.push(0)?;
    }
    Ok(holders)
}

/// Notes the batch to which the move of a line grants one unit of a resource.
#[inline(always)]
pub fn note_grant(holders: &mut Vec<u64>, line: &Line)
    requires { IfSome (touched_by line.now) (λ resource. resource < length holders.old.items) }
    ensures { holders.new.items ≡ noted_by line.now holders.old.items }
{
    if let Line::Claim {
        kind: ClaimKind::Granted,
        batch,
        resource,
        units: 1,
        ..
    } = *line
    {
        holders[usize::from(resource)] = batch;
    }
}
