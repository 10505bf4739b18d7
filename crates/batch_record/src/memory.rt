//! Memory that is refused, and names and places that take it.
ghost use Rattle.std.specs.Prelude.{◌≡◌, ⊤, IfOk};
ghost use Rattle.batch_text.specs.PlaceText.{numbers_of};

use batch_text::{Name, Place};
use std::alloc::{AllocError, Global};
use thiserror::Error;

/// Memory was refused.
#[derive(Clone, Copy, Debug, Error)]
#[error("out of memory")]
pub struct NoMemory;

impl From<AllocError> for NoMemory {
    ghost from_gives = { λ _ _. ⊤ };

    fn from(_error: AllocError) -> NoMemory {
        NoMemory
    }
}

/// The name in a line of a record.
pub(crate) fn read_name(alloc: Global, bytes: &[u8]) -> Result<Name, NoMemory>
    ensures { IfOk result (λ name. name ≡ bytes.now) }
{
    Name::read(alloc, bytes).map_err(|_| NoMemory)
}

/// The place in a line of a record.
pub(crate) fn read_place(alloc: Global, bytes: &[u8]) -> Result<Place, NoMemory>
    ensures { IfOk result (λ place. place ≡ numbers_of bytes.now) }
{
    Place::read(alloc, bytes).map_err(|_| NoMemory)
}
