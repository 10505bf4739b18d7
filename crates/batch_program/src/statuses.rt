//! The exit status of serving.
ghost use Rattle.std.specs.Prelude.{◌≡◌};
ghost use Rattle.batch_program.specs.Programs.{status_of_serving};

use batch_serve::SetFault;
use batch_verdicts::{FILE_FAULT, NO_MEMORY};

/// The exit status if a journal or a record is refused, or the turns of a plant ran out.
pub(crate) const REFUSED: u8 = 1;

/// The exit status after serving: 0 if the input ran to its end, 3 if a stream failed or the reads ran out, 4 if memory did.
// claim: status of serving
pub fn serving_status(served: Result<usize, SetFault>) -> u8
    ensures { result ≡ status_of_serving served }
{
    match served {
        Ok(_) => 0,
        Err(SetFault::Memory) => NO_MEMORY,
        Err(SetFault::Stopped(_)) => FILE_FAULT,
    }
}
