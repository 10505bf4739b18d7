//! How loops end.
ghost use Rattle.std.specs.Prelude.{◌≡◌, Err, IfOk};
ghost use Rattle.batch_desk.specs.declared.loop_end.LoopEnd.TheVariants as loop;
ghost use Rattle.batch_plant.specs.declared.plant_fault.PlantFault.TheVariants as fault;

use crate::plant_fault::PlantFault;
use batch_desk::LoopEnd;

/// The part at which a loop worked, if it ran to its end.
// claim: fault of a plant
pub(crate) fn ended<T: Drop>(part: T, end: LoopEnd) -> Result<T, PlantFault>
    ensures done { IfOk result (λ ran. (ran ≡ part) × (end ≡ loop.Done)) }
    ensures refused { (end ≡ loop.Refused) → (result ≡ Err fault.Refused) }
    ensures turns { (end ≡ loop.TurnsOut) → (result ≡ Err fault.TurnsOut) }
{
    match end {
        LoopEnd::Done => Ok(part),
        LoopEnd::Refused => Err(PlantFault::Refused),
        LoopEnd::TurnsOut => Err(PlantFault::TurnsOut),
    }
}
