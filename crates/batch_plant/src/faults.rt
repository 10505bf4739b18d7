//! The choice of the fault that is reported, if there are several.
ghost use Rattle.std.specs.Prelude.{◌≡◌, ◌⊎◌, Ok, IfOk, IfErr};
ghost use Rattle.batch_plant.specs.Faults.{IsFirst, rank_of};

use crate::plant_fault::PlantFault;

impl PlantFault {
    /// Which fault comes first: that of the least rank.
    fn rank(self) -> u8
        ensures { result ≡ rank_of self }
    {
        match self {
            PlantFault::Memory => 0,
            PlantFault::Thread => 1,
            PlantFault::Refused => 2,
            PlantFault::TurnsOut => 3,
            PlantFault::Unclosed => 4,
        }
    }
}

/// Both results, or the fault that comes first.
// claim: fault of a plant
pub(crate) fn both<A: Drop, B: Drop>(
    one: Result<A, PlantFault>,
    other: Result<B, PlantFault>,
) -> Result<(A, B), PlantFault>
    ensures one { IfOk result (λ both. one ≡ Ok both.0) }
    ensures other { IfOk result (λ both. other ≡ Ok both.1) }
    ensures first { IfErr result (λ fault. IsFirst fault one other) }
{
    match (one, other) {
        (Ok(one), Ok(other)) => Ok((one, other)),
        (Err(fault), Ok(_)) => Err(fault),
        (Ok(_), Err(fault)) => Err(fault),
        (Err(fault), Err(later)) if fault.rank() <= later.rank() => Err(fault),
        (Err(_), Err(fault)) => Err(fault),
    }
}
