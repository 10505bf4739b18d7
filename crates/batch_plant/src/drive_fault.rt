//! Why driving stopped.
ghost use Rattle.std.specs.Prelude.{◌≡◌};

use batch_wire::WriteFault;
use thiserror::Error;

/// Why driving stopped before its last round.
#[derive(Clone, Copy, Debug, PartialEq, Eq, Error)]
pub enum DriveFault {
    /// The writer failed, or took nothing.
    #[error("the output can't be written")]
    Write,
    /// There was no memory for the names in a report, and the machine wasn't given it.
    #[error("out of memory")]
    Memory,
}

impl From<WriteFault> for DriveFault {
    ghost use Rattle.batch_plant.specs.declared.drive_fault.DriveFault.TheVariants as faults;

    ghost from_gives = { λ _ fault. fault ≡ faults.Write };

    fn from(_fault: WriteFault) -> DriveFault {
        DriveFault::Write
    }
}
