//! The faults of a turn, and the reasons to cut a desk.
ghost use Rattle.std.specs.Prelude.{◌≡◌};

use crate::keep::PersistFault;
use batch_wire::WriteFault;
use std::alloc::AllocError;
use thiserror::Error;

/// Why a server cuts a desk.
#[derive(Clone, Copy, Debug, Error)]
pub enum CutReason {
    /// More lines were queued for it than may be.
    #[error("too many lines wait for it")]
    Lag,
    /// There was no memory to queue a line.
    #[error("there is no memory for a line that waits for it")]
    Memory,
}

/// Why a turn ended before lines were queued for its desks. Serving must end then.
#[derive(Clone, Copy, Debug, Error)]
pub enum TurnFault {
    /// There was no memory, or a line that is to be replayed was refused for want of it.
    #[error("out of memory")]
    Memory,
    /// The lines couldn't be kept, or are to be replayed and aren't whole.
    #[error("the journal can't be written")]
    Journal,
    /// The record couldn't be written.
    #[error("the record can't be written")]
    Record,
}

impl From<AllocError> for TurnFault {
    ghost use Rattle.batch_serve.specs.declared.desks_fault.TurnFault.TheVariants as faults;

    ghost from_gives = { λ _ fault. fault ≡ faults.Memory };

    fn from(_error: AllocError) -> TurnFault {
        TurnFault::Memory
    }
}

impl From<PersistFault> for TurnFault {
    ghost use Rattle.batch_serve.specs.declared.desks_fault.TurnFault.TheVariants as faults;

    ghost from_gives = { λ _ fault. fault ≡ faults.Journal };

    fn from(_fault: PersistFault) -> TurnFault {
        TurnFault::Journal
    }
}

impl From<WriteFault> for TurnFault {
    ghost use Rattle.batch_serve.specs.declared.desks_fault.TurnFault.TheVariants as faults;

    ghost from_gives = { λ _ fault. fault ≡ faults.Record };

    fn from(_fault: WriteFault) -> TurnFault {
        TurnFault::Record
    }
}
