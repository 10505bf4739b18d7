//! Why serving stopped.
ghost use Rattle.std.specs.Prelude.{◌≡◌};

use batch_wire::WriteFault;
use thiserror::Error;

/// Why serving stopped before the input ended.
#[derive(Clone, Copy, Debug, PartialEq, Eq, Error)]
pub enum ServeFault {
    /// The reader failed; or calls of it were interrupted, and so none was left.
    #[error("the input can't be read")]
    Read,
    /// The writer failed, or took nothing.
    #[error("the output can't be written")]
    Write,
    /// Each of the calls that the reader is allowed gave bytes.
    #[error("the input was read as often as it may be")]
    TooManyReads,
}

impl From<WriteFault> for ServeFault {
    ghost use Rattle.batch_serve.specs.declared.fault.ServeFault.TheVariants as faults;

    ghost from_gives = { λ _ fault. fault ≡ faults.Write };

    fn from(_fault: WriteFault) -> ServeFault {
        ServeFault::Write
    }
}

/// Why a cleared set wasn't served to the end of the input.
#[derive(Clone, Copy, Debug, PartialEq, Eq, Error)]
pub enum SetFault {
    /// There was no memory for the engine; nothing was read.
    #[error("out of memory")]
    Memory,
    /// Serving stopped.
    #[error("{0}")]
    Stopped(ServeFault),
}
