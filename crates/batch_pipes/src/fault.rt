//! The faults of pipes, and of serving.
use batch_serve::{CutReason, TurnFault};
use batch_wire::WriteFault;
use std::alloc::AllocError;
use std::io;
use thiserror::Error;

/// Why the thread of a desk's input or output ended before its time.
#[derive(Clone, Copy, Debug, Error)]
pub enum PipeFault {
    #[error("its input can't be opened: {0}")]
    InputUnopened(io::Error),
    #[error("its input can't be read: {0}")]
    InputFailed(io::Error),
    #[error("its output can't be opened: {0}")]
    OutputUnopened(io::Error),
    #[error("its output can't be written: {0}")]
    OutputFailed(io::Error),
    /// The output takes no bytes, and gives no reason.
    #[error("its output takes nothing")]
    OutputFull,
    /// At the end of serving the output took nothing for a while.
    #[error("its output isn't read")]
    Unread,
    #[error("out of memory")]
    Memory,
    /// The thread was told to end.
    #[error("it was told to end")]
    Over,
}

/// Why serving stopped.
#[derive(Clone, Copy, Debug, Error)]
pub enum DesksFault {
    #[error("out of memory")]
    Memory,
    #[error("a thread can't be started")]
    Thread,
    #[error("the journal can't be written")]
    Journal,
    #[error("the output can't be written")]
    Record,
    /// Serving made as many rounds as it may.
    #[error("the rounds ran out")]
    RoundsOut,
}

impl From<AllocError> for DesksFault {
    fn from(_error: AllocError) -> DesksFault {
        DesksFault::Memory
    }
}

impl From<WriteFault> for DesksFault {
    fn from(_fault: WriteFault) -> DesksFault {
        DesksFault::Record
    }
}

impl From<TurnFault> for DesksFault {
    fn from(fault: TurnFault) -> DesksFault {
        match fault {
            TurnFault::Memory => DesksFault::Memory,
            TurnFault::Journal => DesksFault::Journal,
            TurnFault::Record => DesksFault::Record,
        }
    }
}

/// Why a desk was cut.
#[derive(Clone, Copy, Debug, Error)]
pub(crate) enum Cut {
    #[error("{0}")]
    Pipe(PipeFault),
    #[error("{0}")]
    Told(CutReason),
}
