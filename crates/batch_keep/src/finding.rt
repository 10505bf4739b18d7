//! The finding on a record, or why there is none.
use batch_wire::WriteFault;
use std::io;
use std::io::ErrorKind;
use thiserror::Error;

/// The finding on a record.
#[derive(Clone, Copy)]
pub enum Finding {
    /// The record is that of the lines that were sent.
    Agrees,
    /// The line with this number, from 1 on, is the first that differs from the record of the lines that were sent.
    Differs(u64),
    /// The record ends before the line with this number, or within it.
    EndsBefore(u64),
}

/// Why there is no finding on a record.
#[derive(Clone, Copy, Debug, Error)]
pub enum AuditFault {
    /// The lines that were sent can't be read.
    #[error("the input can't be read")]
    Read,
    /// Memory was refused.
    #[error("out of memory")]
    Memory,
}

impl From<WriteFault> for AuditFault {
    ghost use Rattle.std.specs.Prelude.{⊤};

    ghost from_gives = { λ _ _. ⊤ };

    /// An answer is written to memory.
    fn from(_fault: WriteFault) -> AuditFault {
        AuditFault::Memory
    }
}

impl From<io::Error> for AuditFault {
    ghost use Rattle.std.specs.Prelude.{⊤};

    ghost from_gives = { λ _ _. ⊤ };

    fn from(error: io::Error) -> AuditFault {
        match error.kind() {
            ErrorKind::OutOfMemory => AuditFault::Memory,
            _ => AuditFault::Read,
        }
    }
}
