//! Reading the state at the end of a record.
ghost use Rattle.std.specs.Prelude.{◌≡◌, [], ℕ, IfOk, IfErr, IfSome};
ghost use Rattle.batch_record.specs.Blocks.{Stage};
ghost use Rattle.batch_record.specs.Kept.{Keeps};
ghost use Rattle.batch_record.specs.StatusReading.{IsRefusedAt, LeadsTo};
ghost use Rattle.batch_record.specs.Standings.{Ends, Feeds, HasRead};
ghost use Rattle.batch_record.specs.declared.status_reading.StatusFault.TheVariants as faults;

use crate::course::RecordCourse;
use crate::memory::NoMemory;
use crate::status::Status;
use crate::text::put;
use batch_wire::line_feed;
use std::alloc::Global;
use std::io::{ErrorKind, Read};
use thiserror::Error;

/// How many bytes one call of the reader may give.
const PIECE_LEN: usize = 65_536;

/// Why a record wasn't read.
#[derive(Clone, Copy, Debug, Error)]
pub enum StatusFault {
    /// The line with this number is no line of a record.
    #[error("line {0} is no line of a record")]
    NoRecord(u64),
    /// The reader failed, or calls of it were interrupted until none was left.
    #[error("the record can't be read")]
    Read,
    /// Each of the calls that the reader is allowed gave bytes.
    #[error("the record was read as often as it may be")]
    TooManyReads,
    /// Memory was refused.
    #[error("out of memory")]
    Memory,
}

impl From<NoMemory> for StatusFault {
    ghost from_gives = { λ _ fault. fault ≡ faults.Memory };

    fn from(_fault: NoMemory) -> StatusFault {
        StatusFault::Memory
    }
}

/// A reading in progress: the whole lines so far, and the beginning of the line after them.
#[derive(Drop)]
pub struct Reading {
    pub(crate) course: RecordCourse,
    pub(crate) line: Vec<u8>,
    pub(crate) count: u64,
}

/// Reads a record to its end, in at most so many calls of the reader, and returns the state that it gives. A last line without its
/// line feed is left out.
pub fn read_status<R: Read>(
    alloc: Global,
    reader: &mut R,
    max_reads: u64,
) -> Result<Status, StatusFault>
    // claim: a record read
    ensures told { IfOk result (λ status. IfSome (R.remaining reader.old) (λ input. (stage : Stage) × LeadsTo input stage × Keeps status stage.tale)) }
    // claim: no line of a record
    ensures refused { IfErr result (λ fault. (number : ℕ) → fault ≡ faults.NoRecord number → IfSome (R.remaining reader.old) (λ input. IsRefusedAt input number)) }
{
    let mut reading = Reading::new(alloc);
    let mut piece = [0u8; PIECE_LEN];
    let mut interrupted = false;
    for _ in 0..max_reads {
        match reader.read(&mut piece) {
            Ok(0) => return Ok(reading.course.status),
            Ok(count) => reading.feed(alloc, &piece[..count])?,
            Err(error) if error.kind() == ErrorKind::Interrupted => interrupted = true,
            Err(_) => return Err(StatusFault::Read),
        }
    }
    Err(if interrupted {
        StatusFault::Read
    } else {
        StatusFault::TooManyReads
    })
}

impl Reading {
    fn new(alloc: Global) -> Reading
        ensures { HasRead result [] }
    {
        Reading {
            course: RecordCourse::new(alloc),
            line: Vec::new(alloc),
            count: 0,
        }
    }

    /// Reads the next bytes, and each line that they end.
    fn feed(&mut self, alloc: Global, piece: &[u8]) -> Result<(), StatusFault>
        ensures { Feeds self.old piece.now result self.new }
    {
        let mut rest = piece;
        while let Some(at) = line_feed(rest) {
            self.end_line(alloc, &rest[..at])?;
            rest = &rest[at + 1..];
        }
        Ok(put(&mut self.line, rest)?)
    }

    /// Reads the line that ends with these bytes, and begins the next one.
    fn end_line(&mut self, alloc: Global, end: &[u8]) -> Result<(), StatusFault>
        ensures { Ends self.old end.now result self.new }
    {
        put(&mut self.line, end)?;
        self.count = self.count.saturating_add(1);
        self.course
            .apply_line(alloc, self.line.as_slice(), self.count)?;
        self.line.clear();
        Ok(())
    }
}
