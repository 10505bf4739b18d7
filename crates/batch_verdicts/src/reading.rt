//! Reading a document to its end.
ghost use Rattle.std.specs.Prelude.{◌≡◌, IfOk, IfErr};
ghost use Rattle.batch_verdicts.specs.Bytes.{IsOfReader, IsReadTooFar, IsReadWhole};
ghost use Rattle.batch_verdicts.specs.declared.reading.ReadFault.TheVariants.{Memory};

use std::alloc::{AllocError, Global};
use std::io;
use std::io::{ErrorKind, Read};
use thiserror::Error;

/// The most calls of a reader for one document, interrupted ones among them.
pub const MAX_DOCUMENT_READS: u64 = 2_000_000;

/// The most bytes that one call of the reader may give.
const PIECE_LEN: usize = 16_384;

/// Why a document wasn't read whole.
#[derive(Debug, Error, Drop)]
pub enum ReadFault {
    /// The reader failed for another cause than memory, or an interruption.
    #[error("{0}")]
    Failed(io::Error),
    /// The reader was asked as often as it may be.
    #[error("the file was read as often as it may be")]
    TooManyReads,
    /// There are more bytes than the limit, of which these are the first, one more than the limit at least.
    #[error("the file is too long")]
    Long(Vec<u8>),
    /// There was no memory for the bytes.
    #[error("out of memory")]
    Memory,
}

impl From<AllocError> for ReadFault {
    ghost from_gives = { λ _ fault. fault ≡ Memory };

    fn from(_error: AllocError) -> ReadFault {
        ReadFault::Memory
    }
}

impl From<io::Error> for ReadFault {
    ghost from_gives = { λ _ fault. IsOfReader fault };

    fn from(error: io::Error) -> ReadFault {
        match error.kind() {
            ErrorKind::OutOfMemory => ReadFault::Memory,
            _ => ReadFault::Failed(error),
        }
    }
}

/// All bytes that the reader gives.
///
/// It is asked until it gives none, at most [`MAX_DOCUMENT_READS`] times; a call that is interrupted is made again. Past the limit it is
/// asked no more. No clause counts the calls, or says when [`ReadFault::TooManyReads`] comes.
pub fn read_document<R: Read>(
    alloc: Global,
    reader: &mut R,
    limit: usize,
) -> Result<Vec<u8>, ReadFault>
    // claim: file read whole
    ensures whole { IfOk result (λ bytes. IsReadWhole (R.remaining reader.old) (R.remaining reader.new) limit bytes.items) }
    // claim: file too long
    ensures long { IfErr result (IsReadTooFar (R.remaining reader.old) limit) }
{
    let mut bytes = Vec::new(alloc);
    let mut piece = [0u8; PIECE_LEN];
    for _ in 0..MAX_DOCUMENT_READS {
        match reader.read(&mut piece) {
            Ok(0) => return Ok(bytes),
            Ok(count) => {
                bytes.extend_from_slice(&piece[..count])?;
                if bytes.len() > limit {
                    return Err(ReadFault::Long(bytes));
                }
            }
            Err(error) => {
                if error.kind() != ErrorKind::Interrupted {
                    return Err(ReadFault::from(error));
                }
            }
        }
    }
    Err(ReadFault::TooManyReads)
}
