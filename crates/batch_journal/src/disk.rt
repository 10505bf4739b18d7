//! The disk of a journal, and the bytes that were given on.
ghost use Rattle.std.specs.Prelude.{◌≡◌, ◌≤◌, ◌++◌, [], List, ℕ, OnOk, OnErr, IfOk, length, take};
ghost use Rattle.batch_journal.specs.Disks.{Left, MayLeave, MayCut, Elapses};

use std::alloc::Global;
use std::io;
use std::io::ErrorKind;
use thiserror::Error;

/// Why a call of a disk failed. How much of its work it did isn't known, so the next start recovers the file.
#[derive(Clone, Copy, Debug, Error)]
pub enum DiskError {
    /// The file can't be read, written, cut or synced.
    #[error("the journal can't be read, written or synced")]
    File,
    /// There was no memory for the bytes.
    #[error("out of memory")]
    Memory,
}

impl From<DiskError> for io::Error {
    fn from(fault: DiskError) -> io::Error {
        io::Error::from(match fault {
            DiskError::File => ErrorKind::Other,
            DiskError::Memory => ErrorKind::OutOfMemory,
        })
    }
}

/// A file that is read once, cut and then appended to, with a clock of the moments at which a crash may come.
///
/// The clauses are of a value that has behaved as a disk: it keeps all synced bytes, and any part of the bytes
/// written behind them, in which each byte is the written one or zero.
pub trait Disk {
    /// The value has behaved as a disk so far. Nobody can prove this of a real file.
    ghost is_disk: { Self → Type 0 };

    /// The bytes that are synced.
    ghost durable: { Self → List ℕ };

    /// The bytes that a read returns.
    ghost seen: { Self → List ℕ };

    /// The bytes that were given on.
    ghost given: { Self → List ℕ };

    /// The moment, as a number that doesn't fall.
    ghost moment: { Self → ℕ };

    /// The files that a crash at some moment from that one on might have left, during a call or between two.
    ghost left_since: { Self → ℕ → Left → Type 0 };

    /// All the bytes of the file.
    fn read(&mut self, alloc: Global) -> Result<Vec<u8>, DiskError>
        ensures bytes { is_disk self.new → IfOk result (λ bytes. bytes.items ≡ seen self.old) }
        ensures others { is_disk self.new → (durable self.new ≡ durable self.old) × (seen self.new ≡ seen self.old) × (given self.new ≡ given self.old) }
        ensures stays { is_disk self.new → is_disk self.old }
        ensures time { is_disk self.new → Elapses (moment self.old) (moment self.new) (left_since self.old) (left_since self.new) (MayLeave (durable self.old) (seen self.old) (given self.old)) };

    /// Cuts a synced file to a length, and syncs it.
    fn cut(&mut self, len: usize) -> Result<(), DiskError>
        requires { is_disk self.old → (len ≤ length (seen self.old)) × (durable self.old ≡ seen self.old) }
        ensures cut { is_disk self.new → OnOk result ((seen self.new ≡ take len (seen self.old)) × (durable self.new ≡ take len (seen self.old)) × (given self.new ≡ given self.old)) }
        ensures given { is_disk self.new → given self.new ≡ given self.old }
        ensures stays { is_disk self.new → is_disk self.old }
        ensures time { is_disk self.new → Elapses (moment self.old) (moment self.new) (left_since self.old) (left_since self.new) (MayCut len (seen self.old) (given self.old)) };

    /// Writes behind the file's end.
    fn append(&mut self, bytes: &[u8]) -> Result<(), DiskError>
        ensures written { is_disk self.new → OnOk result (seen self.new ≡ seen self.old ++ bytes.now) }
        ensures others { is_disk self.new → OnOk result ((durable self.new ≡ durable self.old) × (given self.new ≡ given self.old)) }
        ensures given { is_disk self.new → given self.new ≡ given self.old }
        ensures stays { is_disk self.new → is_disk self.old }
        ensures time { is_disk self.new → Elapses (moment self.old) (moment self.new) (left_since self.old) (left_since self.new) (MayLeave (durable self.old) (seen self.old ++ bytes.now) (given self.old)) };

    /// Syncs the file. After that, a crash leaves the bytes that a read returns.
    fn sync(&mut self) -> Result<(), DiskError>
        ensures synced { is_disk self.new → OnOk result (durable self.new ≡ seen self.old) }
        ensures others { is_disk self.new → OnOk result ((seen self.new ≡ seen self.old) × (given self.new ≡ given self.old)) }
        ensures given { is_disk self.new → given self.new ≡ given self.old }
        ensures stays { is_disk self.new → is_disk self.old }
        ensures time { is_disk self.new → Elapses (moment self.old) (moment self.new) (left_since self.old) (left_since self.new) (MayLeave (durable self.old) (seen self.old) (given self.old)) };

    /// Notes bytes that are about to be given on. A file does nothing at it.
    fn mark_given(&mut self, bytes: &[u8]) -> Result<(), DiskError>
        ensures given { is_disk self.new → OnOk result (given self.new ≡ given self.old ++ bytes.now) }
        ensures others { is_disk self.new → OnOk result ((durable self.new ≡ durable self.old) × (seen self.new ≡ seen self.old)) }
        ensures not_given { is_disk self.new → OnErr result (given self.new ≡ given self.old) }
        ensures stays { is_disk self.new → is_disk self.old }
        ensures time { is_disk self.new → Elapses (moment self.old) (moment self.new) (left_since self.old) (left_since self.new) (MayLeave (durable self.old) (seen self.old) (given self.old ++ bytes.now)) };

    /// This moment is one of those since an earlier one.
    ghost counts_now: { (disk : Self) (t : ℕ) (left : Left) → is_disk disk → t ≤ moment disk → MayLeave (durable disk) (seen disk) (given disk) left → left_since disk t left };

    /// Since this moment there is no other.
    ghost only_now: { (disk : Self) (left : Left) → is_disk disk → left_since disk (moment disk) left → MayLeave (durable disk) (seen disk) (given disk) left };
}
