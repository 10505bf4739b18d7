//! The groups of a run, each of which is in the journal, and synced, before any of its lines is given on.
ghost use Rattle.std.specs.Prelude.{◌≡◌, ◌≤◌, ◌-◌, ℕ, List, [], ◌++◌, length, take, drop, true, false, OnOk, OnErr, IsTrue};
ghost use Rattle.batch_journal.specs.Journals.{sum_text};
ghost use Rattle.batch_journal.specs.Lines.{AreLines, whole_lines_before_zero};
ghost use Rattle.batch_journal.specs.Readers.{HasRecalled, IsGroup, IsJournalKept, IsWhole, not_given};

use crate::disk::{Disk, DiskError};
use crate::group::write_group;
use crate::lines::{are_whole_lines, has_own};
use crate::run::JournalRun;
use crate::sum::Sum;
use std::marker::PhantomData;
use std::time::Clock;

/// Appends groups of lines to a journal. A crash at any moment leaves the lines from before, and all that was given on by then.
///
/// After a call of the disk failed each further one fails.
#[derive(Drop)]
pub struct Groups<D: Disk, K: Clock, C: JournalRun> {
    pub(crate) disk: D,
    clock: K,
    sum: Sum,
    // how many bytes of the lines in the journal weren't given on yet
    pub(crate) ready: usize,
    pub(crate) failed: bool,
    of: PhantomData<C>,
    ghost none_ready: { failed ≡ true → ready ≡ 0 },
    ghost kept: { D.is_disk disk → failed ≡ false → IsJournalKept C.documents C.base (D.durable disk) (D.seen disk) (D.given disk) (not_given C.documents C.base (D.seen disk) (D.given disk)) (sum_text sum) },
    ghost rest: { D.is_disk disk → failed ≡ false → length (not_given C.documents C.base (D.seen disk) (D.given disk)) ≡ ready },
    // claim: whole lines are given
    ghost whole: { D.is_disk disk → IsWhole (D.given disk) },
    // claim: lines are kept
    ghost recalled: { D.is_disk disk → HasRecalled C.documents C.base C.since (D.moment disk) (D.left_since disk) },
    ghost stays: { D.is_disk disk → ∥ C.was ∥₁ },
}

impl<D: Disk, K: Clock, C: JournalRun> Groups<D, K, C> {
    /// The groups of a run over a disk that recovery left, with the sum that it found. The clock's time stands in the closing lines; nothing
    /// is claimed of it.
    pub fn new(disk: D, clock: K, sum: Sum) -> Groups<D, K, C>
        requires at_rest { D.is_disk disk → IsJournalKept C.documents C.base (D.durable disk) (D.seen disk) (D.given disk) [] (sum_text sum) }
        requires whole { D.is_disk disk → IsWhole (D.given disk) }
        requires recalled { D.is_disk disk → HasRecalled C.documents C.base C.since (D.moment disk) (D.left_since disk) }
        requires was { D.is_disk disk → C.was }
        ensures disk { result.disk ≡ disk }
        ensures ready { result.ready ≡ 0 }
    {
        Groups {
            disk,
            clock,
            sum,
            ready: 0,
            failed: false,
            of: PhantomData,
        }
    }

    /// Keeps whole lines as one group: they are synced, and given on.
    ///
    /// The error is that this or an earlier call of the disk failed, that they aren't whole lines, or that one of them is a closing
    /// line. Then nothing is given on.
    // claim: kept and given (kept, unkept)
    pub fn persist(&mut self, lines: &[u8]) -> Result<(), DiskError>
        ensures kept { D.is_disk self.new.disk → OnOk result (D.given self.new.disk ≡ D.given self.old.disk ++ lines.now) }
        ensures unkept { D.is_disk self.new.disk → OnErr result (D.given self.new.disk ≡ D.given self.old.disk) }
        ensures stays { D.is_disk self.new.disk → D.is_disk self.old.disk }
    {
        if self.failed || self.ready > 0 || !is_group(lines) {
            return Err(DiskError::File);
        }
        self.write(lines)?;
        self.mark_given(lines)
    }

    /// The disk. A crash at any moment of the run leaves all that was given on by then.
    // claim: whole lines are given (whole, lines)
    pub fn into_disk(self) -> D
    where
        K: Drop,
        ensures disk { result ≡ self.disk }
        ensures whole { D.is_disk result → IsWhole (D.given result) }
        ensures lines { D.is_disk result → AreLines (whole_lines_before_zero (D.given result)) }
        // claim: lines are kept
        ensures recalled { D.is_disk result → HasRecalled C.documents C.base C.since (D.moment result) (D.left_since result) }
        ensures stays { D.is_disk result → ∥ C.was ∥₁ }
    {
        self.disk
    }

    /// Writes whole lines as one group, and syncs it.
    pub(crate) fn write(&mut self, lines: &[u8]) -> Result<(), DiskError>
        requires works { self.old.failed ≡ false }
        requires all_given { self.old.ready ≡ 0 }
        requires lines { IsGroup lines.now }
        ensures ready { OnOk result ((self.new.failed ≡ false) × (self.new.ready ≡ length lines.now)) }
        ensures failed { OnErr result (self.new.failed ≡ true) }
        ensures lines { D.is_disk self.new.disk → OnOk result (not_given C.documents C.base (D.seen self.new.disk) (D.given self.new.disk) ≡ lines.now) }
        ensures given { D.is_disk self.new.disk → D.given self.new.disk ≡ D.given self.old.disk }
        ensures stays { D.is_disk self.new.disk → D.is_disk self.old.disk }
    {
        let sum = self.sum.next(lines);
        let milliseconds = milliseconds_of(&self.clock);
        self.failed = true;
        write_group(&mut self.disk, lines, &sum, milliseconds)?;
        self.failed = false;
        self.sum = Sum::Group(sum);
        self.ready = lines.len();
        Ok(())
    }

    /// Notes that the next of the lines in the journal are given on.
    pub(crate) fn mark_given(&mut self, lines: &[u8]) -> Result<(), DiskError>
        requires works { self.old.failed ≡ false }
        requires within { length lines.now ≤ self.old.ready }
        requires next { D.is_disk self.old.disk → take (length lines.now) (not_given C.documents C.base (D.seen self.old.disk) (D.given self.old.disk)) ≡ lines.now }
        requires whole { IsWhole lines.now }
        ensures ready { OnOk result ((self.new.failed ≡ false) × (self.new.ready ≡ self.old.ready - length lines.now)) }
        ensures failed { OnErr result (self.new.failed ≡ true) }
        ensures rest { D.is_disk self.new.disk → OnOk result (not_given C.documents C.base (D.seen self.new.disk) (D.given self.new.disk)
            ≡ drop (length lines.now) (not_given C.documents C.base (D.seen self.old.disk) (D.given self.old.disk))) }
        ensures given { D.is_disk self.new.disk → OnOk result (D.given self.new.disk ≡ D.given self.old.disk ++ lines.now) }
        ensures ungiven { D.is_disk self.new.disk → OnErr result (D.given self.new.disk ≡ D.given self.old.disk) }
        ensures stays { D.is_disk self.new.disk → D.is_disk self.old.disk }
    {
        let ready = self.ready;
        self.failed = true;
        self.ready = 0;
        self.disk.mark_given(lines)?;
        self.failed = false;
        self.ready = ready - lines.len();
        Ok(())
    }
}

/// Whether the bytes are whole lines, and none of them is a closing line.
fn is_group(lines: &[u8]) -> bool
    ensures { IsTrue result → IsGroup lines.now }
{
    are_whole_lines(lines) && !has_own(lines)
}

/// The time in milliseconds since 1970; 0 if the clock can't give it.
fn milliseconds_of<K: Clock>(clock: &K) -> u64 {
    match clock.since_1970() {
        Ok(time) => u64::try_from(time.as_millis()).unwrap_or(u64::MAX),
        Err(_) => 0,
    }
}
