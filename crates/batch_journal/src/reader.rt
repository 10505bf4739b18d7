//! A reader whose lines are in the journal, and synced, before it gives them.
ghost use Rattle.std.specs.Prelude.{◌≡◌, ◌≤◌, ℕ, List, Option, [], ◌++◌, length, take, drop, true, false, OnOk};
ghost use Rattle.std.specs.Io.{ReadsAtMost};
ghost use Rattle.std.specs.Io.KnownBytes.{ReadConsumes, Keeps, IsAtEnd, prepend_known};
ghost use Rattle.batch_journal.specs.Journals.{sum_text};
ghost use Rattle.batch_journal.specs.Lines.{AreLines, whole_lines_before_zero};
ghost use Rattle.batch_journal.specs.Readers.{IsJournalKept, IsWhole, HasRecalled, IsAccounted, not_given};
ghost use Rattle.batch_journal.specs.Windows.{items};

use crate::disk::Disk;
use crate::groups::Groups;
use crate::lines::{end_of, has_own};
use crate::run::JournalRun;
use crate::sum::Sum;
use crate::window::Window;
use std::io;
use std::io::{ErrorKind, Read};
use std::time::Clock;

/// Gives the bytes of an input, whole lines alone, once they are in the journal and synced: one read of the input is one group.
///
/// No line of the input may begin with `# sum `, have a zero byte or be longer than the window: there it fails. After a call of the
/// disk failed each read fails.
#[derive(Drop)]
pub struct JournalReader<R: Read, D: Disk, K: Clock, C: JournalRun> {
    inner: R,
    groups: Groups<D, K, C>,
    // the lines that are in the journal, and behind them the other bytes read
    window: Window,
    ghost within: { groups.ready ≤ length (items window) },
    ghost ready: { D.is_disk groups.disk → groups.failed ≡ false → not_given C.documents C.base (D.seen groups.disk) (D.given groups.disk) ≡ take groups.ready (items window) },
    // claim: nothing is lost on the way
    ghost accounted: { D.is_disk groups.disk → IsAccounted C.input (D.given groups.disk) (prepend_known (items window) (R.remaining inner)) },
}

impl<R: Read, D: Disk, K: Clock, C: JournalRun> JournalReader<R, D, K, C> {
    /// A reader of the input over a disk that recovery left, with the sum that it found. The clock's time stands in the closing lines;
    /// nothing is claimed of it.
    pub fn new(inner: R, disk: D, clock: K, sum: Sum) -> JournalReader<R, D, K, C>
        requires at_rest { D.is_disk disk → IsJournalKept C.documents C.base (D.durable disk) (D.seen disk) (D.given disk) [] (sum_text sum) }
        requires whole { D.is_disk disk → IsWhole (D.given disk) }
        requires recalled { D.is_disk disk → HasRecalled C.documents C.base C.since (D.moment disk) (D.left_since disk) }
        requires input { D.is_disk disk → IsAccounted C.input (D.given disk) (R.remaining inner) }
        requires was { D.is_disk disk → C.was }
        ensures remaining { prepend_known (items result.window) (R.remaining result.inner) ≡ prepend_known [] (R.remaining inner) }
        ensures disk { result.groups.disk ≡ disk }
    {
        JournalReader {
            inner,
            groups: Groups::new(disk, clock, sum),
            window: Window::new(),
        }
    }

    /// The disk. A crash at any moment of the run leaves all bytes given by then, and these are the input but for the bytes left.
    // claim: whole lines are given (whole, lines)
    pub fn into_disk(self) -> D
    where
        R: Drop,
        K: Drop,
        ensures disk { result ≡ self.groups.disk }
        ensures whole { D.is_disk result → IsWhole (D.given result) }
        ensures lines { D.is_disk result → AreLines (whole_lines_before_zero (D.given result)) }
        // claim: lines are kept
        ensures recalled { D.is_disk result → HasRecalled C.documents C.base C.since (D.moment result) (D.left_since result) }
        // claim: nothing is lost on the way
        ensures accounted { D.is_disk result → IsAccounted C.input (D.given result) (prepend_known (items self.window) (R.remaining self.inner)) }
        ensures stays { D.is_disk result → ∥ C.was ∥₁ }
    {
        self.groups.into_disk()
    }
}

impl<R: Read, D: Disk, K: Clock, C: JournalRun> Read for JournalReader<R, D, K, C> {
    ghost remaining = { λ r. prepend_known (items r.window) (R.remaining r.inner) };

    fn read(&mut self, buf: &mut [u8]) -> io::Result<usize> {
        if buf.is_empty() {
            return Ok(0);
        }
        self.fill()?;
        self.read_ready_lines(buf)
    }
}

impl<R: Read, D: Disk, K: Clock, C: JournalRun> JournalReader<R, D, K, C> {
    /// Journals the next lines, if none is ready.
    fn fill(&mut self) -> io::Result<()>
        ensures keeps { Keeps (prepend_known (items self.old.window) (R.remaining self.old.inner)) (prepend_known (items self.new.window) (R.remaining self.new.inner)) }
        ensures end { OnOk result (self.new.groups.ready ≡ 0 → IsAtEnd (prepend_known (items self.new.window) (R.remaining self.new.inner))) }
    {
        if self.groups.ready > 0 {
            return Ok(());
        }
        if self.groups.failed {
            return Err(io::Error::from(ErrorKind::Other));
        }
        self.window.move_to_front();
        let count = self.window.read_from(&mut self.inner)?;
        let bytes = self.window.as_slice();
        if count == 0 {
            // The input has ended; or a line is too long for the window.
            return if bytes.is_empty() {
                Ok(())
            } else {
                Err(io::Error::from(ErrorKind::InvalidData))
            };
        }
        let end = end_of(bytes);
        if end == 0 {
            return Err(io::Error::from(ErrorKind::Interrupted));
        }
        let lines = &bytes[..end];
        if has_own(lines) {
            return Err(io::Error::from(ErrorKind::InvalidData));
        }
        self.groups.write(lines)?;
        Ok(())
    }

    /// Gives as many of the journalled lines as there is room for.
    fn read_ready_lines(&mut self, buf: &mut [u8]) -> io::Result<usize>
        requires { self.old.groups.ready ≡ 0 → IsAtEnd (prepend_known (items self.old.window) (R.remaining self.old.inner)) }
        ensures bound { ReadsAtMost result buf.new }
        ensures bytes { ReadConsumes (prepend_known (items self.old.window) (R.remaining self.old.inner)) (prepend_known (items self.new.window) (R.remaining self.new.inner)) result buf.new }
    {
        if self.groups.ready == 0 {
            return Ok(0);
        }
        let fits = buf.len().min(self.groups.ready);
        let bytes = self.window.as_slice();
        let count = end_of(&bytes[..fits]);
        if count == 0 {
            // There isn't room for a line.
            return Err(io::Error::from(ErrorKind::InvalidInput));
        }
        let lines = &bytes[..count];
        self.groups.mark_given(lines)?;
        buf[..count].copy_from_slice(lines);
        self.window.consume(count);
        Ok(count)
    }
}
