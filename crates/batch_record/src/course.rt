//! A record's lines, one after the other, with the recovery blocks in it.
ghost use Rattle.std.specs.Prelude.{Some, OnOk, option_map};
ghost use Rattle.batch_record.specs.Reading.{out_told};
ghost use Rattle.batch_record.specs.Blocks.{Stage, ends, stage_after_mark, opening_stage, row as row_mark, stage_after_out};
ghost use Rattle.batch_record.specs.Marks.{mark_told, row_told};
ghost use Rattle.batch_record.specs.Standings.{IsAt, Takes};

use crate::block::{Mark, Row, read_mark};
use crate::memory::NoMemory;
use crate::record_line::{NoRecordLine, read_record_line};
use crate::status::Status;
use crate::status_reading::StatusFault;
use crate::told::RecordedOut;
use std::alloc::Global;

/// The state by a record so far, and that by a recovery block that hasn't ended.
#[derive(Drop)]
pub struct RecordCourse {
    pub(crate) status: Status,
    pub(crate) block: Option<Status>,
}

impl RecordCourse {
    /// Before the first line.
    pub fn new(alloc: Global) -> RecordCourse
        ensures { IsAt result opening_stage }
    {
        RecordCourse {
            status: Status::new(alloc),
            block: None,
        }
    }

    /// Reads the line with this number, which comes without its line feed. If memory is refused, it may be applied in part.
    pub fn apply_line(&mut self, alloc: Global, line: &[u8], number: u64) -> Result<(), StatusFault>
        ensures { Takes self.old line.now number result self.new }
    {
        match read_record_line(line) {
            Ok(Some(told)) => Ok(self.apply_out(alloc, told)?),
            Ok(None) => Ok(self.mark(alloc, read_mark(line))?),
            Err(NoRecordLine) => Err(StatusFault::NoRecord(number)),
        }
    }

    fn apply_out(&mut self, alloc: Global, told: RecordedOut<'_>) -> Result<(), NoMemory>
        ensures { OnOk result ((stage : Stage) → IsAt self.old stage → IsAt self.new (stage_after_out stage (out_told told.entry))) }
    {
        self.block = None;
        self.status.apply_out(alloc, told)
    }

    fn mark(&mut self, alloc: Global, mark: Option<Mark<'_>>) -> Result<(), NoMemory>
        ensures { OnOk result ((stage : Stage) → IsAt self.old stage → IsAt self.new (stage_after_mark stage (option_map mark_told mark.entry))) }
    {
        match mark {
            Some(Mark::Begins) => self.block = Some(Status::new(alloc)),
            Some(Mark::Row(row)) => return self.list(alloc, row),
            Some(Mark::Ends) => self.end(),
            None => {}
        }
        Ok(())
    }

    fn list(&mut self, alloc: Global, row: Row<'_>) -> Result<(), NoMemory>
        ensures { OnOk result ((stage : Stage) → IsAt self.old stage → IsAt self.new (stage_after_mark stage (Some (row_mark (row_told row.entry))))) }
    {
        match &mut self.block {
            Some(block) => block.list(alloc, row),
            None => Ok(()),
        }
    }

    /// The state by the block replaces the one before.
    fn end(&mut self)
        ensures { (stage : Stage) → IsAt self.old stage → IsAt self.new (stage_after_mark stage (Some ends)) }
    {
        if let Some(block) = self.block.take() {
            self.status = block;
        }
    }
}
