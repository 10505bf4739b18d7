//! Reading a record for its picture, line by line.
ghost use Rattle.std.specs.Prelude.{◌≡◌, ℕ, IfErr, IfOk};
ghost use Rattle.batch_record.specs.StatusReading.{IsRefusedAt};
ghost use Rattle.batch_record.specs.Recorded.{IsRecord};
ghost use Rattle.batch_record.specs.Taking.{TakesLine, TakesLines};
ghost use Rattle.batch_record.specs.declared.picture_reading.RecordFault.TheVariants as faults;

use crate::drawing::draw;
use crate::picture::Picture;
use crate::record_line::{NoRecordLine, read_record_line};
use crate::timeline::{Timeline, time_of};
use batch_wire::line_feed;
use std::alloc::{AllocError, Global};
use thiserror::Error;

/// Why a record wasn't drawn.
#[derive(Clone, Copy, Debug, Error)]
pub enum RecordFault {
    /// The line with this number, counted from 1, is no line of a record.
    #[error("line {0} is no line of a record")]
    NoRecord(u64),
    /// Memory was refused.
    #[error("out of memory")]
    Memory,
}

impl From<AllocError> for RecordFault {
    ghost from_gives = { λ _ fault. fault ≡ faults.Memory };

    fn from(_error: AllocError) -> RecordFault {
        RecordFault::Memory
    }
}

/// The picture of a record. Each resource that it names has a row, units first. A row has a bar with the batch's number for each time
/// that a batch held the resource, and a hatched bar for each time that one waited for it. The axis is the clock of the record's
/// comments `# at MILLISECONDS`, or the number of the line if it has none.
///
/// A last line without its line feed is left out. The shares that a recovery block lists stand from its end on, and no others.
// claim: picture of a record
pub fn draw_record(alloc: Global, text: &[u8]) -> Result<Picture, RecordFault>
    ensures drawn { IfOk result (λ _. IsRecord text.now) }
    ensures refused { IfErr result (λ fault. (number : ℕ) → fault ≡ faults.NoRecord number → IsRefusedAt text.now number) }
{
    let mut timeline = Timeline::new(alloc, first_time(text));
    apply_lines(alloc, &mut timeline, text)?;
    Ok(draw(alloc, &timeline)?)
}

/// The first time in a comment.
fn first_time(text: &[u8]) -> Option<u64> {
    text.split_inclusive(|byte| *byte == b'\n')
        .filter_map(|line| line.strip_suffix(b"\n"))
        .find_map(|line| time_of(line))
}

/// Applies each whole line to the timeline.
fn apply_lines(alloc: Global, timeline: &mut Timeline, text: &[u8]) -> Result<(), RecordFault>
    ensures { TakesLines text.now result }
{
    let mut rest = text;
    let mut number: u64 = 0;
    while let Some(at) = line_feed(rest) {
        number = number.saturating_add(1);
        timeline.reach(number);
        apply_line(alloc, timeline, &rest[..at], number)?;
        rest = &rest[at + 1..];
    }
    timeline.reach(number.saturating_add(1));
    Ok(())
}

fn apply_line(
    alloc: Global,
    timeline: &mut Timeline,
    line: &[u8],
    number: u64,
) -> Result<(), RecordFault>
    ensures { TakesLine line.now number result }
{
    match read_record_line(line) {
        Ok(Some(told)) => Ok(timeline.apply_out(alloc, told)?),
        Ok(None) => Ok(timeline.apply_comment(alloc, line)?),
        Err(NoRecordLine) => Err(RecordFault::NoRecord(number)),
    }
}
