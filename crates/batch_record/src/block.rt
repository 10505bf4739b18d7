//! The lines of recovery blocks.
ghost use Rattle.std.specs.Prelude.{OnOk};
ghost use Rattle.batch_record.specs.Reading.{GivesAsDefined, claim_told};
ghost use Rattle.batch_record.specs.RecordLine.{words_left};
ghost use Rattle.batch_record.specs.Blocks.{batch_row_of, begins_of, claim_of_row, ends_of, live_row_of, mark_of, mark_of_words, mark_with, row_with, tale_with};
ghost use Rattle.batch_record.specs.Kept.{Keeps};
ghost use Rattle.batch_record.specs.Marks.{mark_told, row_told};
ghost use Rattle.batch_record.specs.Telling.{Tale};

use crate::memory::NoMemory;
use crate::read::phase_with;
use crate::status::Status;
use crate::told::{Claim, PhaseStep};
use crate::word::{is_plain_place, plain_number, read_units, state_of_word};
use crate::words::Words;
use batch_matrix::State;
use batch_text::is_name;
use std::alloc::Global;

/// A row of a recovery block.
#[derive(Clone, Copy)]
pub enum Row<'a> {
    Batch {
        number: u64,
        recipe: &'a [u8],
        size: u64,
        state: State,
    },
    Holds(Claim<'a>),
    Waits(Claim<'a>),
    Runs {
        step: PhaseStep<'a>,
        state: State,
    },
}

/// The meaning of a line for recovery blocks.
#[derive(Clone, Copy)]
pub enum Mark<'a> {
    Begins,
    Ends,
    Row(Row<'a>),
}

impl Status {
    /// Adds a row of a recovery block. At Err the row may be added in part.
    pub(crate) fn list(&mut self, alloc: Global, row: Row<'_>) -> Result<(), NoMemory>
        ensures { OnOk result ((tale : Tale) → Keeps self.old tale → Keeps self.new (tale_with tale (row_told row.entry))) }
    {
        match row {
            Row::Batch {
                number,
                recipe,
                size,
                state,
            } => self.batches.add(alloc, number, recipe, size, state),
            Row::Holds(claim) => self.holders.claim_joins(alloc, claim),
            Row::Waits(claim) => self.waiters.claim_joins(alloc, claim),
            Row::Runs { step, state } => self.live.add(alloc, step, state),
        }
    }
}

/// The meaning of the line for recovery blocks, or None.
pub fn read_mark(line: &[u8]) -> Option<Mark<'_>>
    ensures { GivesAsDefined mark_told result (mark_of line.now) }
{
    read_words(Words::of(line))
}

fn read_words(mut line: Words<'_>) -> Option<Mark<'_>>
    ensures { GivesAsDefined mark_told result (mark_of_words (words_left line.entry.rest)) }
{
    let sharp = line.next()?;
    let word = line.next()?;
    if sharp == b"#".as_slice() {
        mark_with(word, line)
    } else {
        None
    }
}

fn mark_with<'a>(word: &'a [u8], arguments: Words<'a>) -> Option<Mark<'a>>
    ensures { GivesAsDefined mark_told result (mark_with word.now (words_left arguments.entry.rest)) }
{
    if word == b"recovered".as_slice() {
        read_begin(arguments)
    } else if word == b"end".as_slice() {
        read_end(arguments)
    } else {
        Some(Mark::Row(row_with(word, arguments)?))
    }
}

fn row_with<'a>(word: &'a [u8], arguments: Words<'a>) -> Option<Row<'a>>
    ensures { GivesAsDefined row_told result (row_with word.now (words_left arguments.entry.rest)) }
{
    if word == b"batch".as_slice() {
        read_batch(arguments)
    } else if word == b"holds".as_slice() {
        Some(Row::Holds(read_claim(arguments)?))
    } else if word == b"waits".as_slice() {
        Some(Row::Waits(read_claim(arguments)?))
    } else if word == b"runs".as_slice() {
        read_live(arguments)
    } else {
        None
    }
}

fn read_begin(mut arguments: Words<'_>) -> Option<Mark<'_>>
    ensures { GivesAsDefined mark_told result (begins_of (words_left arguments.entry.rest)) }
{
    let count = arguments.next()?;
    let word = arguments.next()?;
    if arguments.next().is_some() {
        return None;
    }
    plain_number(count)?;
    if word == b"lines".as_slice() {
        Some(Mark::Begins)
    } else {
        None
    }
}

fn read_end(mut arguments: Words<'_>) -> Option<Mark<'_>>
    ensures { GivesAsDefined mark_told result (ends_of (words_left arguments.entry.rest)) }
{
    match arguments.next() {
        Some(_) => None,
        None => Some(Mark::Ends),
    }
}

fn read_batch(mut arguments: Words<'_>) -> Option<Row<'_>>
    ensures { GivesAsDefined row_told result (batch_row_of (words_left arguments.entry.rest)) }
{
    let number = arguments.next()?;
    let recipe = arguments.next()?;
    let size = arguments.next()?;
    let state = arguments.next()?;
    if arguments.next().is_some() {
        return None;
    }
    let state = state_of_word(state)?;
    let number = plain_number(number)?;
    let size = plain_number(size)?;
    if is_name(recipe) {
        Some(Row::Batch {
            number,
            recipe,
            size,
            state,
        })
    } else {
        None
    }
}

fn read_claim(mut arguments: Words<'_>) -> Option<Claim<'_>>
    ensures { GivesAsDefined claim_told result (claim_of_row (words_left arguments.entry.rest)) }
{
    let resource = arguments.next()?;
    let number = arguments.next()?;
    let place = arguments.next()?;
    let units = arguments.next()?;
    if arguments.next().is_some() {
        return None;
    }
    let batch = plain_number(number)?;
    let units = read_units(units, 0)?;
    if is_plain_place(place) && is_name(resource) {
        Some(Claim {
            batch,
            place,
            resource,
            units,
        })
    } else {
        None
    }
}

fn read_live(mut arguments: Words<'_>) -> Option<Row<'_>>
    ensures { GivesAsDefined row_told result (live_row_of (words_left arguments.entry.rest)) }
{
    let unit = arguments.next()?;
    let phase = arguments.next()?;
    let number = arguments.next()?;
    let place = arguments.next()?;
    let state = arguments.next()?;
    if arguments.next().is_some() {
        return None;
    }
    let step = phase_with(number, place, unit, phase)?;
    let state = state_of_word(state)?;
    Some(Row::Runs { step, state })
}
