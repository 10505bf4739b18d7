//! Serving: readers that fail, are interrupted or don't end, and writers that fail.
use crate::ends::{Failure, OneByOne};
use crate::expected::{assert_none, assert_so};
use crate::serving::{INPUT, MANY_READS, RECORD, answered, run, run_into};
use batch_serve::{ServeFault, SetFault};
use std::alloc::Global;
use std::io::ErrorKind;
use std::test::Fail;

const READ: Result<usize, SetFault> = Err(SetFault::Stopped(ServeFault::Read));

const WRITE: Result<usize, SetFault> = Err(SetFault::Stopped(ServeFault::Write));

const TOO_MANY_READS: Result<usize, SetFault> = Err(SetFault::Stopped(ServeFault::TooManyReads));

/// Rows of a reader that gives one byte a call: how many calls it is asked for at most, how the run ends then, and its record.
/// The input has 41 bytes, and its end is read too.
const CUTS: [(u64, Result<usize, SetFault>, &[u8]); 5] = [
    (14, TOO_MANY_READS, b"created 1 A 1000\n"),
    (13, TOO_MANY_READS, b""),
    (0, TOO_MANY_READS, b""),
    (41, TOO_MANY_READS, RECORD),
    (42, Ok(0), RECORD),
];

/// The first row at which a run doesn't end so.
fn first_wrong_cut(alloc: Global) -> Result<Option<usize>, Fail> {
    let mut row = 0usize;
    for (max_reads, ending, record) in &CUTS {
        if !run(alloc, OneByOne::of(INPUT), *max_reads)?.is(*ending, *record) {
            return Ok(Some(row));
        }
        row = row.saturating_add(1);
    }
    Ok(None)
}

/// In one piece the input is one call, and its end another.
fn is_one_piece(alloc: Global) -> Result<bool, Fail> {
    Ok(run(alloc, INPUT, 2)?.is(Ok(0), RECORD))
}

#[test]
fn max_reads(rt: HostRuntime) -> Result<(), Fail> {
    assert_none(&rt, first_wrong_cut(rt.alloc()))?;
    assert_so(&rt, is_one_piece(rt.alloc()))
}

/// Whether a run whose reader fails at this call ends by that, with the record of the whole lines read.
fn fails_so(alloc: Global, call: usize) -> Result<bool, Fail> {
    let reader = OneByOne::failing(INPUT, call, ErrorKind::Other);
    let read = call.saturating_sub(1);
    Ok(run(alloc, reader, MANY_READS)?.is(READ, answered(read)))
}

/// The first call of a reader at which a failure isn't answered by the record of the whole lines read.
fn first_wrong_read(alloc: Global) -> Result<Option<usize>, Fail> {
    for call in 1..=42 {
        if !fails_so(alloc, call)? {
            return Ok(Some(call));
        }
    }
    Ok(None)
}

#[test]
fn reader_fails_at_each_call(rt: HostRuntime) -> Result<(), Fail> {
    assert_none(&rt, first_wrong_read(rt.alloc()))
}

/// Whether a run whose reader is interrupted at this call, with so many calls at most, ends so, with the whole record.
fn ends_interrupted(
    alloc: Global,
    call: usize,
    max_reads: u64,
    ending: Result<usize, SetFault>,
) -> Result<bool, Fail> {
    let reader = OneByOne::failing(INPUT, call, ErrorKind::Interrupted);
    Ok(run(alloc, reader, max_reads)?.is(ending, RECORD))
}

/// The first call of a reader at which an interruption isn't passed over, or isn't counted.
fn first_wrong_interruption(alloc: Global) -> Result<Option<usize>, Fail> {
    for call in 1..=42 {
        let passes = ends_interrupted(alloc, call, 43, Ok(0))?;
        let counts = ends_interrupted(alloc, call, 42, READ)?;
        if !passes || !counts {
            return Ok(Some(call));
        }
    }
    Ok(None)
}

#[test]
fn interrupted_lines(rt: HostRuntime) -> Result<(), Fail> {
    assert_none(&rt, first_wrong_interruption(rt.alloc()))
}

/// The first call of a writer of one byte a call at which this failure doesn't leave the bytes before it.
fn first_wrong_write(alloc: Global, failure: Failure) -> Result<Option<usize>, Fail> {
    for call in 1..=RECORD.len() {
        if !run_into(alloc, call, failure)?.is(WRITE, &RECORD[..call - 1]) {
            return Ok(Some(call));
        }
    }
    Ok(None)
}

#[test]
fn writer_fails_at_each_call(rt: HostRuntime) -> Result<(), Fail> {
    assert_none(&rt, first_wrong_write(rt.alloc(), Failure::Refuses))
}

#[test]
fn writer_takes_nothing_at_each_call(rt: HostRuntime) -> Result<(), Fail> {
    assert_none(&rt, first_wrong_write(rt.alloc(), Failure::TakesNone))
}

/// The writer is flushed after each byte of the input, and at its end.
fn first_wrong_flush(alloc: Global) -> Result<Option<usize>, Fail> {
    for call in 1..=42 {
        if !run_into(alloc, call, Failure::KeepsBack)?.is(WRITE, answered(call)) {
            return Ok(Some(call));
        }
    }
    Ok(None)
}

#[test]
fn writer_keeps_back_at_each_call(rt: HostRuntime) -> Result<(), Fail> {
    assert_none(&rt, first_wrong_flush(rt.alloc()))
}
