//! Driving to a writer that fails.
use crate::documents::{A, CELL1};
use crate::driven::{start, steady_units};
use crate::ends::{Failure, Narrow};
use crate::expected::assert_none;
use crate::records::engine_of;
use batch_engine::Engine;
use batch_plant::{DriveFault, drive};
use std::alloc::Global;
use std::test::Fail;

/// The text that is written in the second of two rounds.
const END: &[u8] = b"ok report R1 ADD done 1 0.0.0.0 running
end 1 0.0.0
end 1 0.0
release 1 0.0 R1
end 1 0
state 1 complete
";

/// Rows of a writer that refuses one flush: which one, after how many rounds, how these end, and the bytes that it has then taken.
/// The writer is flushed once a round.
const HANDED_ON: [(usize, u64, Result<(), DriveFault>, &[u8]); 4] = [
    (1, 0, Ok(()), b""),
    (1, 2, Err(DriveFault::Write), b""),
    (2, 2, Err(DriveFault::Write), END),
    (3, 2, Ok(()), END),
];

/// How so many rounds of a batch that is started here end over this writer.
fn driven(
    alloc: Global,
    engine: &mut Engine,
    writer: &mut Narrow,
    rounds: u64,
) -> Result<Result<(), DriveFault>, Fail> {
    let mut units = steady_units(alloc)?;
    start(alloc, engine, &mut units)?;
    Ok(drive(alloc, engine, &mut units, writer, rounds))
}

fn ended(alloc: Global, writer: &mut Narrow, rounds: u64) -> Result<Result<(), DriveFault>, Fail> {
    let mut engine = engine_of(alloc, CELL1, &[A])?;
    driven(alloc, &mut engine, writer, rounds)
}

/// Whether so many rounds end so over this writer, which has then taken these bytes.
fn is_ended(
    alloc: Global,
    writer: Narrow,
    rounds: u64,
    ending: Result<(), DriveFault>,
    taken: &[u8],
) -> Result<bool, Fail> {
    let mut writer = writer;
    let is_ending = ended(alloc, &mut writer, rounds)? == ending;
    Ok(is_ending && writer.taken.as_slice() == taken)
}

/// The first call of a writer of one byte a call at which a refusal doesn't leave the bytes before it.
fn first_wrong_write(alloc: Global) -> Result<Option<usize>, Fail> {
    for call in 1..=END.len() {
        let writer = Narrow::failing(alloc, call, Failure::Refuses);
        if !is_ended(alloc, writer, 2, Err(DriveFault::Write), &END[..call - 1])? {
            return Ok(Some(call));
        }
    }
    Ok(None)
}

/// The first wrong row of `HANDED_ON`.
fn first_wrong_handing(alloc: Global) -> Result<Option<usize>, Fail> {
    for (refused, rounds, ending, taken) in &HANDED_ON {
        let writer = Narrow::failing(alloc, *refused, Failure::KeepsBack);
        if !is_ended(alloc, writer, *rounds, *ending, *taken)? {
            return Ok(Some(*refused));
        }
    }
    Ok(None)
}

#[test]
fn writer_fails_at_each_call(rt: HostRuntime) -> Result<(), Fail> {
    assert_none(&rt, first_wrong_write(rt.alloc()))
}

#[test]
fn rounds_are_handed_on(rt: HostRuntime) -> Result<(), Fail> {
    assert_none(&rt, first_wrong_handing(rt.alloc()))
}
