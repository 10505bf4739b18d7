//! Runs of a cleared set, from the bytes of an input to those of the record.
use crate::documents::{A, CELL1};
use crate::ends::{Failure, Narrow, OneByOne};
use crate::records::cleared_of;
use batch_serve::{NoRemarks, SetFault, serve_set};
use std::alloc::Global;
use std::io::{Read, Write};
use std::test::Fail;

/// More calls of a reader than any of these runs makes, but where it says another number.
pub(crate) const MANY_READS: u64 = 1_000;

/// A batch from its making to its end.
pub(crate) const INPUT: &[u8] = b"create A 1000\nstart 1\nreport R1 ADD done\n";

/// The record of that batch.
pub(crate) const RECORD: &[u8] = b"created 1 A 1000
ok start 1 running
begin 1 0 A
ask 1 0.0 R1
grant 1 0.0 R1
begin 1 0.0 MAKE
begin 1 0.0.0 CHARGE
start 1 0.0.0.0 R1 ADD
ok report R1 ADD done 1 0.0.0.0 running
end 1 0.0.0
end 1 0.0
release 1 0.0 R1
end 1 0
state 1 complete
";

/// The beginning of the record that answers the whole lines among the first bytes of the input.
pub(crate) fn answered(read: usize) -> &'static [u8] {
    match read {
        0..=13 => b"",
        14..=21 => b"created 1 A 1000\n",
        22..=40 => {
            b"created 1 A 1000
ok start 1 running
begin 1 0 A
ask 1 0.0 R1
grant 1 0.0 R1
begin 1 0.0 MAKE
begin 1 0.0.0 CHARGE
start 1 0.0.0.0 R1 ADD
"
        }
        _ => RECORD,
    }
}

/// How a run ended, and its record.
#[derive(Drop)]
pub(crate) struct Outcome {
    ending: Result<usize, SetFault>,
    record: Vec<u8>,
}

impl Outcome {
    /// Whether the run ended so, and its record has these bytes.
    pub(crate) fn is(&self, ending: Result<usize, SetFault>, record: &[u8]) -> bool {
        self.ending == ending && self.record.as_slice() == record
    }
}

/// Serves the reader's bytes to the writer.
fn served<R: Read, W: Write>(
    alloc: Global,
    reader: &mut R,
    writer: &mut W,
    max_reads: u64,
) -> Result<Result<usize, SetFault>, Fail> {
    let cleared = cleared_of(alloc, CELL1, &[A])?;
    Ok(serve_set(alloc, cleared, reader, writer, &mut NoRemarks, max_reads))
}

/// Serves the reader's bytes.
pub(crate) fn run<R: Read + Drop>(
    alloc: Global,
    reader: R,
    max_reads: u64,
) -> Result<Outcome, Fail> {
    let mut reader = reader;
    let mut record = Vec::new(alloc);
    let ending = served(alloc, &mut reader, &mut record, max_reads)?;
    Ok(Outcome { ending, record })
}

/// Serves the input, which comes byte by byte, to a writer that fails.
pub(crate) fn run_into(alloc: Global, fails_at: usize, failure: Failure) -> Result<Outcome, Fail> {
    let mut reader = OneByOne::of(INPUT);
    let mut writer = Narrow::failing(alloc, fails_at, failure);
    let ending = served(alloc, &mut reader, &mut writer, MANY_READS)?;
    Ok(Outcome {
        ending,
        record: writer.taken,
    })
}
