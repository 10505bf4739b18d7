//! Comments in the record, by a clock that stands still.
use crate::documents::{A, CELL1};
use crate::ends::OneByOne;
use crate::expected::assert_so;
use crate::records::cleared_of;
use crate::serving::MANY_READS;
use batch_serve::{Remarking, SetFault, comment_rows, serve_remarked};
use std::alloc::Global;
use std::io;
use std::io::Read;
use std::test::Fail;
use std::time::{Clock, Duration};

const INPUT: &[u8] = b"# note\ncreate A 1000\nfly\n";

/// A clock that stands still.
#[derive(Drop)]
struct Noon;

impl Clock for Noon {
    fn monotonic(&self) -> io::Result<Duration> {
        Ok(Duration::from_millis(5))
    }

    fn since_1970(&self) -> io::Result<Duration> {
        Ok(Duration::from_millis(1_790_000_000_123))
    }
}

/// How serving the input ends, and its record.
fn served<R: Read>(
    alloc: Global,
    reader: &mut R,
    echo: bool,
    times: bool,
) -> Result<(Result<usize, SetFault>, Vec<u8>), Fail> {
    comment_rows();
    let cleared = cleared_of(alloc, CELL1, &[A])?;
    let remarking = Remarking::new(Noon, echo, times);
    Ok(serve_remarked(
        alloc,
        cleared,
        reader,
        Vec::new(alloc),
        remarking,
        MANY_READS,
    ))
}

/// Whether serving the reader's bytes ends well, and with this record.
fn is_served<R: Read + Drop>(
    alloc: Global,
    reader: R,
    echo: bool,
    times: bool,
    wanted: &[u8],
) -> Result<bool, Fail> {
    let mut reader = reader;
    let (ending, record) = served(alloc, &mut reader, echo, times)?;
    Ok(ending.is_ok() && record.as_slice() == wanted)
}

/// One read has one time.
#[test]
fn one_time_for_one_read(rt: HostRuntime) -> Result<(), Fail> {
    let wanted = b"# at 1790000000123\ncreated 1 A 1000\nrefused W1\n";
    assert_so(&rt, is_served(rt.alloc(), INPUT, false, true, wanted))
}

/// Each read that brings a line which is answered has a time, and no other has one.
#[test]
fn each_read_has_its_time(rt: HostRuntime) -> Result<(), Fail> {
    let wanted =
        b"# at 1790000000123\n# > create A 1000\ncreated 1 A 1000\n# at 1790000000123\n# > fly\nrefused W1\n";
    assert_so(
        &rt,
        is_served(rt.alloc(), OneByOne::of(INPUT), true, true, wanted),
    )
}
