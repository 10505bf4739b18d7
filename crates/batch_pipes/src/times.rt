//! The time of a turn, as a comment of the record.
ghost use Rattle.std.specs.Prelude.{OnOk};
ghost use Rattle.std.specs.Io.KnownBytes.{Appends};
ghost use Rattle.batch_serve.specs.Comments.{time_text};
ghost use Rattle.batch_pipes.specs.Service.{AppendsTime};

use crate::timing::Timing;
use batch_wire::{WriteFault, write_all};
use itoa::Buffer;
use std::io::Write;
use std::time::Clock;

/// Writes the time as a comment, if the record is to have it.
// claim: time of a turn
#[tactic(auto, using(crate::proofs::ServiceRounds::no_time, crate::proofs::ServiceRounds::time_written))]
pub(crate) fn write_time<K: Clock, W: Write>(
    timing: &Timing<K>,
    output: &mut W,
) -> Result<(), WriteFault>
    ensures { OnOk result (AppendsTime timing.now.times (W.contents output.old) (W.contents output.new)) }
{
    if !timing.times {
        return Ok(());
    }
    write_milliseconds(milliseconds_of(&timing.clock), output)
}

fn write_milliseconds<W: Write>(milliseconds: u64, output: &mut W) -> Result<(), WriteFault>
    ensures { OnOk result (Appends (W.contents output.old) (W.contents output.new) (time_text milliseconds)) }
{
    let mut buffer = Buffer::new();
    let digits = buffer.format(milliseconds).as_bytes();
    write_all(output, b"# at ")?;
    write_all(output, digits)?;
    write_all(output, b"\n")
}

/// The time in milliseconds since 1970; 0 if the clock can't give it.
fn milliseconds_of<K: Clock>(clock: &K) -> u64 {
    match clock.since_1970() {
        Ok(time) => u64::try_from(time.as_millis()).unwrap_or(u64::MAX),
        Err(_) => 0,
    }
}
