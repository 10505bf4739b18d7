//! Rounds: lines that came are served, and queued lines go on.
ghost use Rattle.std.specs.Prelude.{◌≡◌, [], length, OnOk};
ghost use Rattle.batch_serve.specs.Rounds.{AreSameWriters};
ghost use Rattle.batch_pipes.specs.Inputs.{InputsGoOn};
ghost use Rattle.batch_pipes.specs.Kept.{ArePortsOf, AreSameDesks};
ghost use Rattle.batch_pipes.specs.Service.{GoesOn, TurnsOn, rings_of};

use crate::fault::DesksFault;
use crate::pipes::InputBytes;
use crate::ports::Ports;
use crate::times::write_time;
use crate::timing::Timing;
use batch_serve::{DeskServer, Keep};
use std::alloc::Global;
use std::io::Write;
use std::time::Clock;

/// Takes the lines that the readers handed over, serves them, and hands on queued lines. Returns whether there were lines to serve.
// claim: a round of desks
pub(crate) fn serve_round<P: InputBytes, C: Clock, K: Keep, W: Write>(
    alloc: Global,
    server: &mut DeskServer,
    ports: &mut Ports<P>,
    timing: &Timing<C>,
    keep: &mut K,
    output: &mut W,
) -> Result<bool, DesksFault>
    requires { ArePortsOf server.old.desks.items ports.old }
    ensures ports { OnOk result (ArePortsOf server.new.desks.items ports.new) }
    ensures inputs { OnOk result (InputsGoOn P.given ports.old.readers.items ports.new.readers.items) }
    ensures writers { OnOk result (AreSameWriters ports.old.writers.items ports.new.writers.items) }
    ensures writer_count { OnOk result (length ports.new.writers.items ≡ length ports.old.writers.items) }
    ensures desks { OnOk result (AreSameDesks server.old.desks.items server.new.desks.items) }
    ensures group { OnOk result (server.new.group.items ≡ []) }
    ensures service { OnOk result (GoesOn timing.now.times K.again (K.is_safe keep.old) (K.is_safe keep.new) (K.kept keep.old) (K.kept keep.new)
        (W.contents output.old) (W.contents output.new) server.old server.new (rings_of ports.old) (rings_of ports.new)) }
{
    server.gather(&mut ports.readers)?;
    let serves = serve_group(alloc, server, timing, keep, output)?;
    server.hand_on(&mut ports.writers);
    Ok(serves)
}

/// Makes a turn, if there are lines to serve. Returns whether there were.
fn serve_group<C: Clock, K: Keep, W: Write>(
    alloc: Global,
    server: &mut DeskServer,
    timing: &Timing<C>,
    keep: &mut K,
    output: &mut W,
) -> Result<bool, DesksFault>
    ensures desks { OnOk result (AreSameDesks server.old.desks.items server.new.desks.items) }
    ensures group { OnOk result (server.new.group.items ≡ []) }
    ensures service { OnOk result (TurnsOn timing.now.times K.again (K.is_safe keep.old) (K.is_safe keep.new) (K.kept keep.old) (K.kept keep.new)
        (W.contents output.old) (W.contents output.new) server.old server.new) }
{
    if server.group.is_empty() {
        return Ok(false);
    }
    write_time(timing, output)?;
    server.turn(alloc, keep, output)?;
    Ok(true)
}
