//! Serving several desks over pipes.
ghost use Rattle.std.specs.Prelude.{◌≡◌, [], IfOk, OnOk};
ghost use Rattle.batch_engine.specs.View.{plant_of};
ghost use Rattle.batch_reader.specs.DeskNames.{desk_names};
ghost use Rattle.batch_pipes.specs.Ended.{AreDesksEnded};
ghost use Rattle.batch_pipes.specs.Inputs.{InputsGoOn};
ghost use Rattle.batch_pipes.specs.Kept.{AreDone, ArePortsOf, AreSameDesks};
ghost use Rattle.batch_pipes.specs.OutputEnds.{IsHandedBack};
ghost use Rattle.batch_pipes.specs.Outputs.{AreOutputsKept, AreOutputsOf};
ghost use Rattle.batch_pipes.specs.Service.{GoesOn, rings_of};

use crate::ending::finish;
use crate::fault::DesksFault;
use crate::opening::open;
use crate::outcome::OutputOutcome;
use crate::output::Output;
use crate::pipes::{Outputs, Pipes};
use crate::ports::Ports;
use crate::rounds::serve_round;
use crate::tending::{Outlook, tend_desks};
use crate::timing::Timing;
use batch_engine::Engine;
use batch_reader::Desks;
use batch_serve::{DeskServer, Keep, Lines, Pause, ServedDesk};
use std::alloc::Global;
use std::io::Write;
use std::thread::Threads;
use std::time::Clock;

/// The result of serving desks to their end.
#[derive(Drop)]
pub struct DesksEnd<W: Write + Drop, P: Outputs<W> + Drop> {
    /// How many batches are neither complete, stopped nor aborted.
    pub unfinished: usize,
    /// The desks. The first lines of the input of each were served, and all of one that isn't cut.
    pub desks: Vec<ServedDesk>,
    /// The outcomes of the desks' outputs, in the order of the desks.
    pub outputs: Vec<OutputOutcome<W, P>>,
}

/// Serves desks until each that has an input has ended or is cut, and the queued lines are handed on.
///
/// The input and the output of each desk are opened, read and written in threads of their own, and nobody waits for a thread that is
/// blocked there. The fronts, one for each desk in order, are written to the desks' outputs before all else; a desk behind the last
/// of them has none. A desk whose input or output fails, or for which more lines are queued than may be, is cut, and the errors
/// report it. At the end an output that takes nothing for long is left to its thread, and the errors report it. For each desk that
/// has an output it gives back the output, or its thread, which isn't joined while it has more to do.
///
/// The error is want of memory, a thread that can't be started, a journal or a record that can't be written, or rounds that ran out.
// claim: desks over pipes; whose lines are served; outputs given back; outputs of desks
pub fn serve_desks<
    T: Threads,
    O: Write + Send + Drop + 'static,
    P: Pipes + Outputs<O> + Send + Drop + 'static,
    C: Clock,
    K: Keep,
    W: Write,
    E: Write,
    S: Pause,
>(
    threads: &T,
    alloc: Global,
    pipes: &P,
    engine: Engine,
    desks: Desks,
    fronts: &[Lines],
    timing: &Timing<C>,
    keep: &mut K,
    output: &mut W,
    errors: &mut E,
    rest: &mut S,
) -> Result<DesksEnd<O, P>, DesksFault>
    ensures { IfOk result (λ end. AreDesksEnded timing.now.times (record {
      set = engine.cleared;
      names = desk_names desks.desks.items;
      plant = plant_of engine;
      kept = K.kept keep.old;
      recorded = W.contents output.old;
      again = K.again;
    }) P.given P.stands O.contents P.hands_back fronts.now desks.desks.items end.desks.items end.outputs.items (K.is_safe keep.new) (K.kept keep.new) (W.contents output.new)) }
{
    let (mut server, mut ports, mut outputs) = open(threads, alloc, pipes, engine, desks, fronts)?;
    run_rounds(
        threads,
        alloc,
        &mut server,
        &mut ports,
        &mut outputs,
        timing,
        keep,
        output,
        errors,
        rest,
    )?;
    let Ports { writers, .. } = ports;
    let outputs = finish(threads, alloc, &server, writers, outputs, errors, rest)?;
    let DeskServer { engine, desks, .. } = server;
    Ok(DesksEnd {
        unfinished: engine.unfinished(),
        desks,
        outputs,
    })
}

/// Makes rounds until no more lines come, and none are on their way.
fn run_rounds<
    T: Threads,
    O: Write + Drop,
    P: Pipes + Outputs<O> + Drop,
    C: Clock,
    K: Keep,
    W: Write,
    E: Write,
    S: Pause,
>(
    threads: &T,
    alloc: Global,
    server: &mut DeskServer,
    ports: &mut Ports<P>,
    outputs: &mut Vec<Output<O, P>>,
    timing: &Timing<C>,
    keep: &mut K,
    output: &mut W,
    errors: &mut E,
    rest: &mut S,
) -> Result<(), DesksFault>
    requires ports { ArePortsOf server.old.desks.items ports.old }
    requires outputs { AreOutputsOf (IsHandedBack O.contents P.stands P.hands_back) outputs.old.items ports.old.writers.items }
    ensures ports { OnOk result (ArePortsOf server.new.desks.items ports.new) }
    // claim: input of a desk
    ensures inputs { OnOk result (InputsGoOn P.given ports.old.readers.items ports.new.readers.items) }
    ensures outputs { OnOk result (AreOutputsKept (IsHandedBack O.contents P.stands P.hands_back) outputs.old.items outputs.new.items ports.new.writers.items) }
    ensures group { OnOk result (server.new.group.items ≡ []) }
    ensures desks { OnOk result (AreSameDesks server.old.desks.items server.new.desks.items) }
    // claim: end of desks
    ensures done { OnOk result (AreDone server.new.desks.items ports.new.readers.items) }
    ensures service { OnOk result (GoesOn timing.now.times K.again (K.is_safe keep.old) (K.is_safe keep.new) (K.kept keep.old) (K.kept keep.new)
        (W.contents output.old) (W.contents output.new) server.old server.new (rings_of ports.old) (rings_of ports.new)) }
{
    let mut ends = false;
    for _ in 0..u64::MAX {
        let serves = serve_round(alloc, server, ports, timing, keep, output)?;
        let outlook = tend_desks(threads, alloc, server, ports, outputs, ends, errors);
        if outlook.is_over() {
            return Ok(());
        }
        ends = !outlook.sends;
        if !pause(rest, serves, outlook) {
            return Err(DesksFault::RoundsOut);
        }
    }
    Err(DesksFault::RoundsOut)
}

/// Waits between rounds, unless more lines may have come already. Threads that have lines to write get some time for it. Returns
/// false if serving is to end.
fn pause<S: Pause>(rest: &mut S, serves: bool, outlook: Outlook) -> bool {
    if serves || outlook.goes {
        rest.note_work();
    }
    if serves && !outlook.goes {
        return true;
    }
    rest.pause()
}
