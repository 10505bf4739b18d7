//! The loop of a console.
ghost use Rattle.std.specs.Prelude.{◌≡◌, ◌↔◌, ◌+◌, ◌<◌, ◌≤◌};
ghost use Rattle.batch_desk.specs.Consoles.{IsConsole, completes, refusals};
ghost use Rattle.batch_desk.specs.Gates.{AreAsked};
ghost use Rattle.batch_desk.specs.declared.loop_end.LoopEnd.TheVariants.{Done, Refused, TurnsOut};

use crate::batch_plan::BatchPlan;
use crate::console::Console;
use crate::desk::PortDesk;
use crate::gate::Gate;
use crate::loop_end::LoopEnd;
use std::alloc::Global;

/// Makes batches by a plan, one after the other.
///
/// The console sends a create, and starts the batch once a reply says that it was created. It sends the next create once the start is
/// answered. It goes on until `batches` moves were taken by which a batch became complete, or an event is refused.
///
/// One turn takes at most one out and sends at most one event. An event for which there is no memory or no place is tried again at the
/// next turn. At most `limit` turns are counted, among them those that the gate doesn't let pass.
// claim: end of a console's loop (end, refused, turns)
pub fn console_loop<G: Gate>(
    alloc: Global,
    desk: &mut PortDesk,
    plan: &BatchPlan,
    batches: u64,
    gate: &mut G,
    limit: u64,
) -> LoopEnd
    // claim: sent by a console
    ensures console { IsConsole plan.now batches desk.old desk.new }
    ensures end { (result ≡ Done) ↔ (completes desk.old.taken + batches ≤ completes desk.new.taken) }
    ensures refused { (result ≡ Refused) → refusals desk.old.taken < refusals desk.new.taken }
    ensures turns { (result ≡ TurnsOut) → (refusals desk.new.taken ≡ refusals desk.old.taken) × AreAsked G.passes limit gate.old gate.new }
{
    let mut console = Console::new(batches);
    for turn in 0..limit {
        if console.to_complete == 0 {
            return LoopEnd::Done;
        }
        if console.refused {
            return LoopEnd::Refused;
        }
        if gate.lets_pass(turn) {
            console.take_turn(alloc, desk, plan);
        }
    }
    if console.to_complete == 0 {
        LoopEnd::Done
    } else if console.refused {
        LoopEnd::Refused
    } else {
        LoopEnd::TurnsOut
    }
}
