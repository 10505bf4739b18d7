//! The loop of a hub.
ghost use Rattle.std.specs.Prelude.{◌≡◌, ◌↔◌, IsTrue, length};
ghost use Rattle.std.specs.List.{All};
ghost use mathlib.Core.List.{IsPrefix};
ghost use Rattle.batch_desk.specs.HubState.{HasHistoryGrown, outlines, rings};
ghost use Rattle.batch_desk.specs.Gates.{AreAsked};
ghost use Rattle.batch_desk.specs.HubDone.{AreComplete, HasNoneWaiting, IsComplete, IsHubDone};
ghost use Rattle.batch_desk.specs.declared.loop_end.LoopEnd.TheVariants.{Done, TurnsOut};

use crate::gate::Gate;
use crate::hub::Hub;
use crate::loop_end::LoopEnd;
use batch_matrix::State;

impl Hub {
    fn is_complete(&self, batch: u64) -> bool
        ensures { IsTrue result ↔ IsComplete batch self.now }
    {
        self.engine.batch_state(batch) == Some(State::Complete)
    }

    /// Whether batches 1 to `batches` are complete. The last is checked first, since it is made last.
    #[tactic(auto, using(crate::proofs::HubTurns::one_incomplete, crate::proofs::HubTurns::one_more, crate::proofs::HubTurns::all_complete))]
    fn are_complete(&self, batches: u64) -> bool
        ensures { IsTrue result ↔ AreComplete batches self.now }
    {
        for later in 0..batches {
            if !self.is_complete(batches - later) {
                return false;
            }
        }
        true
    }

    /// Whether nothing waits for an open port.
    fn has_none_waiting(&self) -> bool
        ensures { IsTrue result ↔ All HasNoneWaiting self.now.ports }
    {
        self.ports.iter().all(|end| end.has_none_waiting())
    }

    /// Whether nothing is left to do for batches 1 to `batches`.
    fn is_done(&self, batches: u64) -> bool
        ensures { IsTrue result ↔ IsHubDone batches self.now }
    {
        self.are_complete(batches) && self.engine.settled() && self.has_none_waiting()
    }

    /// The port after this one, in a circle.
    fn port_after(&self, port: usize) -> usize {
        if port < self.ports.len().saturating_sub(1) {
            port + 1
        } else {
            0
        }
    }
}

/// Gives each port its turn, one after the other from port 0 on, until batches 1 to `batches` are complete, no move is possible
/// and nothing waits for an open port. A turn for which there is no memory is passed over; the next goes on with its work. At
/// most `limit` turns are counted, among them those that the gate doesn't let pass.
// claim: kept by a hub's loop (rings, outlines, cleared, history, record)
pub fn hub_loop<G: Gate>(hub: &mut Hub, batches: u64, gate: &mut G, limit: u64) -> LoopEnd
    ensures rings { rings hub.new ≡ rings hub.old }
    ensures outlines { outlines hub.new ≡ outlines hub.old }
    ensures cleared { hub.new.engine.cleared ≡ hub.old.engine.cleared }
    ensures history { HasHistoryGrown (length hub.old.ports) hub.old.history hub.new.history }
    ensures record { IsPrefix hub.old.outs hub.new.outs }
    // claim: end of a hub's loop
    ensures end { (result ≡ Done) ↔ IsHubDone batches hub.new }
    // claim: turns of a hub's loop
    ensures turns { ¬ (result ≡ Done) → (result ≡ TurnsOut) × AreAsked G.passes limit gate.old gate.new }
{
    let mut port = 0;
    for number in 0..limit {
        if hub.is_done(batches) {
            return LoopEnd::Done;
        }
        if gate.lets_pass(number) {
            let _ = hub.turn(port);
        }
        port = hub.port_after(port);
    }
    if hub.is_done(batches) {
        LoopEnd::Done
    } else {
        LoopEnd::TurnsOut
    }
}
