//! Closing the ports of a plant.
ghost use Rattle.std.specs.Prelude.{◌≡◌, ◌+◌, Some, IfSome, IsSome, slice_get};
ghost use Rattle.rtrb.specs.Ring.{all_sent};
ghost use Rattle.batch_desk.specs.DeskState.{desk_rings};
ghost use Rattle.batch_desk.specs.Due.{events_of};
ghost use Rattle.batch_desk.specs.HubState.{rings};
ghost use Rattle.batch_desk.specs.Rings.{IsOfRing};
ghost use Rattle.batch_desk.specs.Turns.{SameWork};
ghost use Rattle.batch_plant.specs.Parts.{IsRest};
ghost use Rattle.batch_plant.specs.Plants.{event_rings};

use batch_desk::{Hub, Inbox, PortDesk};
use batch_engine::Event;
use rtrb::Finished;

/// Closes and seals the port of a desk, and counts the outs that are still to be taken. None where a token didn't come.
pub(crate) fn close_port(hub: &mut Hub, port: usize, desk: PortDesk) -> Option<usize>
    requires { slice_get (rings hub.old) port ≡ Some (desk_rings desk) }
    ensures work { SameWork hub.old hub.new }
    ensures next { slice_get (rings hub.new) (port + 1) ≡ slice_get (rings hub.old) (port + 1) }
    ensures events { event_rings hub.new ≡ event_rings hub.old }
    ensures all { IsSome result → events_of port hub.new.history ≡ desk.sent }
{
    let (token, inbox) = desk.finish();
    match token {
        Some(token) => close_by(hub, port, token, inbox),
        None => None,
    }
}

/// Closes the port of a desk by the desk's token, seals it, and counts the outs left for the desk's inbox.
fn close_by(hub: &mut Hub, port: usize, token: Finished<Event>, inbox: Inbox) -> Option<usize>
    requires token { IfSome (slice_get hub.old.ports port) (λ p. IsOfRing token p.events) }
    requires inbox { IfSome (slice_get (rings hub.old) port) (λ rings. rings.1 ≡ Some inbox.outs) }
    ensures work { SameWork hub.old hub.new }
    ensures next { slice_get (rings hub.new) (port + 1) ≡ slice_get (rings hub.old) (port + 1) }
    ensures events { event_rings hub.new ≡ event_rings hub.old }
    ensures all { IsSome result → events_of port hub.new.history ≡ all_sent token }
{
    match hub.close(port, token) {
        Ok(()) => seal_port(hub, port, inbox),
        Err(_) => None,
    }
}

/// Seals the port of an inbox, and counts the outs that are still to be taken.
fn seal_port(hub: &mut Hub, port: usize, inbox: Inbox) -> Option<usize>
    requires { IfSome (slice_get (rings hub.old) port) (λ rings. rings.1 ≡ Some inbox.outs) }
    ensures work { SameWork hub.old hub.new }
    ensures next { slice_get (rings hub.new) (port + 1) ≡ slice_get (rings hub.old) (port + 1) }
    ensures events { event_rings hub.new ≡ event_rings hub.old }
    // claim: rest of a port
    ensures rest { IfSome result (λ rest. IsRest port hub.old inbox.taken rest) }
{
    match hub.seal(port) {
        Ok(Some(token)) => {
            let mut inbox = inbox;
            Some(inbox.rest(token))
        }
        Ok(None) => None,
        Err(_) => None,
    }
}
