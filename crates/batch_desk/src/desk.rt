//! The end of a port that a console or an equipment link works with.
ghost use Rattle.std.specs.Prelude.{◌≡◌, ◌<◌, ◌≤◌, ◌+◌, OnOk, IfErr, IfSome, IsOk};
ghost use Rattle.rtrb.specs.Ring.{sent, received, known_free, all_sent};
ghost use Rattle.batch_desk.specs.Rings.{IsOfRing, ring_of_producer, ring_of_consumer};
ghost use Rattle.batch_desk.specs.DeskState.{IsLeftOf, Sends, TakesOut};

use crate::inbox::Inbox;
use batch_engine::{Event, Out};
use rtrb::{Consumer, Finished, Producer, PushError};
use std::marker::Model;

/// The desk of a port: it sends events to the hub and takes outs from it. It may move to a thread of its own; none of its
/// calls waits for the hub, or takes memory.
#[derive(Drop)]
pub struct PortDesk {
    events: Producer<Event>,
    outs: Consumer<Out>,
}

/// The event for which there was no place.
#[derive(Drop)]
pub struct Full(pub Event);

impl Model for PortDesk {
    ghost use Rattle.rtrb.specs.Ring.{sent, received, known_free};
    ghost use Rattle.batch_desk.specs.Rings.{ring_of_producer, ring_of_consumer};
    ghost use Rattle.batch_desk.specs.DeskState.{DeskState};

    ghost Value = { DeskState };

    ghost view = { λ d. record { events = ring_of_producer d.events; outs = ring_of_consumer d.outs; sent = sent d.events; taken = received d.outs; free = known_free d.events } };
}

impl PortDesk {
    pub(crate) fn new(events: Producer<Event>, outs: Consumer<Out>) -> PortDesk
        ensures { result ≡ record { events = ring_of_producer events; outs = ring_of_consumer outs; sent = sent events; taken = received outs; free = known_free events } }
    {
        PortDesk { events, outs }
    }

    /// Sends an event to the hub. If there is no place in the ring, the event is returned.
    // claim: sent or given back
    pub fn send(&mut self, event: Event) -> Result<(), Full>
        ensures sent { OnOk result (Sends self.old event self.new) }
        ensures full { IfErr result (λ full. (full.0 ≡ event) × (self.new ≡ record self.old { free = 0 })) }
        ensures free { 0 < self.old.free → IsOk result }
        ensures places { OnOk result (self.old.free ≤ self.new.free + 1) }
    {
        match self.events.push(event) {
            Ok(()) => Ok(()),
            Err(PushError::Full(event)) => Err(Full(event)),
        }
    }

    /// Takes the oldest out that is there.
    // claim: each out taken once
    pub fn pop_out(&mut self) -> Option<Out>
        ensures { TakesOut self.old result self.new }
    {
        self.outs.pop().ok()
    }

    /// Ends sending: the token shows the hub all events that were sent, and the inbox takes the outs that are still to come. There is
    /// no token if the hub was dropped before.
    // claim: sent or given back
    pub fn finish(self) -> (Option<Finished<Event>>, Inbox)
        ensures token { IfSome result.0 (λ token. (all_sent token ≡ self.sent) × IsOfRing token self.events) }
        ensures inbox { IsLeftOf self result.1 }
    {
        let PortDesk { events, outs } = self;
        (events.finish(), Inbox::new(outs))
    }
}
