//! The inbox of a desk that has finished.
ghost use Rattle.std.specs.Prelude.{◌≡◌, ◌<◌, ◌++◌, length, IfSome, IfNone, IsSome};
ghost use Rattle.rtrb.specs.Ring.{all_sent, known_items, received};
ghost use Rattle.batch_desk.specs.Rings.{IsOfRing, ring_of_consumer};
ghost use Rattle.batch_desk.specs.DeskState.{TakesNext};

use batch_engine::Out;
use rtrb::{Consumer, Finished};
use std::marker::Model;

/// The inbox of a desk that has finished: it takes outs.
#[derive(Drop)]
pub struct Inbox {
    outs: Consumer<Out>,
}

impl Model for Inbox {
    ghost use Rattle.rtrb.specs.Ring.{received, known_items};
    ghost use Rattle.batch_desk.specs.Rings.{ring_of_consumer};
    ghost use Rattle.batch_desk.specs.DeskState.{InboxState};

    ghost Value = { InboxState };

    ghost view = { λ i. record { outs = ring_of_consumer i.outs; taken = received i.outs; there = known_items i.outs } };
}

impl Inbox {
    pub(crate) fn new(outs: Consumer<Out>) -> Inbox
        ensures { result ≡ record { outs = ring_of_consumer outs; taken = received outs; there = known_items outs } }
    {
        Inbox { outs }
    }

    /// Takes the oldest out that is there.
    // claim: each out taken once
    pub fn pop_out(&mut self) -> Option<Out>
        ensures some { IfSome result (λ out. TakesNext self.old out self.new) }
        ensures none { IfNone result ((self.new.outs ≡ self.old.outs) × (self.new.taken ≡ self.old.taken)) }
        ensures there { 0 < length self.old.there → IsSome result }
    {
        self.outs.pop().ok()
    }

    /// How many outs are still to be taken. The token is the one that sealing the port gave.
    // claim: rest
    pub fn rest(&mut self, token: Finished<Out>) -> usize
        requires { IsOfRing token self.old.outs }
        ensures same { (self.new.outs ≡ self.old.outs) × (self.new.taken ≡ self.old.taken) }
        ensures all { self.new.taken ++ self.new.there ≡ all_sent token }
        ensures count { result ≡ length self.new.there }
    {
        let mut token = token;
        self.outs.slots_after(&mut token)
    }
}
