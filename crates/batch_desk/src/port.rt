//! The hub's end of one port.
ghost use Rattle.std.specs.Prelude.{false, ◌≡◌, ◌⊎◌, [], ◌++◌, length, Some, OnOk, IfOk, IfSome, IfErr, IsTrue, IsNone, ◌↔◌};
ghost use Rattle.rtrb.specs.Ring.{sent, received, known_free, all_sent, SameProducer};
ghost use Rattle.batch_desk.specs.Rings.{IsOfRing, ring_of_consumer, ring_of_producer};
ghost use Rattle.batch_desk.specs.PortState.{IsNewPort, IsSealable, close_at, cut_at, port_rings, sealed};
ghost use Rattle.batch_desk.specs.Plans.{port_made};
ghost use Rattle.batch_desk.specs.HubDone.{HasNoneWaiting};
ghost use Rattle.batch_desk.specs.PortSteps.{Flushes, HandlesEvent, HasRoom, StaysOpen, TakesEvent, owe, owe_line, without_room};
ghost use Rattle.batch_desk.specs.declared.fault.HubFault.TheVariants.{Memory};

use crate::fault::HubFault;
use crate::scope::Scope;
use batch_engine::{Engine, Event, Line, Out, Reply};
use rtrb::{Consumer, Finished, Producer};
use std::alloc::Global;
use std::collections::VecDeque;
use std::marker::Model;

/// The hub's end of a port.
#[derive(Drop)]
pub(crate) struct Port {
    scope: Scope,
    events: Consumer<Event>,
    /// The end of the ring that outs go into. None once the port was sealed.
    outs: Option<Producer<Out>>,
    /// The queue of the outs for which its ring had no place.
    waiting: VecDeque<Out>,
    /// How long the record was when the port was closed or cut.
    closed: Option<usize>,
    cut: bool,
}

impl Model for Port {
    ghost use Rattle.std.specs.Prelude.{◌-◌};
    ghost use Rattle.std.specs.VecDeque.{deque_len, deque_capacity};
    ghost use Rattle.rtrb.specs.Ring.{received};
    ghost use Rattle.batch_desk.specs.Rings.{ring_of_consumer};
    ghost use Rattle.batch_desk.specs.PortState.{PortState, free_of, put_of, ring_of_port};

    ghost Value = { PortState };

    ghost view = { λ p. record { scope = p.scope; events = ring_of_consumer p.events; taken = received p.events; outs = ring_of_port p.outs; put = put_of p.outs; free = free_of p.outs; waiting = p.waiting.items; room = deque_capacity p.waiting - deque_len p.waiting; closed = p.closed; cut = p.cut } };
}

impl Port {
    pub(crate) fn new(
        alloc: Global,
        scope: Scope,
        events: Consumer<Event>,
        outs: Producer<Out>,
    ) -> Port
        requires { (received events ≡ []) × (sent outs ≡ []) }
        ensures new { IsNewPort result × (port_made result ≡ (scope, known_free outs)) }
        ensures rings { port_rings result ≡ (ring_of_consumer events, Some (ring_of_producer outs)) }
    {
        Port {
            scope,
            events,
            outs: Some(outs),
            waiting: VecDeque::new(alloc),
            closed: None,
            cut: false,
        }
    }

    /// How many outs wait for a place.
    pub(crate) fn waiting(&self) -> usize
        ensures { result ≡ length self.now.waiting }
    {
        self.waiting.len()
    }

    /// Whether no out waits, unless the port is closed.
    pub(crate) fn has_none_waiting(&self) -> bool
        ensures { IsTrue result ↔ HasNoneWaiting self.now }
    {
        !self.is_open() || self.waiting.is_empty()
    }

    /// Puts as many of the outs that wait into the ring as fit.
    pub(crate) fn flush(&mut self)
        ensures { Flushes self.old self.new }
    {
        if let Some(outs) = &mut self.outs {
            put_waiting(outs, &mut self.waiting);
        }
    }

    /// Takes an event from the ring, if one is there.
    pub(crate) fn take_event(&mut self) -> Option<Event>
        ensures { TakesEvent self.old result self.new }
    {
        self.events.pop().ok()
    }

    /// Reserves a place for one more out, unless the port is closed.
    pub(crate) fn reserve(&mut self) -> Result<(), HubFault>
        ensures same { without_room self.new ≡ without_room self.old }
        ensures room { OnOk result (HasRoom self.new) }
        ensures fault { IfErr result (λ fault. fault ≡ Memory) }
    {
        if self.is_open() && self.waiting.reserve(1).is_err() {
            return Err(HubFault::Memory);
        }
        Ok(())
    }

    pub(crate) fn is_open(&self) -> bool
        ensures { IsTrue result ↔ IsNone self.now.closed }
    {
        self.closed.is_none()
    }

    /// Takes one event out of the ring, gives it to the engine and queues the reply for the port. A closed port gives none.
    pub(crate) fn handle(&mut self, engine: &mut Engine) -> Result<Option<(Event, Reply)>, HubFault>
        ensures ok { IfOk result (λ done. HandlesEvent self.old engine.old done self.new engine.new) }
        ensures err { IfErr result (λ fault. (fault ≡ Memory) × (without_room self.new ≡ without_room self.old) × (engine.new ≡ engine.old)) }
    {
        if !self.is_open() {
            return Ok(None);
        }
        self.reserve()?;
        let Some(event) = self.take_event() else {
            return Ok(None);
        };
        let reply = engine.accept(&event);
        self.owe(Out::Reply(reply));
        Ok(Some((event, reply)))
    }

    /// Appends an out to the port's queue, unless the port is closed.
    pub(crate) fn owe(&mut self, out: Out)
        requires { HasRoom self.old }
        ensures { self.new ≡ owe out self.old }
    {
        if self.is_open() {
            self.waiting.push_back_reserved(out);
        }
    }

    /// Appends a move to the port's queue, if it is in the port's scope.
    pub(crate) fn queue_move(&mut self, line: Line)
        requires { HasRoom self.old }
        ensures { self.new ≡ owe_line line self.old }
    {
        if self.scope.sees(line) {
            self.owe(Out::Move(line));
        }
    }

    /// Closes the port if all events that were sent were taken.
    pub(crate) fn close(
        &mut self,
        token: Finished<Event>,
        record_len: usize,
    ) -> Result<(), (HubFault, Finished<Event>)>
        requires { IsOfRing token self.old.events }
        ensures ok { OnOk result ((self.new ≡ close_at record_len self.old) × (self.old.cut ≡ false) × (self.old.taken ≡ all_sent token)) }
        ensures err { IfErr result (λ e. (self.new ≡ self.old) × StaysOpen self.old (all_sent token) e.0) }
        ensures back { IfErr result (λ e. (all_sent e.1 ≡ all_sent token) × IsOfRing e.1 self.old.events) }
    {
        if self.cut {
            return Err((HubFault::Closed, token));
        }
        let mut token = token;
        if self.events.slots_after(&mut token) > 0 {
            return Err((HubFault::EventsRemain, token));
        }
        if self.is_open() {
            self.closed = Some(record_len);
        }
        Ok(())
    }

    /// Cuts the port: from here on no event is taken and no out is added.
    pub(crate) fn cut(&mut self, record_len: usize)
        ensures { self.new ≡ cut_at record_len self.old }
    {
        self.closed = Some(record_len);
        self.cut = true;
    }

    /// Whether the port is closed and can be sealed: nothing waits, and it was not sealed.
    pub(crate) fn is_sealable(&self) -> bool
        ensures { IsTrue result ↔ IsSealable self.now }
    {
        self.closed.is_some() && self.outs.is_some() && self.waiting.is_empty()
    }

    /// Ends the ring of outs. The token is missing if the desk was dropped before.
    pub(crate) fn seal(&mut self) -> Option<Finished<Out>>
        ensures port { self.new ≡ sealed self.old }
        ensures token { IfSome result (λ token. (all_sent token ≡ self.old.put) × IfSome self.old.outs (λ ring. IsOfRing token ring)) }
    {
        let outs = self.outs.take()?;
        outs.finish()
    }
}

/// Puts as many of the outs that wait into the ring as fit.
fn put_waiting(outs: &mut Producer<Out>, waiting: &mut VecDeque<Out>)
    ensures ring { SameProducer outs.old outs.new }
    ensures order { sent outs.new ++ waiting.new.items ≡ sent outs.old ++ waiting.old.items }
    ensures most { (waiting.new.items ≡ []) ⊎ (known_free outs.new ≡ 0) }
{
    while !waiting.is_empty() && !outs.is_full() {
        if let Some(out) = waiting.pop_front() {
            outs.push_reserved(out);
        }
    }
}
