//! The hub.
ghost use Rattle.std.specs.Prelude.{◌≡◌, length, slice_get, Some, None, OnOk, IfOk, IfErr, IfSome, MatchOption};
ghost use Rattle.rtrb.specs.Ring.{all_sent};
ghost use Rattle.batch_model.specs.Records.{IsSafe};
ghost use Rattle.batch_engine.specs.View.{setup};
ghost use Rattle.batch_desk.specs.Rings.{IsOfRing};
ghost use Rattle.batch_desk.specs.HubState.{IsHub, outs_in, rings};
ghost use Rattle.batch_desk.specs.Turns.{SameWork};
ghost use Rattle.batch_desk.specs.Ends.{Closes, Cuts, RefusesClose, RefusesCut, RefusesSeal, Seals};

use crate::fault::HubFault;
use crate::port::Port;
use batch_engine::{Engine, Event, Out};
use batch_safety::cleared_runs_safely;
use rtrb::Finished;
use std::marker::Model;

/// The one owner of the engine, with its end of each port. It keeps all events that it took and all outs.
pub struct Hub {
    pub(crate) engine: Engine,
    /// Each event that was taken, with its port.
    pub(crate) history: Vec<(usize, Event)>,
    /// The record: all replies and moves so far.
    pub(crate) outs: Vec<Out>,
    pub(crate) ports: Vec<Port>,
}

impl Model for Hub {
    ghost use Rattle.std.specs.Coded.{codes};
    ghost use Rattle.batch_engine.specs.contracts.engine.Engine as engine_contracts;
    ghost use Rattle.batch_desk.specs.HubState.{HubState, IsHub};

    ghost Value = { HubState };

    ghost coded = { Prim.hlevel (codes, engine_contracts.the_row.coded) };

    ghost view = { λ h. record { engine = h.engine; history = h.history.items; outs = h.outs.items; ports = h.ports.items } };

    ghost invariant = { λ h. IsHub (record { engine = h.engine; history = h.history.items; outs = h.outs.items; ports = h.ports.items }) };
}

impl Hub {
    /// Each event that was taken, with the number of its port, in the order in which the engine was given them.
    // claim: record of a hub
    pub fn history(&self) -> &[(usize, Event)]
        ensures value { result.now ≡ self.now.history }
        // claim: events once; outs once
        ensures account { IsHub self.now }
    {
        self.history.as_slice()
    }

    /// The record: all replies and moves so far. It is safe, since the set was cleared.
    // claim: record of a hub
    pub fn record(&self) -> &[Out]
        ensures value { result.now ≡ self.now.outs }
        // claim: events once; outs once
        ensures account { IsHub self.now }
        // claim: safe record of a hub
        ensures safe { IsSafe (setup self.now.engine.cleared) (outs_in self.now.engine.cleared self.now.outs) }
    {
        cleared_runs_safely(self.engine.cleared());
        self.outs.as_slice()
    }

    /// How many outs of the port wait for a place in its ring. None if there is no port with this number.
    // claim: waiting outs
    pub fn waiting(&self, port: usize) -> Option<usize>
        ensures { MatchOption (slice_get self.now.ports port) (result ≡ None) (λ p. result ≡ Some (length p.waiting)) }
    {
        match self.ports.get(port) {
            Some(end) => Some(end.waiting()),
            None => None,
        }
    }

    /// Closes a port of which all events were taken: from then on no out is added for it, and no event is taken. Waiting outs still go
    /// into its ring at its turns. The token is the one that the port's desk gave; a refusal returns it.
    ///
    /// A port that is closed stays so. Refused are, in this order, an unknown port, one that was cut, and one of which events remain.
    // claim: drained port
    pub fn close(
        &mut self,
        port: usize,
        token: Finished<Event>,
    ) -> Result<(), (HubFault, Finished<Event>)>
        requires { IfSome (slice_get self.old.ports port) (λ p. IsOfRing token p.events) }
        // claim: rings stay
        ensures rings { rings self.new ≡ rings self.old }
        ensures work { SameWork self.old self.new }
        ensures ok { OnOk result (Closes port self.old self.new (all_sent token)) }
        ensures err { IfErr result (λ e. (self.new ≡ self.old) × RefusesClose port self.old (all_sent token) e.0) }
        ensures back { IfErr result (λ e. (all_sent e.1 ≡ all_sent token) × IfSome (slice_get self.old.ports port) (λ p. IsOfRing e.1 p.events)) }
    {
        if port >= self.ports.len() {
            return Err((HubFault::UnknownPort, token));
        }
        let recorded = self.outs.len();
        let end = &mut self.ports[port];
        end.close(token, recorded)
    }

    /// Closes a port whose desk was lost: no event is taken any more, whatever was sent. Waiting outs still go into its ring at its
    /// turns. Refused are an unknown port, and one that is closed or cut.
    // claim: cut port
    pub fn cut(&mut self, port: usize) -> Result<(), HubFault>
        // claim: rings stay
        ensures rings { rings self.new ≡ rings self.old }
        ensures work { SameWork self.old self.new }
        ensures ok { OnOk result (Cuts port self.old self.new) }
        ensures err { IfErr result (λ fault. (self.new ≡ self.old) × RefusesCut port self.old fault) }
    {
        if port >= self.ports.len() {
            return Err(HubFault::UnknownPort);
        }
        if !self.ports[port].is_open() {
            return Err(HubFault::Closed);
        }
        let recorded = self.outs.len();
        let end = &mut self.ports[port];
        end.cut(recorded);
        Ok(())
    }

    /// Ends the ring of outs of a closed port for which none wait. The token shows the port's inbox all outs that were put there;
    /// there is none if desk and inbox were dropped before.
    // claim: sealed port
    pub fn seal(&mut self, port: usize) -> Result<Option<Finished<Out>>, HubFault>
        ensures work { SameWork self.old self.new }
        ensures ok { IfOk result (λ token. Seals port self.old self.new token) }
        ensures err { IfErr result (λ fault. (self.new ≡ self.old) × RefusesSeal port self.old fault) }
    {
        if port >= self.ports.len() {
            return Err(HubFault::UnknownPort);
        }
        if !self.ports[port].is_sealable() {
            return Err(HubFault::NotSealable);
        }
        let end = &mut self.ports[port];
        Ok(end.seal())
    }

    /// Gives the engine and the history. The rings end.
    // claim: record of a hub
    pub fn end(self) -> (Engine, Vec<(usize, Event)>)
        ensures value { (result.0 ≡ self.engine) × (result.1.items ≡ self.history) }
        // claim: events once; outs once
        ensures account { IsHub self }
    {
        let Hub {
            engine,
            history,
            outs: _,
            ports: _,
        } = self;
        (engine, history)
    }
}

// Not derived: each function that drops one would have a proof that drops field by field.
impl Drop for Hub {
    fn drop(self) {
        let Hub {
            engine: _,
            history: _,
            outs: _,
            ports: _,
        } = self;
    }
}
