//! The turns of a hub.
ghost use Rattle.std.specs.Prelude.{◌≡◌, ◌<◌, ◌≤◌, ◌+◌, ◌⊎◌, ◌↔◌, length, Err, OnOk, IfOk, IfErr, IsTrue, MatchBool};
ghost use mathlib.Core.List.{IsPrefix};
ghost use Rattle.batch_desk.specs.HubState.{IsEngineSettled, outlines, rings};
ghost use Rattle.batch_desk.specs.Turns.{AnswersTurn, Grows, IsFlushed, SameWork, moves};
ghost use Rattle.batch_desk.specs.TurnSteps.{AnswersOne, EndsTurn, MakesMove, Moved};
ghost use Rattle.batch_desk.specs.declared.fault.HubFault.TheVariants.{Memory, UnknownPort};

use crate::fault::HubFault;
use crate::hub::Hub;
use crate::ports::{queue_for_each, reserve_each};
use crate::turned::Turned;
use batch_engine::Out;

/// How many moves one turn makes at most.
const MAX_MOVES: u32 = 64;

impl Hub {
    /// Puts as many of the port's outs that wait into its ring as fit.
    fn flush(&mut self, port: usize)
        requires { port < length self.old.ports }
        ensures same { SameWork self.old self.new }
        ensures outlines { outlines self.new ≡ outlines self.old }
        ensures ports { length self.new.ports ≡ length self.old.ports }
        ensures flushed { IsFlushed port self.new }
    {
        let end = &mut self.ports[port];
        end.flush();
    }

    /// Answers one event of the port, if one is there, and records the event and its reply. Returns whether one was there.
    fn answer_one(&mut self, port: usize) -> Result<bool, HubFault>
        requires { port < length self.old.ports }
        ensures outlines { outlines self.new ≡ outlines self.old }
        ensures taken { IfOk result (λ taken. MatchBool taken (AnswersOne port self.old self.new) (SameWork self.old self.new)) }
        ensures err { IfErr result (λ fault. (fault ≡ Memory) × SameWork self.old self.new) }
    {
        if self.history.reserve(1).is_err() || self.outs.reserve(1).is_err() {
            return Err(HubFault::Memory);
        }
        let end = &mut self.ports[port];
        let Some((event, reply)) = end.handle(&mut self.engine)? else {
            return Ok(false);
        };
        self.history.push_reserved((port, event));
        self.outs.push_reserved(Out::Reply(reply));
        Ok(true)
    }

    /// Makes the next move. Memory is reserved for all that it adds before the engine is asked for it.
    fn make_move(&mut self) -> Result<(), HubFault>
        requires { ¬ IsEngineSettled self.old.engine }
        ensures outlines { outlines self.new ≡ outlines self.old }
        ensures ok { OnOk result (MakesMove self.old self.new) }
        ensures err { IfErr result (λ fault. (fault ≡ Memory) × SameWork self.old self.new) }
    {
        if self.outs.reserve(1).is_err() {
            return Err(HubFault::Memory);
        }
        reserve_each(&mut self.ports)?;
        let Some(line) = self.engine.next_move() else {
            unreachable!()
        };
        self.outs.push_reserved(Out::Move(line));
        queue_for_each(&mut self.ports, line);
        Ok(())
    }

    /// Whether no move is possible.
    fn is_settled(&self) -> bool
        ensures { IsTrue result ↔ IsEngineSettled self.now.engine }
    {
        self.engine.settled()
    }

    /// Makes moves until none is possible, at most as many as a turn makes.
    fn make_moves(&mut self) -> Result<(), HubFault>
        ensures outlines { outlines self.new ≡ outlines self.old }
        ensures cleared { self.new.engine.cleared ≡ self.old.engine.cleared }
        ensures history { self.new.history ≡ self.old.history }
        ensures record { IsPrefix self.old.outs self.new.outs }
        ensures count { Moved self.old self.new }
        ensures some { ¬ IsEngineSettled self.old.engine → OnOk result (moves self.old.outs < moves self.new.outs) }
        ensures left { OnOk result (IsEngineSettled self.new.engine ⊎ (moves self.new.outs ≡ moves self.old.outs + 64)) }
        ensures fault { IfErr result (λ fault. fault ≡ Memory) }
    {
        for _ in 0..MAX_MOVES {
            if self.is_settled() {
                return Ok(());
            }
            self.make_move()?;
        }
        Ok(())
    }

    /// Makes moves, and returns whether more are possible.
    fn end_turn(&mut self) -> Result<Turned, HubFault>
        ensures outlines { outlines self.new ≡ outlines self.old }
        ensures cleared { self.new.engine.cleared ≡ self.old.engine.cleared }
        ensures history { self.new.history ≡ self.old.history }
        ensures record { IsPrefix self.old.outs self.new.outs }
        ensures answer { IfOk result (λ turned. EndsTurn turned self.old self.new) }
        ensures fault { IfErr result (λ fault. fault ≡ Memory) }
    {
        self.make_moves()?;
        Ok(if self.is_settled() {
            Turned::Handled
        } else {
            Turned::MovesLeft
        })
    }

    /// Makes moves that are pending; or else takes an event of the port, and makes the moves that follow.
    fn advance_engine(&mut self, port: usize) -> Result<Turned, HubFault>
        requires { port < length self.old.ports }
        ensures outlines { outlines self.new ≡ outlines self.old }
        ensures cleared { self.new.engine.cleared ≡ self.old.engine.cleared }
        ensures history { Grows port self.old self.new }
        ensures record { IsPrefix self.old.outs self.new.outs }
        ensures answer { IfOk result (λ turned. AnswersTurn turned self.old self.new) }
        ensures fault { IfErr result (λ fault. fault ≡ Memory) }
    {
        if !self.is_settled() {
            return self.end_turn();
        }
        if !self.answer_one(port)? {
            return Ok(Turned::Idle);
        }
        self.end_turn()
    }

    /// One turn of a port. Outs that wait go into its ring, as many as fit. Where moves are pending, up to 64 are made, and no
    /// event is taken; else one event is taken and answered, if the port is open and one is there, and up to 64 moves follow. Then
    /// outs go into the ring again. The outs of other ports wait until their turns.
    ///
    /// For want of memory no event is lost: the work that was done stays, and pending moves go on at the next turn of any port.
    // claim: refused turns (unknown, fault); rings stay (rings, outlines)
    #[tactic(auto, using(crate::proofs::Outlines::rings_stay))]
    pub fn turn(&mut self, port: usize) -> Result<Turned, HubFault>
        ensures rings { rings self.new ≡ rings self.old }
        ensures outlines { outlines self.new ≡ outlines self.old }
        ensures cleared { self.new.engine.cleared ≡ self.old.engine.cleared }
        // claim: one event a turn
        ensures history { Grows port self.old self.new }
        ensures record { IsPrefix self.old.outs self.new.outs }
        // claim: answers of turns
        ensures answer { IfOk result (λ turned. AnswersTurn turned self.old self.new) }
        // claim: no out waits for a free place
        ensures flushed { IsFlushed port self.new }
        ensures unknown { length self.old.ports ≤ port → (result ≡ Err UnknownPort) × (self.new ≡ self.old) }
        ensures fault { IfErr result (λ fault. (fault ≡ Memory) ⊎ ((fault ≡ UnknownPort) × (length self.old.ports ≤ port))) }
    {
        if port >= self.ports.len() {
            return Err(HubFault::UnknownPort);
        }
        self.flush(port);
        let turned = self.advance_engine(port);
        self.flush(port);
        turned
    }
}
