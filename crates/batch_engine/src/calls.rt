//! The engine's calls.
ghost use Rattle.std.specs.Prelude.{◌≡◌, ◌↔◌, IfOk, IfErr, IsTrue, None, option_map};
ghost use Rattle.batch_model.specs.ActStates.{state_of};
ghost use Rattle.batch_model.specs.Moves.{next};
ghost use Rattle.batch_model.specs.Plant.{opening};
ghost use Rattle.batch_engine.specs.Answered.{IsAnswered, MayWant};
ghost use Rattle.batch_engine.specs.Led.{IsLed};
ghost use Rattle.batch_engine.specs.Looked.{batch_state_in, unfinished, value_in};
ghost use Rattle.batch_engine.specs.Surface.{event_of, move_of, plant_after};
ghost use Rattle.batch_engine.specs.View.{setup, plant_of};

use crate::control::Control;
use crate::engine::Engine;
use crate::event::Event;
use crate::holding::{no_holders, note_grant};
use crate::line::Line;
use crate::marking::{mark_answered, mark_moved};
use crate::marks::Marks;
use crate::refusal::Refusal;
use crate::reply::Reply;
use batch_matrix::State;
use batch_text::{Name, Place};
use batch_verify::Cleared;
use std::alloc::{AllocError, Global};

impl Engine {
    /// The engine of cleared recipes, in which nothing has happened. It owns them, and keeps the allocator. If memory is refused, the error
    /// gives them back.
    pub fn new(alloc: Global, cleared: Cleared) -> Result<Engine, (AllocError, Cleared)>
        // claim: opening
        ensures opening { IfOk result (λ engine. plant_of engine ≡ opening) }
        // claim: set of an engine
        ensures cleared { IfOk result (λ engine. engine.cleared ≡ cleared) }
        // claim: set given back
        ensures back { IfErr result (λ fault. fault.1 ≡ cleared) }
    {
        let Ok(holders) = no_holders(alloc, cleared.cell()) else {
            return Err((AllocError, cleared));
        };
        let control = Control::new(alloc, cleared)?;
        control.recall_invariant();
        Ok(Engine {
            control,
            marks: Marks::new(),
            holders,
        })
    }

    /// The recipes that the engine runs, and their cell. A record leads to the engine's plant, so all that is promised of records
    /// holds of it.
    pub fn cleared(&self) -> &Cleared
        ensures value { result.now ≡ self.now.cleared }
        // claim: led to
        ensures led { IsLed self.now }
    {
        self.control.cleared()
    }

    /// Answers an event. While moves are pending every event is refused.
    // claim: events; binding; required outputs; no memory for a create; the set stays
    #[inline(always)]
    pub fn accept(&mut self, event: &Event) -> Reply
        ensures { IsAnswered self.old (event_of event.now) result self.new }
    {
        if !self.settled() {
            return Reply::Refused(Refusal::MovesPending);
        }
        let reply = self.control.answer_event(event, &self.holders);
        self.control.recall_invariant();
        mark_answered(&mut self.marks, &self.control, &reply);
        reply
    }

    /// Whether the event makes a batch if there is memory for it. Want of memory may be the answer to no other event.
    // claim: events that would create
    pub fn would_create(&self, event: &Event) -> bool
        ensures { IsTrue result ↔ MayWant self.now (event_of event.now) }
    {
        match event {
            Event::Create {
                recipe,
                size,
                roles,
            } => {
                if !self.settled() {
                    return false;
                }
                self.control.would_create(recipe, *size, roles)
            }
            Event::Order { .. } => false,
            Event::Remove { .. } => false,
            Event::Report(_) => false,
        }
    }

    /// Whether no move is possible.
    // claim: settled
    #[inline(always)]
    pub fn settled(&self) -> bool
        ensures { IsTrue result ↔ (next (setup self.now.cleared) (plant_of self.now) ≡ None) }
    {
        self.control.first_step(&self.marks).is_none()
    }

    /// Makes the next move, if one is possible.
    #[inline(always)]
    pub fn next_move(&mut self) -> Option<Line>
        // claim: next move; no next move
        ensures next { option_map (move_of self.old.cleared) result ≡ next (setup self.old.cleared) (plant_of self.old) }
        // claim: plant after a move
        ensures plant { plant_of self.new ≡ plant_after self.old.cleared (plant_of self.old) result }
        // claim: the set stays
        ensures cleared { self.new.cleared ≡ self.old.cleared }
    {
        let Some(step) = self.control.take_step(&mut self.marks) else {
            return None;
        };
        let line = self.control.make_step(step);
        self.control.recall_invariant();
        note_grant(&mut self.holders, &line);
        mark_moved(&mut self.marks, &self.control, line.touched());
        Some(line)
    }

    /// The state that the act at a place of the batch with this number shows. None where no batch has the number, or no act is there.
    // claim: state of an act
    pub fn state_of(&self, batch: u64, place: &Place) -> Option<State>
        ensures { result ≡ state_of (plant_of self.now) batch place.now }
    {
        let batch = self.control.find(batch)?;
        let cleared = self.control.cleared();
        let node = cleared.node_of(batch.recipe, place)?;
        batch
            .running
            .state_at(cleared.recipe(batch.recipe), node, batch.state)
    }

    /// The value with this name of the batch with this number. None where no batch has the number, or the batch no value of the name.
    // claim: value of a batch
    pub fn value_of(&self, batch: u64, name: &Name) -> Option<u64>
        ensures { result ≡ value_in (plant_of self.now) batch name.now }
    {
        self.control.find(batch)?.values.value_of(name)
    }

    /// The state of the batch with this number. None where no batch has the number.
    // claim: state of a batch
    pub fn batch_state(&self, batch: u64) -> Option<State>
        ensures { result ≡ batch_state_in (plant_of self.now) batch }
    {
        Some(self.control.find(batch)?.state)
    }

    /// How many batches are neither complete, stopped nor aborted.
    // claim: batches unfinished
    pub fn unfinished(&self) -> usize
        ensures { result ≡ unfinished (plant_of self.now) }
    {
        self.control.batches().unfinished()
    }
}
