//! The control of batches.
ghost use Rattle.std.specs.Prelude.{◌≡◌, IfOk, IfErr, None, option_copied};
ghost use Rattle.batch_arbiter.specs.Allocation.{resource_count};
ghost use Rattle.batch_model.specs.Moves.{next};
ghost use Rattle.batch_model.specs.Plant.{opening};
ghost use Rattle.batch_engine.specs.Answered.{IsAnswered};
ghost use Rattle.batch_engine.specs.Kept.{IsKept};
ghost use Rattle.batch_engine.specs.Marked.{AreHoldingsNoted};
ghost use Rattle.batch_engine.specs.Steps.{IsFoundBy};
ghost use Rattle.batch_engine.specs.Surface.{event_of};
ghost use Rattle.batch_engine.specs.View.{setup, plant_of};

use crate::batch::Batch;
use crate::batches::Batches;
use crate::event::Event;
use crate::reply::Reply;
use batch_arbiter::Arbiter;
use batch_verify::Cleared;
use std::alloc::{AllocError, Global};
use std::marker::Model;

/// The part that answers events and makes moves: a cleared set of recipes, the batches made of it, and the arbiter of their needs.
#[derive(Drop)]
pub struct Control {
    pub(crate) alloc: Global,
    pub(crate) cleared: Cleared,
    pub(crate) batches: Batches,
    /// How many needs all batches together can hold and ask for at once.
    pub(crate) needs: usize,
    pub(crate) next_number: u64,
    pub(crate) arbiter: Arbiter,
}

impl Model for Control {
    ghost use Rattle.std.specs.Coded.{codes};
    ghost use Rattle.batch_arbiter.specs.contracts.arbiter.Arbiter as arbiter_contracts;
    ghost use Rattle.batch_verify.specs.contracts.cleared.Cleared as cleared_contracts;
    ghost use Rattle.batch_engine.specs.contracts.batch.Batch as batch_contracts;
    ghost use Rattle.batch_engine.specs.Kept.{IsCounted};
    ghost use Rattle.batch_engine.specs.View.{EngineView, seen};

    ghost Value = { EngineView };

    ghost coded = { Prim.hlevel (codes, batch_contracts.the_row.coded, cleared_contracts.the_row.coded, arbiter_contracts.the_row.coded) };

    ghost view = { λ e. seen e.cleared e.batches.batches e.next_number e.arbiter };

    ghost invariant = { λ e. IsCounted e.batches e.needs (seen e.cleared e.batches.batches e.next_number e.arbiter) };
}

impl Control {
    /// The control of cleared recipes, before anything has happened. It keeps the allocator.
    pub(crate) fn new(alloc: Global, cleared: Cleared) -> Result<Control, (AllocError, Cleared)>
        ensures opening { IfOk result (λ control. plant_of control ≡ opening) }
        ensures cleared { IfOk result (λ control. control.cleared ≡ cleared) }
        ensures back { IfErr result (λ fault. fault.1 ≡ cleared) }
    {
        // `recipes` promises that they are cleared.
        let _recipes = cleared.recipes();
        let Ok(arbiter) = Arbiter::new(alloc, cleared.cell()) else {
            return Err((AllocError, cleared));
        };
        Ok(Control {
            alloc,
            cleared,
            batches: Batches::new(alloc),
            needs: 0,
            next_number: 1,
            arbiter,
        })
    }

    /// The recipes, and their cell.
    pub(crate) fn cleared(&self) -> &Cleared
        ensures { result.now ≡ self.now.cleared }
    {
        &self.cleared
    }

    /// States the invariant of this type, and does nothing.
    pub(crate) fn recall_invariant(&self)
        ensures { IsKept self.now }
    {
        let _number = self.next_number;
    }

    /// The batches, by rising number.
    pub(crate) fn batches(&self) -> &Batches
        ensures { result.now.batches ≡ self.now.batches }
    {
        &self.batches
    }

    /// How many resources there are.
    pub(crate) fn resources(&self) -> u16
        ensures { result ≡ resource_count self.now.allocation }
    {
        self.recall_invariant();
        self.cleared.cell().resources()
    }

    /// Answers an event, while no move is pending, by the batches that hold the units.
    #[inline(always)]
    pub(crate) fn answer_event(&mut self, event: &Event, holders: &[u64]) -> Reply
        requires settled { next (setup self.old.cleared) (plant_of self.old) ≡ None }
        requires noted { AreHoldingsNoted self.old holders.now }
        ensures { IsAnswered self.old (event_of event.now) result self.new }
    {
        match event {
            Event::Create {
                recipe,
                size,
                roles,
            } => self.create(recipe, *size, roles),
            Event::Order { command, batch } => self.order(*command, *batch),
            Event::Remove { batch } => self.remove(*batch),
            Event::Report(report) => self.report(report, holders),
        }
    }

    /// The batch with this number.
    #[inline(always)]
    pub(crate) fn find(&self, number: u64) -> Option<&Batch>
        ensures { IsFoundBy self.now number (option_copied result) }
    {
        let index = self.index_of(number)?;
        Some(&self.batches[index])
    }
}
