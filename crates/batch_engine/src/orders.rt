//! Orders to batches.
ghost use Rattle.std.specs.Prelude.{◌≡◌, ◌≤◌, None, length, nat_eq, position};
ghost use Rattle.batch_arbiter.specs.Allocation.{AsksAtMost, resource_count};
ghost use Rattle.batch_matrix.specs.Matrix.{target};
ghost use Rattle.batch_matrix.specs.declared.command.Command.TheVariants as Command;
ghost use Rattle.batch_model.specs.Events as Events;
ghost use Rattle.batch_model.specs.Moves.{next};
ghost use Rattle.batch_engine.specs.Answered.{IsAnswered};
ghost use Rattle.batch_engine.specs.Orders.{EndsAsks, IsOrder, IsOrdered, IsPlain};
ghost use Rattle.batch_engine.specs.Steps.{IsBatch};
ghost use Rattle.batch_engine.specs.View.{setup, plant_of};

use crate::batch::Batch;
use crate::control::Control;
use crate::pending::resource_at;
use crate::refusal::Refusal;
use crate::reply::Reply;
use batch_cell::{MAX_MODULES, MAX_SHARED, MAX_UNITS};
use batch_matrix::{Command, State, after};

/// The most resources that a cell may have.
const MAX_RESOURCES: usize = MAX_UNITS + MAX_MODULES + MAX_SHARED;

impl Control {
    /// The index of the batch with this number.
    #[inline(always)]
    pub(crate) fn index_of(&self, number: u64) -> Option<usize>
        ensures { result ≡ position (λ b. nat_eq b.number number) self.now.batches }
    {
        self.batches.index_of(number)
    }

    /// The batch at an index takes a command that changes its state alone.
    #[inline(always)]
    fn enter(&mut self, index: usize, command: Command, state: State, number: u64)
        requires order { IsOrder self.old index command number }
        requires plain { IsPlain command }
        requires target { state ≡ target command }
        ensures { IsOrdered self.old command number self.new }
    {
        let batch = &mut self.batches[index];
        batch.state = state;
    }

    /// How many acts of a batch wait for each resource.
    fn asks_by_resource(&self, batch: &Batch) -> [u16; MAX_RESOURCES]
        requires { IsBatch self.now batch.now }
        ensures known { resource_count self.now.allocation ≤ length result }
        ensures asks { AsksAtMost self.now.allocation batch.now.number result }
    {
        let chart = self.cleared.recipe(batch.recipe);
        let set = self.cleared.linked();
        let mut asks = [0; MAX_RESOURCES];
        let mut from = 0;
        while let Some((node, need)) = batch.running.waiting(chart, from) {
            let (resource, _units) = resource_at(set, chart, batch, node, need);
            asks[usize::from(resource)] += 1;
            from = node + 1;
        }
        asks
    }

    /// The batch at an index is stopped or aborted.
    #[inline(never)]
    fn stop(&mut self, index: usize, command: Command, state: State, number: u64)
        requires order { IsOrder self.old index command number }
        requires ends { EndsAsks command }
        requires target { state ≡ target command }
        ensures { IsOrdered self.old command number self.new }
    {
        let asks = self.asks_by_resource(&self.batches[index]);
        self.arbiter.withdraw(number, &asks);
        let batch = &mut self.batches[index];
        batch.state = state;
        batch.running.withdraw_asks();
    }

    /// The procedure of the batch at an index is reached anew.
    #[inline(never)]
    fn reset(&mut self, index: usize, number: u64)
        requires order { IsOrder self.old index Command.Reset number }
        ensures { IsOrdered self.old Command.Reset number self.new }
    {
        let batch = &mut self.batches[index];
        let chart = self.cleared.recipe(batch.recipe);
        batch.values.clear_outputs(&chart.outputs);
        batch.state = State::Idle;
        batch.running.reset(chart);
    }

    /// A batch takes a command.
    #[inline(always)]
    pub(crate) fn order(&mut self, command: Command, number: u64) -> Reply
        requires { next (setup self.old.cleared) (plant_of self.old) ≡ None }
        ensures { IsAnswered self.old (Events.order command number) result self.new }
    {
        let Some(index) = self.index_of(number) else {
            return Reply::Refused(Refusal::UnknownBatch);
        };
        let state = self.batches[index].state;
        let Some(next) = after(state, command) else {
            return Reply::Refused(Refusal::CommandNotAccepted(state));
        };
        match command {
            Command::Stop | Command::Abort => self.stop(index, command, next, number),
            Command::Reset => self.reset(index, number),
            _ => self.enter(index, command, next, number),
        }
        Reply::Ordered {
            command,
            batch: number,
            state: next,
        }
    }

    /// A batch is to be removed.
    pub(crate) fn remove(&mut self, number: u64) -> Reply
        requires { next (setup self.old.cleared) (plant_of self.old) ≡ None }
        ensures { IsAnswered self.old (Events.remove number) result self.new }
    {
        let Some(index) = self.index_of(number) else {
            return Reply::Refused(Refusal::UnknownBatch);
        };
        let state = self.batches[index].state;
        let State::Idle = state else {
            return Reply::Refused(Refusal::NotIdle(state));
        };
        let removed = self.batches.remove(index);
        self.needs -= removed.running.needs();
        Reply::Removed { batch: number }
    }
}
