//! The state of a console between its turns.
ghost use Rattle.std.specs.Prelude.{◌≡◌, ◌<◌, []};
ghost use Rattle.batch_desk.specs.ConsoleSteps.{GoesOn, IsTried, Minds, learned};
ghost use Rattle.batch_desk.specs.Consoles.{IsSamePlan};
ghost use Rattle.batch_desk.specs.declared.batch_plan.BatchPlan as planned;
ghost use Rattle.batch_desk.specs.declared.step.Step.TheVariants.{Start as ToStart};

use crate::batch_plan::BatchPlan;
use crate::desk::PortDesk;
use crate::step::Step;
use batch_engine::{Event, Line, Out, Reply};
use batch_matrix::{Command, State};
use std::alloc::Global;

/// The state of a console between its turns.
#[derive(Drop)]
pub(crate) struct Console {
    pub(crate) step: Step,
    /// The number of the last batch of which a reply said that it was created; 0 before the first.
    pub(crate) last: u64,
    /// How many creates are still to be sent.
    pub(crate) to_create: u64,
    /// How many batches are still to become complete.
    pub(crate) to_complete: u64,
    /// Whether an event was refused.
    pub(crate) refused: bool,
}

impl Console {
    pub(crate) fn new(batches: u64) -> Console
        ensures { Minds batches result [] [] }
    {
        Console {
            step: Step::Create,
            last: 0,
            to_create: batches,
            to_complete: batches,
            refused: false,
        }
    }

    /// Updates the state by an out.
    fn learn(&mut self, out: Out)
        ensures { self.new ≡ learned out self.old }
    {
        match out {
            Out::Reply(Reply::Created { batch, .. }) => {
                if self.last < batch {
                    self.step = Step::Start(batch);
                    self.last = batch;
                }
            }
            Out::Reply(
                Reply::Ordered {
                    command: Command::Start,
                    ..
                },
            ) => {
                if self.step == Step::Wait {
                    self.step = Step::Create;
                }
            }
            Out::Reply(Reply::Refused(_)) => self.refused = true,
            Out::Move(
                Line::State {
                    state: State::Complete,
                    ..
                },
            ) => self.to_complete = self.to_complete.saturating_sub(1),
            _ => {}
        }
    }

    /// Sends the start of a batch, if there is a place for it.
    fn start(&mut self, desk: &mut PortDesk, batch: u64)
        requires { self.old.step ≡ ToStart batch }
        ensures goes { (plan : planned.BatchPlan) → GoesOn plan self.old desk.old self.new desk.new }
        ensures tries { IsTried self.old desk.old self.new desk.new }
    {
        let command = Command::Start;
        match desk.send(Event::Order { command, batch }) {
            Ok(()) => self.step = Step::Wait,
            Err(_) => {}
        }
    }

    /// Sends a create by this copy of a plan, if there is a place for it.
    fn create(&mut self, desk: &mut PortDesk, copy: BatchPlan)
        requires { 0 < self.old.to_create }
        ensures goes { (plan : planned.BatchPlan) → IsSamePlan plan copy → GoesOn plan self.old desk.old self.new desk.new }
        ensures tries { IsTried self.old desk.old self.new desk.new }
    {
        let BatchPlan {
            recipe,
            size,
            roles,
        } = copy;
        match desk.send(Event::Create {
            recipe,
            size,
            roles,
        }) {
            Ok(()) => {
                self.step = Step::Wait;
                self.to_create -= 1;
            }
            Err(_) => {}
        }
    }

    /// Sends the next event, if there are memory and a place for it.
    fn act(&mut self, alloc: Global, desk: &mut PortDesk, plan: &BatchPlan)
        ensures goes { GoesOn plan.now self.old desk.old self.new desk.new }
        // claim: tried again
        ensures tries { IsTried self.old desk.old self.new desk.new }
    {
        match self.step {
            Step::Wait => {}
            Step::Start(batch) => self.start(desk, batch),
            Step::Create => {
                if self.to_create > 0 {
                    if let Ok(copy) = plan.copy(alloc) {
                        self.create(desk, copy);
                    }
                }
            }
        }
    }

    /// One turn: takes an out, if one is there, and sends the next event.
    pub(crate) fn take_turn(&mut self, alloc: Global, desk: &mut PortDesk, plan: &BatchPlan)
        ensures { GoesOn plan.now self.old desk.old self.new desk.new }
    {
        if let Some(out) = desk.pop_out() {
            self.learn(out);
        }
        self.act(alloc, desk, plan);
    }
}
