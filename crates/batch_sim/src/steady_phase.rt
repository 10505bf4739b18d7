//! A phase of a steady unit.
ghost use Rattle.std.specs.Prelude.{◌≡◌};
ghost use Rattle.batch_matrix.specs.Matrix as matrix;
ghost use Rattle.batch_sim.specs.SteadyUnit.{end_of, is_unstarted_or_over, ordered, after_tick, unstarted, report_of_end};

use crate::order::Order;
use batch_matrix::{Report, State, ends_as, target};

/// A phase of a steady unit: its state, and how many ticks it has to run.
#[derive(Clone, Copy)]
pub(crate) struct SteadyPhase {
    pub(crate) state: State,
    pub(crate) ticks_left: u64,
}

impl SteadyPhase {
    pub(crate) fn unstarted() -> SteadyPhase
        ensures { result ≡ unstarted }
    {
        SteadyPhase {
            state: State::Idle,
            ticks_left: 0,
        }
    }

    /// Takes an order. A start has it run all the ticks; a command is passed over unless the phase was started and isn't over.
    pub(crate) fn apply_order(&mut self, order: Order, ticks: u64)
        ensures { self.new ≡ ordered ticks order self.old }
    {
        match order {
            Order::Start => {
                self.state = State::Running;
                self.ticks_left = ticks;
            }
            Order::Send(command) => {
                if !is_over(self.state) {
                    self.state = target(command);
                }
            }
        }
    }

    /// One tick passes.
    pub(crate) fn count_down(&mut self)
        ensures { self.new ≡ after_tick self.old }
    {
        if self.state == State::Running {
            self.ticks_left = self.ticks_left.saturating_sub(1);
        }
    }

    /// The state as which the phase ends by itself now.
    pub(crate) fn end(&self) -> Option<State>
        ensures { result ≡ end_of self.now }
    {
        if self.state == State::Running && self.ticks_left > 0 {
            None
        } else {
            ends_as(self.state)
        }
    }
}

/// Whether a phase in this state isn't started, or has ended.
fn is_over(state: State) -> bool
    ensures { result ≡ is_unstarted_or_over state }
{
    matches!(
        state,
        State::Idle | State::Complete | State::Stopped | State::Aborted
    )
}

/// The report of a phase that ended as this.
pub(crate) fn word_of(end: State) -> Report
    ensures { result ≡ report_of_end end }
{
    match end {
        State::Paused => Report::Paused,
        State::Held => Report::Held,
        State::Running => Report::Running,
        State::Stopped => Report::Stopped,
        State::Aborted => Report::Aborted,
        _ => Report::Done,
    }
}
