//! Batches that are still to be finished.
ghost use Rattle.std.specs.Prelude.{◌≡◌, ◌||◌, count_by, not};
ghost use Rattle.batch_matrix.specs.Matrix.{same_state};
ghost use Rattle.batch_matrix.specs.declared.state.State.TheVariants.{Complete};
ghost use Rattle.batch_model.specs.Moves.{is_stopped};

use crate::batches::Batches;
use batch_matrix::State;

impl Batches {
    /// How many are neither complete, stopped nor aborted.
    pub(crate) fn unfinished(&self) -> usize
        ensures { result ≡ count_by (λ b. not (same_state b.state Complete || is_stopped b.state)) self.now.batches }
    {
        let mut count = 0;
        for index in 0..self.len() {
            if is_unfinished(self[index].state) {
                count += 1;
            }
        }
        count
    }
}

fn is_unfinished(state: State) -> bool
    ensures { result ≡ not (same_state state Complete || is_stopped state) }
{
    !matches!(state, State::Complete | State::Stopped | State::Aborted)
}
