//! States.
ghost use Rattle.std.specs.Prelude.{◌≡◌};
ghost use Rattle.batch_matrix.specs.Matrix.{ends_as};

/// The state of a batch or of a live phase.
#[derive(Clone, Copy, PartialEq, Eq)]
pub enum State {
    /// Made, and not started.
    Idle,
    /// Running its procedure or its phase.
    Running,
    /// On its way to `Paused`.
    Pausing,
    /// At rest at the next point where it may pause.
    Paused,
    /// On its way to `Held`.
    Holding,
    /// In a condition in which it can stay.
    Held,
    /// On its way from `Held` to `Running`.
    Restarting,
    /// On its way to `Stopped`.
    Stopping,
    /// Ended in a controlled way before its end.
    Stopped,
    /// On its way to `Aborted`.
    Aborting,
    /// Ended at once before its end.
    Aborted,
    /// Run to its end.
    Complete,
}

/// The state in which this one ends by itself. None of a state that stays until a command comes.
// claim: own ends
pub fn ends_as(state: State) -> Option<State>
    ensures { result ≡ ends_as state }
{
    match state {
        State::Running => Some(State::Complete),
        State::Pausing => Some(State::Paused),
        State::Holding => Some(State::Held),
        State::Restarting => Some(State::Running),
        State::Stopping => Some(State::Stopped),
        State::Aborting => Some(State::Aborted),
        State::Idle
        | State::Paused
        | State::Held
        | State::Stopped
        | State::Aborted
        | State::Complete => None,
    }
}
