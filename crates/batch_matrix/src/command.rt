//! Commands.
ghost use Rattle.std.specs.Prelude.{◌≡◌};
ghost use Rattle.batch_matrix.specs.Matrix.{accepts, after, target};

use crate::state::State;

/// A command to a batch or a live phase.
#[derive(Clone, Copy, PartialEq, Eq)]
pub enum Command {
    Start,
    Pause,
    Resume,
    Hold,
    Restart,
    Stop,
    Abort,
    Reset,
}

/// The state that the command leads to, or None where the state doesn't accept it and so stays.
// claim: cells of the matrix
pub fn after(state: State, command: Command) -> Option<State>
    ensures { result ≡ after state command }
{
    if accepts(state, command) {
        Some(target(command))
    } else {
        None
    }
}

/// Whether the state accepts the command.
fn accepts(state: State, command: Command) -> bool
    ensures { result ≡ accepts state command }
{
    match state {
        State::Idle => matches!(command, Command::Start),
        State::Running => matches!(
            command,
            Command::Pause | Command::Hold | Command::Stop | Command::Abort
        ),
        State::Paused => matches!(
            command,
            Command::Resume | Command::Hold | Command::Stop | Command::Abort
        ),
        State::Held => matches!(command, Command::Restart | Command::Stop | Command::Abort),
        State::Pausing | State::Restarting => matches!(
            command,
            Command::Hold | Command::Stop | Command::Abort
        ),
        State::Holding => matches!(command, Command::Stop | Command::Abort),
        State::Stopping => matches!(command, Command::Abort),
        State::Stopped => matches!(command, Command::Abort | Command::Reset),
        State::Aborting => false,
        State::Aborted | State::Complete => matches!(command, Command::Reset),
    }
}

/// The state that the command leads to, from each state that accepts it.
// claim: cells of the matrix
pub fn target(command: Command) -> State
    ensures { result ≡ target command }
{
    match command {
        Command::Start | Command::Resume => State::Running,
        Command::Pause => State::Pausing,
        Command::Hold => State::Holding,
        Command::Restart => State::Restarting,
        Command::Stop => State::Stopping,
        Command::Abort => State::Aborting,
        Command::Reset => State::Idle,
    }
}
