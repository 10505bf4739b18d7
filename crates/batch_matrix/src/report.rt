//! Reports of live phases.
ghost use Rattle.std.specs.Prelude.{◌≡◌};
ghost use Rattle.batch_matrix.specs.Matrix.{after_report};

use crate::state::State;

/// The word by which equipment reports on a live phase.
#[derive(Clone, Copy, PartialEq, Eq)]
pub enum Report {
    Done,
    Paused,
    Held,
    Running,
    Stopped,
    Aborted,
    Fault,
}

/// The outcome of an accepted report for its phase.
#[derive(Clone, Copy)]
pub enum ReportOutcome {
    /// The phase has ended.
    Ended,
    /// The phase is live, in this state.
    Now(State),
    /// The phase is live, in the state that it had.
    Same,
}

/// The outcome of the report for a live phase in this state. None where the phase doesn't accept it and so stays as it is.
// claim: cells of reports
#[inline(always)]
pub fn after_report(state: State, report: Report) -> Option<ReportOutcome>
    ensures { result ≡ after_report state report }
{
    match report {
        Report::Done => match state {
            State::Running
            | State::Pausing
            | State::Holding
            | State::Restarting
            | State::Stopping
            | State::Aborting => Some(ReportOutcome::Ended),
            _ => None,
        },
        Report::Paused => match state {
            State::Pausing => Some(ReportOutcome::Now(State::Paused)),
            _ => None,
        },
        Report::Held => match state {
            State::Holding => Some(ReportOutcome::Now(State::Held)),
            _ => None,
        },
        Report::Running => match state {
            State::Restarting => Some(ReportOutcome::Now(State::Running)),
            _ => None,
        },
        Report::Stopped => match state {
            State::Stopping => Some(ReportOutcome::Ended),
            _ => None,
        },
        Report::Aborted => match state {
            State::Aborting => Some(ReportOutcome::Ended),
            _ => None,
        },
        Report::Fault => match state {
            State::Idle | State::Stopped | State::Aborted | State::Complete => None,
            _ => Some(ReportOutcome::Same),
        },
    }
}
