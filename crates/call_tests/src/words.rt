//! The words of scripts: numbers that are read, and values that are written.
use batch_desk::{LoopEnd, Turned};
use batch_engine::{Event, PhaseReport};
use batch_matrix::{Command, Report, State};
use std::alloc::Global;
use std::fmt::Debug;
use std::test::Fail;

/// The number before the first space, and the rest behind it.
pub(crate) fn number_of(words: &str) -> Result<(u16, &str), Fail> {
    let (number, rest) = words.split_once(' ').unwrap_or((words, ""));
    Ok((number.parse()?, rest))
}

/// A line with a value. It is proved anew wherever a value is written, so it is written here.
pub(crate) fn shown<T: Debug>(alloc: Global, word: &str, value: &T) -> Result<String, Fail> {
    Ok(format!(in alloc; "{word}: {value:?}\n")?)
}

/// A line with a text.
pub(crate) fn said(alloc: Global, word: &str, text: &str) -> Result<String, Fail> {
    Ok(format!(in alloc; "{word}: {text}\n")?)
}

/// The word of a state, or `none` where there is no act.
pub(crate) fn state_word(state: Option<State>) -> &'static str {
    match state {
        Some(State::Idle) => "idle",
        Some(State::Running) => "running",
        Some(State::Pausing) => "pausing",
        Some(State::Paused) => "paused",
        Some(State::Holding) => "holding",
        Some(State::Held) => "held",
        Some(State::Restarting) => "restarting",
        Some(State::Stopping) => "stopping",
        Some(State::Stopped) => "stopped",
        Some(State::Aborting) => "aborting",
        Some(State::Aborted) => "aborted",
        Some(State::Complete) => "complete",
        None => "none",
    }
}

pub(crate) fn report_word(report: Report) -> &'static str {
    match report {
        Report::Done => "done",
        Report::Paused => "paused",
        Report::Held => "held",
        Report::Running => "running",
        Report::Stopped => "stopped",
        Report::Aborted => "aborted",
        Report::Fault => "fault",
    }
}

fn command_word(command: Command) -> &'static str {
    match command {
        Command::Start => "start",
        Command::Pause => "pause",
        Command::Resume => "resume",
        Command::Hold => "hold",
        Command::Restart => "restart",
        Command::Stop => "stop",
        Command::Abort => "abort",
        Command::Reset => "reset",
    }
}

pub(crate) fn turn_word(turned: Turned) -> &'static str {
    match turned {
        Turned::Idle => "idle",
        Turned::Handled => "handled",
        Turned::MovesLeft => "moves left",
    }
}

pub(crate) fn loop_word(end: LoopEnd) -> &'static str {
    match end {
        LoopEnd::Done => "done",
        LoopEnd::Refused => "refused",
        LoopEnd::TurnsOut => "turns out",
    }
}

/// The words of a report's event line, and how many outputs it has.
fn report_words(alloc: Global, report: &PhaseReport) -> Result<String, Fail> {
    let (unit, phase) = (&report.unit, &report.phase);
    let word = report_word(report.word);
    let outputs = report.outputs.len();
    Ok(format!(in alloc; "report {unit} {phase} {word}, {outputs} outputs")?)
}

/// The words of an event line, and how many roles or outputs it has.
pub(crate) fn event_words(alloc: Global, event: &Event) -> Result<String, Fail> {
    match event {
        Event::Create {
            recipe,
            size,
            roles,
        } => {
            let roles = roles.len();
            Ok(format!(in alloc; "create {recipe} {size}, {roles} roles")?)
        }
        Event::Order { command, batch } => {
            let command = command_word(*command);
            Ok(format!(in alloc; "{command} {batch}")?)
        }
        Event::Remove { batch } => Ok(format!(in alloc; "remove {batch}")?),
        Event::Report(report) => report_words(alloc, report),
    }
}
