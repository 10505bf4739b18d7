//! States, commands and reports as words of record lines.
ghost use Rattle.std.specs.Prelude.{◌≡◌, ◌++◌, codes};
ghost use Rattle.batch_wire.specs.RecordText.{command_text, report_text, state_text};

use batch_matrix::{Command, Report, State};

/// The state as the last word of a line: a space before it, and the line's end after it.
pub(crate) fn last_word(state: State) -> &'static [u8]
    ensures { result.now ≡ codes " " ++ (state_text state ++ codes "\n") }
{
    match state {
        State::Idle => b" idle\n",
        State::Running => b" running\n",
        State::Pausing => b" pausing\n",
        State::Paused => b" paused\n",
        State::Holding => b" holding\n",
        State::Held => b" held\n",
        State::Restarting => b" restarting\n",
        State::Stopping => b" stopping\n",
        State::Stopped => b" stopped\n",
        State::Aborting => b" aborting\n",
        State::Aborted => b" aborted\n",
        State::Complete => b" complete\n",
    }
}

/// A command, as a word.
pub(crate) fn command_text(command: Command) -> &'static [u8]
    ensures { result.now ≡ command_text command }
{
    match command {
        Command::Start => b"start",
        Command::Pause => b"pause",
        Command::Resume => b"resume",
        Command::Hold => b"hold",
        Command::Restart => b"restart",
        Command::Stop => b"stop",
        Command::Abort => b"abort",
        Command::Reset => b"reset",
    }
}

/// The report of a phase, as a word with a space on either side.
pub(crate) fn inner_word(word: Report) -> &'static [u8]
    ensures { result.now ≡ codes " " ++ (report_text word ++ codes " ") }
{
    match word {
        Report::Done => b" done ",
        Report::Paused => b" paused ",
        Report::Held => b" held ",
        Report::Running => b" running ",
        Report::Stopped => b" stopped ",
        Report::Aborted => b" aborted ",
        Report::Fault => b" fault ",
    }
}
