//! The outcome of the output of a desk.
use crate::output::OutputChild;
use crate::pipes::Outputs;
use crate::written::Written;
use std::io::Write;

/// The outcome of the output of a desk. A thread is given back only if nobody joined it: whoever joins a thread uses it up.
#[derive(Drop)]
pub enum OutputOutcome<W: Write + Drop, P: Outputs<W> + Drop> {
    /// The desk has no output.
    Absent,
    /// The thread of the output ended and was joined.
    Joined {
        /// The result that was handed back for its path.
        written: Written<W>,
        /// How many lines were left on their way to it.
        left: usize,
    },
    /// The thread of the output wasn't joined: it may be blocked in opening or writing.
    Unjoined(OutputChild<W, P>),
}
