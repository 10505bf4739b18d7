//! The result of writing an output.
ghost use Rattle.std.specs.Prelude.{◌≡◌, None, Some};

use crate::fault::PipeFault;

/// An output as the thread that wrote it leaves it.
#[derive(Drop)]
pub struct Written<W> {
    /// The output. There is none if it wasn't opened, or if there was no memory for its buffer.
    pub output: Option<W>,
    /// Why it ended before all was written.
    pub fault: Option<PipeFault>,
}

impl<W> Written<W> {
    /// The result for an output that wasn't opened, for this reason.
    // claim: unopened output
    pub fn unopened(fault: PipeFault) -> Written<W>
        ensures output { result.output ≡ None }
        ensures fault { result.fault ≡ Some fault }
    {
        Written {
            output: None,
            fault: Some(fault),
        }
    }
}
