//! Remarks on the lines that are served.
ghost use Rattle.std.specs.Prelude.{◌≡◌, Ok, None};
ghost use Rattle.std.specs.Io.KnownBytes.{Keeps};
ghost use Rattle.batch_wire.specs.EventLine.{event_of_line};

use batch_wire::WriteFault;
use std::io::Write;

/// Remarks on the lines that are served, in comments of the record that goes to a writer.
///
/// To the contracts of serving no remark is part of the writer's contents.
// claim: remarks are no record
pub trait Remarks<W: Write> {
    /// A read of the input brought bytes, or its end.
    fn read_begins(&mut self);

    /// Whether something is remarked on the next line that is answered.
    fn is_due(&self) -> bool;

    /// The line is about to be answered: it is an event, or is refused. If it is too long, only a prefix that shows so may be known.
    ///
    /// The error means that the writer failed, or took nothing.
    fn answer_begins(&mut self, line: &[u8], writer: &mut W) -> Result<(), WriteFault>
        requires { event_of_line line.now ≡ Ok None → ⊥ }
        ensures { Keeps (W.contents writer.old) (W.contents writer.new) };
}

/// Remarks nothing.
#[derive(Drop)]
pub struct NoRemarks;

impl<W: Write> Remarks<W> for NoRemarks {
    fn read_begins(&mut self) {}

    fn is_due(&self) -> bool {
        false
    }

    fn answer_begins(&mut self, _line: &[u8], _writer: &mut W) -> Result<(), WriteFault> {
        Ok(())
    }
}
