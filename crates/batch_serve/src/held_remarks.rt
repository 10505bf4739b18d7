//! Remarks where answers are held back.
ghost use Rattle.std.specs.Prelude.{◌≡◌};

use crate::held::{Held, Start};
use crate::remarks::Remarks;
use batch_wire::WriteFault;
use std::io::Write;

/// Remarks to a writer that holds answers back. The held text is passed on before a remark, so that the comments lie between the
/// lines of the record, and no part of them is taken for an answer.
#[derive(Drop)]
pub struct HeldRemarks<M> {
    remarks: M,
}

impl<M> HeldRemarks<M> {
    /// Remarks as these do.
    pub fn new(remarks: M) -> HeldRemarks<M>
        ensures { result.remarks ≡ remarks }
    {
        HeldRemarks { remarks }
    }
}

// claim: remarks on held answers
impl<W: Write, S: Start, M: Remarks<W>> Remarks<Held<W, S>> for HeldRemarks<M> {
    fn read_begins(&mut self) {
        self.remarks.read_begins();
    }

    fn is_due(&self) -> bool {
        self.remarks.is_due()
    }

    fn answer_begins(&mut self, line: &[u8], writer: &mut Held<W, S>) -> Result<(), WriteFault> {
        if self.remarks.is_due() {
            writer.remark(line, &mut self.remarks)
        } else {
            Ok(())
        }
    }
}
