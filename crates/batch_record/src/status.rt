//! The whole state that a record gives.
ghost use Rattle.std.specs.Prelude.{OnOk};
ghost use Rattle.batch_record.specs.Reading.{out_told};
ghost use Rattle.batch_record.specs.Kept.{Keeps};
ghost use Rattle.batch_record.specs.Telling.{Tale, empty_tale, tale_after};

use crate::batches::Batches;
use crate::live::LivePhases;
use crate::memory::NoMemory;
use crate::standing::Standing;
use crate::told::RecordedOut;
use std::alloc::Global;

/// Which batches there are, who holds and who waits, and which phases are live. It takes memory for the present state, and none for
/// the past.
#[derive(Drop)]
pub struct Status {
    pub(crate) batches: Batches,
    pub(crate) holders: Standing,
    pub(crate) waiters: Standing,
    pub(crate) live: LivePhases,
}

impl Status {
    /// The state before the first line of a record.
    pub fn new(alloc: Global) -> Status
        ensures { Keeps result empty_tale }
    {
        Status {
            batches: Batches::new(alloc),
            holders: Standing::new(alloc),
            waiters: Standing::new(alloc),
            live: LivePhases::new(alloc),
        }
    }

    /// Applies one more out. The error is want of memory: the out may be applied in part then, and the record must be read anew.
    // claim: told out by out
    pub fn apply_out(&mut self, alloc: Global, told: RecordedOut<'_>) -> Result<(), NoMemory>
        ensures { OnOk result ((tale : Tale) → Keeps self.old tale → Keeps self.new (tale_after tale (out_told told.entry))) }
    {
        self.batches.apply_out(alloc, told)?;
        self.holders.apply_to_holders(alloc, told)?;
        self.waiters.apply_to_waiters(alloc, told)?;
        self.live.apply_out(alloc, told)
    }
}
