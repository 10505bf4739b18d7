//! The lines of turns in a journal: each turn's are one group, which is synced before any of them is answered.

use crate::keep::{Keep, PersistFault};
use batch_journal::{Disk, Groups, JournalRun};
use std::time::Clock;

// claim: turns in a journal
impl<D: Disk, K: Clock, C: JournalRun> Keep for Groups<D, K, C> {
    ghost use Rattle.std.specs.Prelude.{true};

    ghost is_safe = { λ groups. D.is_disk groups.disk };

    ghost kept = { λ groups. D.given groups.disk };

    ghost again = { true };

    fn persist(&mut self, lines: &[u8]) -> Result<(), PersistFault> {
        match Groups::persist(self, lines) {
            Ok(()) => Ok(()),
            Err(_) => Err(PersistFault),
        }
    }

    fn is_served_again(&self) -> bool {
        true
    }
}
