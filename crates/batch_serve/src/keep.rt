//! Keepers, which keep a group of lines before any of them is answered.
ghost use Rattle.std.specs.Prelude.{◌≡◌, ◌++◌, OnOk, OnErr};

use thiserror::Error;

/// Keeps the lines that are about to be answered.
///
/// The clauses are of a value that has kept them so far.
pub trait Keep {
    ghost use Rattle.std.specs.Prelude.{ℕ, Bool, List};

    /// The keeper has kept all lines so far. Nobody can prove this of a real file.
    ghost is_safe: { Self → Type 0 };

    /// The text that it keeps.
    ghost kept: { Self → List ℕ };

    /// The kept lines are replayed after a crash. So want of memory must end the program before a line that shows it is queued for a desk.
    ghost again: { Bool };

    /// Keeps the lines of a turn, as one group. At Ok they are safe.
    ///
    /// The error is that they can't be kept. From then on no line may be queued for a desk.
    fn persist(&mut self, lines: &[u8]) -> Result<(), PersistFault>
        ensures kept { is_safe self.new → OnOk result (kept self.new ≡ kept self.old ++ lines.now) }
        ensures unkept { is_safe self.new → OnErr result (kept self.new ≡ kept self.old) }
        ensures stays { is_safe self.new → is_safe self.old };

    /// Whether its lines are replayed.
    fn is_served_again(&self) -> bool
        ensures { result ≡ again };
}

/// Lines couldn't be kept.
#[derive(Clone, Copy, Debug, Error)]
#[error("the journal can't be written")]
pub struct PersistFault;

/// Keeps nothing.
#[derive(Drop)]
pub struct NoJournal;

impl Keep for NoJournal {
    ghost use Rattle.std.specs.Prelude.{[], false};

    ghost is_safe = { λ _. ⊥ };

    ghost kept = { λ _. [] };

    ghost again = { false };

    fn persist(&mut self, _lines: &[u8]) -> Result<(), PersistFault> {
        Ok(())
    }

    fn is_served_again(&self) -> bool {
        false
    }
}
