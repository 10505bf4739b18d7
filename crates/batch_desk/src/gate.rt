//! Gates of loops.

/// Decides before each turn of a loop whether it is made.
pub trait Gate {
    ghost use Rattle.std.specs.Prelude.{ℕ, Bool};

    /// The states that the gate may have after it was asked for a turn and gave this answer.
    ghost passes: { Self → ℕ → Bool → Self → Type 0 };

    /// Whether the turn with this number is made. A turn that isn't made counts too; the first has the number 0.
    fn lets_pass(&mut self, turn: u64) -> bool
        ensures { passes self.old turn result self.new };
}
