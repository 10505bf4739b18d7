//! Sets of the phases of a recipe, by number.
ghost use Rattle.std.specs.Prelude.{◌≡◌, ◌<◌, ◌||◌, ◌↔◌, ℕ, false, nat_eq, true};
ghost use Rattle.batch_verify.specs.PhaseSets.{has, is_set};

/// A set of numbers below 256, of which each has a bit. A recipe has at most `MAX_ACTS` phase steps, 256.
#[derive(Clone, Copy)]
pub(crate) struct PhaseSet {
    low: u128,
    high: u128,
}

impl PhaseSet {
    /// The set without numbers.
    pub(crate) fn new() -> PhaseSet
        ensures { (k : ℕ) → has result k ≡ false }
    {
        PhaseSet { low: 0, high: 0 }
    }

    /// The set of one number.
    pub(crate) fn of(number: u8) -> PhaseSet
        ensures { (k : ℕ) → has result k ≡ nat_eq k number }
    {
        if number < 128 {
            PhaseSet {
                low: 1 << number,
                high: 0,
            }
        } else {
            PhaseSet {
                low: 0,
                high: 1 << (number - 128),
            }
        }
    }

    /// The numbers that are in one of the two sets.
    pub(crate) fn joined(self, other: PhaseSet) -> PhaseSet
        ensures { (k : ℕ) → has result k ≡ (has self k || has other k) }
    {
        PhaseSet {
            low: self.low | other.low,
            high: self.high | other.high,
        }
    }

    /// Whether no number is in both sets.
    pub(crate) fn is_disjoint(self, other: PhaseSet) -> bool
        ensures { (result ≡ true) ↔ ((k : ℕ) → has self k ≡ true → has other k ≡ true → ⊥) }
    {
        share_no_bit(self.low, other.low) && share_no_bit(self.high, other.high)
    }
}

/// Whether no bit is set in both words.
fn share_no_bit(one: u128, other: u128) -> bool
    ensures none { result ≡ true → (k : ℕ) → is_set one k ≡ true → is_set other k ≡ true → ⊥ }
    ensures all { ((k : ℕ) → k < 128 → is_set one k ≡ true → is_set other k ≡ true → ⊥) → result ≡ true }
{
    one & other == 0
}
