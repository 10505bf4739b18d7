//! Bits of a word.
ghost use Rattle.std.specs.Prelude.{◌≡◌, ◌<◌, ℕ};
ghost use Rattle.std.specs.Int.{bit_at};
ghost use Rattle.batch_signs.specs.Bits.{IsLowestFrom, with_one, with_zero, with_told};

/// The word with this bit set.
// claim: bits of a word
#[inline]
pub fn with_bit(word: u64, at: usize) -> u64
    requires { at < 64 }
    ensures { (k : ℕ) → bit_at result k ≡ with_one at (bit_at word) k }
{
    word | (1 << at)
}

/// The word with this bit cleared.
// claim: bits of a word
#[inline]
pub fn without_bit(word: u64, at: usize) -> u64
    requires { at < 64 }
    ensures { (k : ℕ) → bit_at result k ≡ with_zero at (bit_at word) k }
{
    word & !(1 << at)
}

/// The word with this bit set or cleared.
#[inline]
pub fn with_bit_as(word: u64, at: usize, told: bool) -> u64
    requires { at < 64 }
    ensures { (k : ℕ) → bit_at result k ≡ with_told told at (bit_at word) k }
{
    if told {
        with_bit(word, at)
    } else {
        without_bit(word, at)
    }
}

/// The lowest bit that is set, from this one on.
// claim: bits of a word
#[inline]
pub fn lowest_from(word: u64, from: usize) -> Option<usize>
    requires { from < 64 }
    ensures { IsLowestFrom word from result }
{
    let rest = word & (u64::MAX << from);
    if rest == 0 {
        return None;
    }
    Some(rest.trailing_zeros() as usize)
}
