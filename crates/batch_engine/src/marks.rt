//! Marks on numbers, of which the least is found in a few steps.
ghost use Rattle.std.specs.Prelude.{◌≡◌, ◌<◌, ◌≤◌, ℕ};
ghost use Rattle.batch_signs.specs.Bits.{with_one, with_zero};
ghost use Rattle.batch_engine.specs.Marks.{IsNextMark, IsUnmarked, mark_at};

use batch_signs::{lowest_from, with_bit, without_bit};
use std::marker::Model;

/// Marks on the first 4,096 numbers. No call takes memory.
#[derive(Drop)]
pub struct Marks {
    /// A bit for each number.
    words: [u64; 64],
    /// A bit for each word that isn't 0.
    summary: u64,
}

impl Model for Marks {
    ghost use Rattle.std.specs.Prelude.{List, ℕ};
    ghost use Rattle.batch_engine.specs.Marks.{IsSummary};

    ghost Value = { List ℕ };

    ghost view = { λ m. m.words };

    ghost invariant = { λ m. IsSummary m.words m.summary };
}

impl Marks {
    /// Marks of which none is set.
    pub(crate) fn new() -> Marks
        ensures { (i : ℕ) → IsUnmarked result i }
    {
        Marks {
            words: [0; 64],
            summary: 0,
        }
    }

    /// Marks a number.
    #[inline(always)]
    pub(crate) fn set(&mut self, index: usize)
        requires { index < 4096 }
        ensures { (i : ℕ) → mark_at self.new i ≡ with_one index (mark_at self.old) i }
    {
        let word = index / 64;
        self.words[word] = with_bit(self.words[word], index % 64);
        self.summary = with_bit(self.summary, word);
    }

    /// Removes the mark of a number.
    #[inline(always)]
    pub(crate) fn clear(&mut self, index: usize)
        requires { index < 4096 }
        ensures { (i : ℕ) → mark_at self.new i ≡ with_zero index (mark_at self.old) i }
    {
        let word = index / 64;
        let left = without_bit(self.words[word], index % 64);
        self.words[word] = left;
        if left == 0 {
            self.summary = without_bit(self.summary, word);
        }
    }

    /// The least marked number, from this one on.
    #[inline(always)]
    pub(crate) fn next(&self, from: usize) -> Option<usize>
        ensures { IsNextMark self.now from result }
    {
        if from >= 4096 {
            return None;
        }
        let word = from / 64;
        if let Some(bit) = lowest_from(self.words[word], from % 64) {
            return Some(word * 64 + bit);
        }
        if word == 63 {
            return None;
        }
        let later = lowest_from(self.summary, word + 1)?;
        let bit = lowest_from(self.words[later], 0)?;
        Some(later * 64 + bit)
    }
}
