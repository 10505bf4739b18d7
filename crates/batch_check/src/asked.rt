//! Needs that a path keeps.
ghost use Rattle.std.specs.Prelude.{◌≡◌, ℕ, ◌<◌, [], ◌∷◌, ◌++◌, length, IfOk, IsTrue, OnOk, Some};
ghost use Rattle.std.specs.List.{Contains};
ghost use Rattle.std.specs.Option.{ForSome};
ghost use Rattle.batch_check.specs.Pairs.{has_bit};

use batch_signs::with_bit;
use std::alloc::{AllocError, Global};

/// How many words have a bit for each resource of a cell and each role of a recipe.
pub(crate) const WORDS: usize = 7;

/// Needs from which edges are to lead, in their order.
#[derive(Drop)]
pub(crate) struct Asked {
    /// The numbers of the resources.
    pub(crate) needs: Vec<Option<u16>>,
    /// A bit for each of these numbers, so that all of them are checked in a few steps.
    pub(crate) numbers: [u64; WORDS],
    ghost sized: { length numbers ≡ 7 },
    ghost noted: { (number : ℕ) → Contains needs.items (Some number) → IsTrue (has_bit numbers number) },
}

impl Asked {
    /// No needs.
    pub(crate) fn new(alloc: Global) -> Asked
        ensures { result.needs.items ≡ [] }
    {
        Asked {
            needs: Vec::new(alloc),
            numbers: [0; WORDS],
        }
    }

    pub(crate) fn copied(&self) -> Result<Asked, AllocError>
        ensures { IfOk result (λ copy. copy.needs.items ≡ self.now.needs.items) }
    {
        let needs = self.needs.clone()?;
        let numbers = self.numbers;
        Ok(Asked { needs, numbers })
    }

    /// Adds a need after the others.
    pub(crate) fn push(&mut self, need: Option<u16>) -> Result<(), AllocError>
        requires { ForSome need (λ number. number < 448) }
        ensures { OnOk result (self.new.needs.items ≡ self.old.needs.items ++ need ∷ []) }
    {
        if let Some(number) = need {
            self.set_bit(usize::from(number));
        }
        self.needs.push(need)?;
        Ok(())
    }

    /// Sets the bit of a number.
    fn set_bit(&mut self, number: usize)
        requires { number < 448 }
        ensures needs { self.new.needs ≡ self.old.needs }
        ensures noted { IsTrue (has_bit self.new.numbers number) }
    {
        let word = number / 64;
        self.numbers[word] = with_bit(self.numbers[word], number % 64);
    }
}
