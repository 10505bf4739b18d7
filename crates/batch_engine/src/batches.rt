//! The batches: in a slab under keys, and beside them the order of their numbers.
ghost use Rattle.std.specs.Prelude.{◌≡◌, ◌<◌, IfSome, Some, length, nat_eq, position, slice_index_or, OnOk, OnErr};
ghost use Rattle.std.specs.Borrow.{sem};
ghost use Rattle.batch_engine.specs.Batches.{IsNewNumber, no_batches, with_batch, without_batch};

use crate::batch::Batch;
use slab::Slab;
use std::alloc::{AllocError, Global};
use std::marker::Model;
use std::ops::{Index, IndexMut};

/// The number of a batch, and its key in the slab.
#[derive(Clone, Copy)]
pub struct Entry {
    pub number: u64,
    pub key: usize,
}

/// The batches, by rising number. An index counts them from the least number on.
// claim: batches kept
#[derive(Drop)]
pub struct Batches {
    slab: Slab<Batch>,
    /// The entries of the batches, one for each, by rising number.
    entries: Vec<Entry>,
}

impl Model for Batches {
    ghost use Rattle.std.specs.Coded.{codes};
    ghost use Rattle.batch_engine.specs.contracts.batch.Batch as batch_contracts;
    ghost use Rattle.batch_engine.specs.Batches.{IsFiled, BatchList, list_of};

    ghost Value = { BatchList };

    ghost coded = { Prim.hlevel (codes, batch_contracts.the_row.coded) };

    ghost view = { λ b. list_of b.slab b.entries.items };

    ghost invariant = { λ b. IsFiled b.slab b.entries.items };
}

impl Batches {
    /// No batches. Nothing is allocated before the first is added.
    pub(crate) fn new(alloc: Global) -> Batches
        ensures { result ≡ no_batches }
    {
        Batches {
            slab: Slab::new(alloc),
            entries: Vec::new(alloc),
        }
    }

    /// How many batches there are.
    #[inline(always)]
    pub(crate) fn len(&self) -> usize
        ensures { result ≡ length self.now.batches }
    {
        self.entries.len()
    }

    /// The index of the batch that was added with this number.
    #[inline(always)]
    pub(crate) fn index_of(&self, number: u64) -> Option<usize>
        ensures { result ≡ position (λ n. nat_eq n number) self.now.numbers }
    {
        match self.guess(number) {
            Some(index) => Some(index),
            None => self.search(number),
        }
    }

    /// The index of the batch with this number, if no batch between the first and it was removed: the difference of their numbers.
    #[inline(always)]
    fn guess(&self, number: u64) -> Option<usize>
        ensures { IfSome result (λ index. Some index ≡ position (λ n. nat_eq n number) self.now.numbers) }
    {
        let first = self.entries.first()?;
        let index = number.wrapping_sub(first.number) as usize;
        let entry = self.entries.get(index)?;
        if entry.number == number {
            Some(index)
        } else {
            None
        }
    }

    /// The index of the batch with this number, by binary search.
    #[inline(never)]
    fn search(&self, number: u64) -> Option<usize>
        ensures { result ≡ position (λ n. nat_eq n number) self.now.numbers }
    {
        self.entries
            .binary_search_by_key(&number, |entry| entry.number)
            .ok()
    }

    /// Adds a batch, whose number is above all others. If there is no memory nothing changes.
    pub(crate) fn add(&mut self, batch: Batch) -> Result<(), AllocError>
        requires { IsNewNumber batch.number self.old }
        ensures added { OnOk result (self.new ≡ with_batch batch self.old) }
        ensures same { OnErr result (self.new ≡ self.old) }
    {
        self.slab.reserve(1)?;
        self.entries.reserve(1)?;
        let number = batch.number;
        let key = self.slab.insert_reserved(batch);
        self.entries.push_reserved(Entry { number, key });
        Ok(())
    }

    /// Removes the batch at an index. Its place in memory is free for the next one.
    pub(crate) fn remove(&mut self, index: usize) -> Batch
        requires { index < length self.old.batches }
        ensures value { result ≡ slice_index_or self.old.batches index result }
        ensures rest { self.new ≡ without_batch index self.old }
    {
        let entry = self.entries.remove(index);
        self.slab.remove(entry.key)
    }
}

impl Index<usize> for Batches {
    type Output = Batch;

    ghost can_index = { λ s i. i < length s.batches };

    ghost index_gives = { λ s i x. x ≡ slice_index_or s.batches i x };

    fn index(&self, index: usize) -> &Batch {
        let entry = &self.entries[index];
        &self.slab[entry.key]
    }
}

impl IndexMut<usize> for Batches {
    ghost use Rattle.batch_engine.specs.Lends.{lends_batch};

    fn index_mut(&mut self, index: usize) -> &mut Batch
        requires { index < length self.old.batches }
        ensures* writes_back { sem 𝓛 (lends_batch self.entry index result) }
        ensures value { result.now ≡ slice_index_or self.old.batches index result.now }
    {
        let entry = self.entries[index];
        &mut self.slab[entry.key]
    }
}
