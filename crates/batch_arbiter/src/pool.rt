//! The pool.
ghost use Rattle.std.specs.Prelude.{◌≡◌, ◌+◌, ◌-◌, ◌<◌, ◌≤◌, ◌^◌, ◌++◌, ◌∷◌, [], ℕ, List, length, map, filter, not, take, drop, replicate, slice_get, option_map, Option, Some, None, MatchOption, IfSome, IfNone, IfOk, IsOk, OnOk, OnErr, Bool, true, false, vec_len, vec_capacity};
ghost use Rattle.batch_arbiter.specs.Allocation.{asks_of, is_claim, is_of_batch, without_first};
ghost use Rattle.batch_arbiter.specs.Linked.{entry_claim, entry_claims, at, list_at, with_list, unlinked_behind, IsSomeList, IsBefore, HasNone, IsRemoved, IsGrown};

use crate::ends::Ends;
use crate::entry::Entry;
use std::alloc::{AllocError, Global};
use std::marker::Model;

/// The most entries of a pool: as many as a `u32` numbers.
const MAX_ENTRIES: usize = 1 << 32;

/// Lists of claims whose entries are in one table. Only `new` and `reserve` take memory.
#[derive(Drop)]
pub struct Pool {
    /// The first one is never used: the free entries lead to it.
    entries: Vec<Entry>,
    lists: Vec<Ends>,
    /// The number of the first free entry.
    free: u32,
    /// How many entries are free.
    room: usize,
}

impl Model for Pool {
    ghost use Rattle.std.specs.Prelude.{map};
    ghost use Rattle.batch_arbiter.specs.Linked.{Lists, AreLinkedLists, entry_claims};

    ghost Value = { Lists };

    ghost view = { λ p. record { lists = map (entry_claims p.entries.items) p.lists.items; room = p.room } };

    ghost invariant = { λ p. AreLinkedLists p.entries.items p.lists.items p.free p.room };
}

impl Pool {
    /// A pool of so many lists without a claim, and without room.
    pub fn new(alloc: Global, lists: usize) -> Result<Self, AllocError>
        requires { lists < 2 ^ 31 }
        ensures { IfOk result (λ p. p ≡ record { lists = replicate lists []; room = 0 }) }
    {
        let mut entries = Vec::with_capacity(alloc, lists + 1)?;
        let mut ends = Vec::with_capacity(alloc, lists)?;
        entries.push(Entry::EMPTY)?;
        for list in 0..lists {
            let end = list as u32 + 1;
            entries.push(Entry::EMPTY)?;
            ends.push(Ends {
                first: end,
                len: 0,
                end,
            })?;
        }
        Ok(Self {
            entries,
            lists: ends,
            free: 0,
            room: 0,
        })
    }

    /// How many claims can still be taken.
    pub fn room(&self) -> usize
        ensures { result ≡ self.now.room }
    {
        self.room
    }

    /// The first claim of a list.
    #[inline(always)]
    pub fn first(&self, list: usize) -> Option<Entry>
        requires { list < length self.now.lists }
        ensures { option_map entry_claim result ≡ slice_get (list_at self.now list) 0 }
    {
        let ends = self.lists[list];
        if ends.len == 0 {
            return None;
        }
        Some(self.entries[ends.first as usize])
    }

    /// A claim joins the end of a list.
    #[inline(always)]
    pub fn push(&mut self, list: usize, claim: Entry)
        requires known { list < length self.old.lists }
        requires room { 0 < self.old.room }
        ensures { self.new ≡ with_list self.old list (list_at self.old list ++ entry_claim claim ∷ []) (self.old.room - 1) }
    {
        let taken = self.free;
        let ends = self.lists[list];
        self.free = self.entries[taken as usize].next;
        self.entries[ends.end as usize] = Entry {
            batch: claim.batch,
            units: claim.units,
            next: taken,
            node: claim.node,
        };
        self.lists[list] = Ends {
            first: ends.first,
            len: ends.len + 1,
            end: taken,
        };
        self.room -= 1;
    }

    /// The first claim leaves a list that has one.
    #[inline(always)]
    pub fn take_first(&mut self, list: usize) -> Entry
        requires known { list < length self.old.lists }
        requires some { 0 < length (list_at self.old list) }
        ensures value { list_at self.old list ≡ entry_claim result ∷ drop 1 (list_at self.old list) }
        ensures after { self.new ≡ with_list self.old list (drop 1 (list_at self.old list)) (self.old.room + 1) }
    {
        let ends = self.lists[list];
        let taken = self.entries[ends.first as usize];
        self.entries[ends.first as usize].next = self.free;
        self.lists[list] = Ends {
            first: taken.next,
            len: ends.len - 1,
            end: ends.end,
        };
        self.free = ends.first;
        self.room += 1;
        taken
    }

    /// All claims of the batch leave a list, which has at most so many of them: it isn't searched beyond the last.
    pub fn remove_batch(&mut self, list: usize, batch: u64, most: u16)
        requires known { list < length self.old.lists }
        requires most { asks_of batch (list_at self.old list) ≤ most }
        ensures { self.new ≡ with_list self.old list
            (filter (λ c. not (is_of_batch batch c)) (list_at self.old list))
            (self.old.room + asks_of batch (list_at self.old list)) }
    {
        if most == 0 {
            return;
        }
        let Some(first) = self.first(list) else {
            return;
        };
        if first.batch == batch {
            self.remove_behind(list, batch, most - 1);
            let _ = self.take_first(list);
        } else {
            self.remove_behind(list, batch, most);
        }
    }

    /// All claims of the batch behind the first claim of a list leave the list, which has at most so many of them there. The first claim
    /// stays.
    fn remove_behind(&mut self, list: usize, batch: u64, most: u16)
        requires known { list < length self.old.lists }
        requires some { 0 < length (list_at self.old list) }
        requires most { asks_of batch (drop 1 (list_at self.old list)) ≤ most }
        ensures { self.new ≡ with_list self.old list
            (take 1 (list_at self.old list) ++ filter (λ c. not (is_of_batch batch c)) (drop 1 (list_at self.old list)))
            (self.old.room + asks_of batch (drop 1 (list_at self.old list))) }
    {
        let ends = self.lists[list];
        let mut before = ends.first;
        let mut left = most;
        for _ in 1..ends.len {
            if left == 0 {
                return;
            }
            let next = self.entries[before as usize].next;
            if self.entries[next as usize].batch == batch {
                self.free = unlink(&mut self.entries, before, self.free);
                self.lists[list].len -= 1;
                self.room += 1;
                left -= 1;
            } else {
                before = next;
            }
        }
    }

    /// Removes the first claim of the act from a list, and returns its units. None where the act has none there.
    #[inline(always)]
    pub fn remove(&mut self, list: usize, batch: u64, node: u16) -> Option<u32>
        requires { list < length self.old.lists }
        ensures some { IfSome result (λ units. IsRemoved self.old list batch node units self.new) }
        ensures none { IfNone result (HasNone batch node (list_at self.old list)) }
    {
        let first = self.first(list)?;
        if first.is_of(batch, node) {
            return Some(self.take_first(list).units);
        }
        self.remove_later(list, batch, node)
    }

    /// Removes the first claim of the act from a list whose first claim is another act's, and returns its units. None where the act has
    /// none there.
    #[inline(never)]
    fn remove_later(&mut self, list: usize, batch: u64, node: u16) -> Option<u32>
        requires known { list < length self.old.lists }
        requires later { MatchOption (slice_get (list_at self.old list) 0) ⊥ (λ c. is_claim batch node c ≡ false) }
        ensures some { IfSome result (λ units. IsRemoved self.old list batch node units self.new) }
        ensures none { IfNone result (HasNone batch node (list_at self.old list)) }
    {
        let ends = self.lists[list];
        let before = before_act(&self.entries, ends, batch, node)?;
        let taken = unlink(&mut self.entries, before, self.free);
        self.lists[list] = Ends {
            first: ends.first,
            len: ends.len - 1,
            end: ends.end,
        };
        self.free = taken;
        self.room += 1;
        Some(self.entries[taken as usize].units)
    }

    /// Makes room for `n` more claims, if it isn't there already.
    pub fn reserve(&mut self, n: usize) -> Result<(), AllocError>
        ensures ok { OnOk result (n ≤ self.new.room) }
        ensures room { self.old.room ≤ self.new.room }
        ensures rest { self.new ≡ record self.old { room = self.new.room } }
        ensures there { n ≤ self.old.room → IsOk result }
        ensures err { OnErr result (self.new ≡ self.old) }
    {
        if n <= self.room {
            return Ok(());
        }
        let more = n - self.room;
        if more > MAX_ENTRIES - self.entries.len() {
            return Err(AllocError);
        }
        self.entries.reserve(more)?;
        self.free = add_free(&mut self.entries, self.free, more);
        self.room = n;
        Ok(())
    }
}

/// The number of the entry before the first one of the act, which isn't the list's first. None where the act has none.
fn before_act(entries: &[Entry], ends: Ends, batch: u64, node: u16) -> Option<u32>
    requires linked { IsSomeList entries.now ends }
    requires some { 0 < ends.len }
    requires later { is_claim batch node (entry_claim (at entries.now ends.first)) ≡ false }
    ensures some { IfSome result (λ before. IsBefore entries.now ends batch node before) }
    ensures none { IfNone result (HasNone batch node (entry_claims entries.now ends)) }
{
    let mut before = ends.first;
    for _ in 1..ends.len {
        let next = entries[before as usize].next;
        if entries[next as usize].is_of(batch, node) {
            return Some(before);
        }
        before = next;
    }
    None
}

/// Moves the entry behind another one from its list to the front of the free ones. Returns its number.
fn unlink(entries: &mut Vec<Entry>, before: u32, free: u32) -> u32
    requires known { before < length entries.old.items }
    requires next { (at entries.old.items before).next < length entries.old.items }
    ensures value { result ≡ (at entries.old.items before).next }
    ensures after { entries.new.items ≡ unlinked_behind entries.old.items before free }
{
    let taken = entries[before as usize].next;
    entries[before as usize].next = entries[taken as usize].next;
    entries[taken as usize].next = free;
    taken
}

/// Adds so many entries before the first free one. Returns the number of the first free one after that.
fn add_free(entries: &mut Vec<Entry>, free: u32, more: usize) -> u32
    requires fits { vec_len entries.old + more ≤ vec_capacity entries.old }
    requires numbered { vec_len entries.old + more ≤ 2 ^ 32 }
    ensures { IsGrown entries.old.items free entries.new.items result more }
{
    let mut first = free;
    for _ in 0..more {
        let entry = Entry {
            next: first,
            ..Entry::EMPTY
        };
        first = entries.len() as u32;
        let _ = entries.push(entry);
    }
    first
}
