//! For each sign the nodes that show it.
ghost use Rattle.std.specs.Prelude.{◌≡◌, ◌<◌, ◌≤◌, ◌+◌, ◌*◌, ◌/◌, ◌%◌, ℕ, length, nat_eq, replicate, slice_set, IfOk};
ghost use Rattle.std.specs.Int.{bit_at};
ghost use Rattle.batch_signs.specs.SignSets.{AreAbsent, AreJoined, AreRoomFor, AreSummed, IsChangedAt, IsFirstShown, sign_shown};

use crate::word::{lowest_from, with_bit, with_bit_as, without_bit};
use std::alloc::{AllocError, Global};
use std::marker::Model;

/// How many signs there are.
const SIGNS: usize = 32;

/// For each sign the set of the nodes that show it, as bits, with a bit for each word that isn't 0. So the next node that shows one of some
/// signs is found by three words of each of them.
#[derive(Drop)]
pub struct Sets {
    /// For each 64 nodes and each sign a bit for each node that shows it.
    words: Vec<u64>,
    /// For each sign a bit for each 64 nodes of which one shows it.
    summary: [u64; SIGNS],
    /// A bit for each sign that a node shows.
    all: u64,
}

impl Model for Sets {
    ghost use Rattle.std.specs.Prelude.{List, ℕ};
    ghost use Rattle.batch_signs.specs.SignSets.{AreSummed};

    ghost Value = { List ℕ };

    ghost view = { λ sets. sets.words.items };

    ghost invariant = { λ sets. AreSummed sets.words.items sets.summary sets.all };
}

impl Sets {
    /// The sets of so many nodes without a sign.
    pub fn new(alloc: Global, count: usize) -> Result<Sets, AllocError>
        requires { count ≤ 4096 }
        ensures { IfOk result (λ sets. AreRoomFor sets count × ((node sign : ℕ) → sign_shown sets node sign ≡ 0)) }
    {
        Ok(Sets {
            words: vec![in alloc; 0; count.div_ceil(64) * SIGNS]?,
            summary: [0; SIGNS],
            all: 0,
        })
    }

    /// Clears the signs of all nodes.
    pub fn clear(&mut self)
        ensures { self.new ≡ replicate (length self.old) 0 }
    {
        self.words.fill(0);
        self.summary = [0; SIGNS];
        self.all = 0;
    }

    /// Replaces the old signs of the node by the new ones.
    #[inline(always)]
    pub fn change(&mut self, node: usize, was: u32, signs: u32)
        requires room { node < 2 * length self.old }
        requires was { (sign : ℕ) → sign < 32 → sign_shown self.old node sign ≡ bit_at was sign }
        ensures { IsChangedAt self.old self.new node signs }
    {
        self.all = turn_signs(
            &mut self.words,
            &mut self.summary,
            self.all,
            node,
            was,
            signs,
        );
    }

    /// Whether no node shows one of the signs.
    #[inline(always)]
    pub fn are_absent(&self, wanted: u32) -> bool
        ensures { AreAbsent self.now wanted result }
    {
        self.all & u64::from(wanted) == 0
    }

    /// The first node from this one on that shows one of the signs.
    #[inline(always)]
    pub fn next(&self, wanted: u32, from: usize) -> Option<usize>
        ensures { IsFirstShown self.now wanted from result }
    {
        if self.all & u64::from(wanted) == 0 {
            return None;
        }
        self.search(wanted, from)
    }

    /// The first node from this one on that shows one of many signs. Only the sets of the signs that a node shows are joined.
    pub fn next_of_many(&self, wanted: u32, from: usize) -> Option<usize>
        ensures { IsFirstShown self.now wanted from result }
    {
        let shown = self.all & u64::from(wanted);
        self.search(shown as u32, from)
    }

    /// The first node from this one on that shows one of the signs, by a search of the words.
    #[inline(always)]
    fn search(&self, wanted: u32, from: usize) -> Option<usize>
        ensures { IsFirstShown self.now wanted from result }
    {
        let word = from / 64;
        if word >= self.words.len() / SIGNS {
            return None;
        }
        let set = joined(&self.words, word * SIGNS, wanted);
        if let Some(bit) = lowest_from(set, from % 64) {
            return Some(word * 64 + bit);
        }
        if word == 63 {
            return None;
        }
        let later = lowest_from(joined(&self.summary, 0, wanted), word + 1)?;
        let set_later = joined(&self.words, later * SIGNS, wanted);
        let bit = lowest_from(set_later, 0)?;
        Some(later * 64 + bit)
    }
}

/// Replaces the old signs of the node by the new ones in the sets and in their summary. Returns the signs that a node shows.
#[inline(always)]
fn turn_signs(
    words: &mut [u64],
    summary: &mut [u64; SIGNS],
    all: u64,
    node: usize,
    was: u32,
    signs: u32,
) -> u64
    requires summed { AreSummed words.old summary.old all }
    requires room { node < 2 * length words.old }
    requires was { (sign : ℕ) → sign < 32 → sign_shown words.old node sign ≡ bit_at was sign }
    ensures summed { AreSummed words.new summary.new result }
    ensures changed { IsChangedAt words.old words.new node signs }
{
    let word = node / 64;
    let turned = u64::from(was ^ signs);
    let mut shown = all;
    let mut from = 0;
    while let Some(sign) = lowest_from(turned, from) {
        let set = words[word * SIGNS + sign] ^ (1 << (node % 64));
        words[word * SIGNS + sign] = set;
        if set == 0 {
            let sets = without_bit(summary[sign], word);
            summary[sign] = sets;
            shown = with_bit_as(shown, sign, sets != 0);
        } else {
            summary[sign] = with_bit(summary[sign], word);
            shown = with_bit(shown, sign);
        }
        from = sign + 1;
    }
    shown
}

/// The words of the wanted signs, joined, of the words from this one on, one for each sign.
#[inline(always)]
fn joined(words: &[u64], first: usize, wanted: u32) -> u64
    requires { first + 32 ≤ length words.now }
    ensures { AreJoined words.now first wanted 32 result }
{
    let mut set = 0;
    let mut from = 0;
    while let Some(sign) = lowest_from(u64::from(wanted), from) {
        set |= words[first + sign];
        from = sign + 1;
    }
    set
}
