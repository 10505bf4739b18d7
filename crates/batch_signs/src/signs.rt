//! The signs of nodes, by which nodes are found.
ghost use Rattle.std.specs.Prelude.{◌≡◌, ◌<◌, ◌≤◌, ℕ, length, replicate, slice_set, IfOk};
ghost use Rattle.batch_signs.specs.Signs.{FindsNone, IsNextShown, TellsNone, replaced, sign_at};

use crate::sets::Sets;
use std::alloc::{AllocError, Global};
use std::marker::Model;

/// For each node a set of signs, as the bits of a word, and for each sign the set of the nodes that show it. These sets give at once
/// that no node has a sign, and in a few steps the next node that has it.
#[derive(Drop)]
pub struct Signs {
    nodes: Vec<u32>,
    sets: Sets,
}

impl Model for Signs {
    ghost use Rattle.std.specs.Prelude.{List, ℕ};
    ghost use Rattle.batch_signs.specs.Signs.{AreBySign};

    ghost Value = { List ℕ };

    ghost view = { λ signs. signs.nodes.items };

    ghost invariant = { λ signs. AreBySign signs.nodes.items signs.sets };
}

impl Signs {
    /// The signs of so many nodes, none of which shows one.
    // claim: signs shown
    pub fn new(alloc: Global, count: usize) -> Result<Signs, AllocError>
        requires { count ≤ 4096 }
        ensures { IfOk result (λ signs. signs ≡ replicate count 0) }
    {
        Ok(Signs {
            nodes: vec![in alloc; 0; count]?,
            sets: Sets::new(alloc, count)?,
        })
    }

    /// The signs that the node shows.
    // claim: signs shown
    #[inline(always)]
    pub fn at(&self, node: usize) -> u32
        ensures { result ≡ sign_at self.now node }
    {
        self.nodes.get(node).copied().unwrap_or(0)
    }

    /// Gives the node these signs, and no others.
    // claim: signs shown
    #[inline(always)]
    pub fn set(&mut self, node: usize, signs: u32)
        requires { node < length self.old }
        ensures { self.new ≡ slice_set self.old node signs }
    {
        self.sets.change(node, self.nodes[node], signs);
        self.nodes[node] = signs;
    }

    /// Gives the node these signs instead, if it shows any.
    // claim: signs shown
    pub fn replace(&mut self, node: usize, signs: u32)
        ensures { self.new ≡ replaced self.old node signs }
    {
        if self.at(node) != 0 {
            self.set(node, signs);
        }
    }

    /// Clears the signs of all nodes.
    // claim: signs shown
    pub fn clear(&mut self)
        ensures { self.new ≡ replicate (length self.old) 0 }
    {
        self.nodes.fill(0);
        self.sets.clear();
    }

    /// Whether no node from this one on, up to `end`, shows one of the signs.
    // claim: next sign
    pub fn has_none(&self, wanted: u32, from: usize, end: usize) -> bool
        ensures { TellsNone self.now wanted from end result }
    {
        match self.next(wanted, from) {
            None => true,
            Some(node) => end <= node,
        }
    }

    /// Whether no node shows one of the signs.
    // claim: next sign
    #[inline(always)]
    pub fn are_absent(&self, wanted: u32) -> bool
        ensures { FindsNone self.now wanted result }
    {
        self.sets.are_absent(wanted)
    }

    /// The first node from this one on that shows one of the signs. None if no node does.
    // claim: next sign
    #[inline(always)]
    pub fn next(&self, wanted: u32, from: usize) -> Option<usize>
        ensures { IsNextShown self.now wanted from result }
    {
        self.sets.next(wanted, from)
    }

    /// The first node from this one on that shows one of many signs, most of which no node shows. None if no node does.
    // claim: next sign
    pub fn next_of_many(&self, wanted: u32, from: usize) -> Option<usize>
        ensures { IsNextShown self.now wanted from result }
    {
        self.sets.next_of_many(wanted, from)
    }
}
