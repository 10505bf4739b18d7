//! A cache entry: the place that was written last for a batch.
ghost use Rattle.std.specs.Prelude.{◌≡◌, ◌≤◌, ◌<◌, ◌++◌, ℕ, List, IfSome, IsTrue, Some, codes, decimal, drop, length, take};
ghost use Rattle.batch_recipe.specs.Texts.{place_text};
ghost use Rattle.batch_engine.specs.Names.{recipe_place_at};
ghost use Rattle.batch_verify.specs.ClearedSet.{ClearedSet};
ghost use Rattle.batch_wire.specs.Known.{AreKnownBy, AreKnownIn, EndsAt, HoldsBatch, IsCutBack, IsAddedIfRoom, IsLast};
ghost use Rattle.batch_wire.specs.Pieces.{text_of_place, text_of_site};

use crate::names::recipe_at;
use crate::putting::put_piece;
use crate::site::Site;
use crate::steps::{MAX_STEP_LEN, put_number, put_step};
use batch_recipe::{Entry, Recipe};
use batch_verify::Cleared;
use itoa::Buffer;

/// How many nodes are cached: more than lie above one another if forms nest as deep as they may.
const MAX_DEPTH: usize = 192;

/// The start of the text of a place. Before it are a batch's digits, at most 20, and a space.
const PLACE_START: usize = 24;

/// The greatest end of the text of a cached place.
pub(crate) const MAX_PLACE_END: usize = 408;

/// The nodes from a recipe's root to the one whose place was written last, and the text of that place, which begins with the
/// places of the nodes above. In front of it is the batch that was written last.
#[derive(Clone, Copy)]
pub(crate) struct RecipePlaces {
    /// The batch whose digits are in front of the place.
    batch: Option<u64>,
    /// The start of these digits.
    start: usize,
    recipe: u16,
    /// How many nodes are cached.
    depth: usize,
    path: [Known; MAX_DEPTH],
    pub(crate) text: [u8; MAX_PLACE_END],
}

/// A node, and the end of the text of its place.
#[derive(Clone, Copy)]
struct Known {
    node: u16,
    end: u16,
}

impl RecipePlaces {
    /// No place is cached yet.
    pub(crate) fn new() -> RecipePlaces
        ensures { (cleared : ClearedSet) → AreKnownIn cleared result }
    {
        RecipePlaces {
            batch: None,
            start: 0,
            recipe: 0,
            depth: 0,
            path: [Known { node: 0, end: 0 }; MAX_DEPTH],
            text: [b' '; MAX_PLACE_END],
        }
    }

    /// Caches the text of a site, and returns its start and its end. That of no site is empty.
    #[inline(always)]
    pub(crate) fn find_site(
        &mut self,
        cleared: &Cleared,
        site: Option<Site>,
    ) -> Option<(usize, usize)>
        requires { AreKnownIn cleared.now self.old }
        ensures known { AreKnownIn cleared.now self.new }
        ensures found { IfSome result (λ found. (found.0 ≤ found.1) × (found.1 ≤ 408)
            × (drop found.0 (take found.1 self.new.text) ≡ text_of_site cleared.now site)) }
    {
        let Some(site) = site else {
            return Some((0, 0));
        };
        match self.find(cleared, site) {
            Some(end) => Some((self.start, end)),
            None => None,
        }
    }

    /// Caches the place of a node, with the batch in front of it, and returns the end of the place's text. None if there is no room
    /// for it, or no node of this number.
    #[inline(always)]
    fn find(&mut self, cleared: &Cleared, site: Site) -> Option<usize>
        requires { AreKnownIn cleared.now self.old }
        ensures known { AreKnownIn cleared.now self.new }
        ensures found { IfSome result (λ end. (self.new.start ≤ end) × (end ≤ 408)
            × (drop self.new.start (take end self.new.text) ≡ text_of_site cleared.now (Some site))) }
    {
        if !self.hold_batch(site.batch) {
            return None;
        }
        self.find_place(cleared, site.recipe, site.node)
    }

    /// The end of the place of a node, if the batch is already there.
    #[inline(always)]
    fn find_place(&mut self, cleared: &Cleared, recipe: u16, node: u16) -> Option<usize>
        requires { AreKnownIn cleared.now self.old }
        ensures known { AreKnownIn cleared.now self.new }
        ensures batch { self.new.batch ≡ self.old.batch }
        ensures found { IfSome result (λ end. EndsAt (place_text (recipe_place_at cleared.now recipe node)) end self.new) }
    {
        if self.recipe != recipe {
            self.recipe = recipe;
            self.depth = 0;
        }
        match recipe_at(cleared, recipe) {
            Some(recipe) => self.find_in(recipe, node),
            None => None,
        }
    }

    /// The end of the place of a node in the recipe of this cache entry.
    #[inline(always)]
    fn find_in(&mut self, recipe: &Recipe, node: u16) -> Option<usize>
        requires { AreKnownBy (text_of_place recipe.now) self.old }
        ensures recipe { self.new.recipe ≡ self.old.recipe }
        ensures batch { self.new.batch ≡ self.old.batch }
        ensures known { AreKnownBy (text_of_place recipe.now) self.new }
        ensures found { IfSome result (λ end. EndsAt (text_of_place recipe.now node) end self.new) }
    {
        if usize::from(node) >= recipe.outline.entries.len() {
            return None;
        }
        // Half of the lines have the place that was written last.
        if let Some(end) = self.end_of(node) {
            return Some(end);
        }
        self.extend(recipe, node)
    }

    /// Puts the digits of the batch in front of the place if they aren't there, unless there is no room for them.
    #[inline(always)]
    fn hold_batch(&mut self, batch: u64) -> bool
        ensures known { (text_of : ℕ → List ℕ) → AreKnownBy text_of self.old → AreKnownBy text_of self.new }
        ensures recipe { self.new.recipe ≡ self.old.recipe }
        ensures holds { IsTrue result → self.new.batch ≡ Some batch }
    {
        if let Some(held) = self.batch {
            if held == batch {
                return true;
            }
        }
        self.put_batch(batch)
    }

    /// Puts the digits of the batch in front of the place, unless there is no room for them.
    fn put_batch(&mut self, batch: u64) -> bool
        ensures known { (text_of : ℕ → List ℕ) → AreKnownBy text_of self.old → AreKnownBy text_of self.new }
        ensures recipe { self.new.recipe ≡ self.old.recipe }
        ensures holds { IsTrue result → self.new.batch ≡ Some batch }
    {
        let mut digits = Buffer::new();
        match put_piece(
            &mut self.text,
            PLACE_START - 1,
            digits.format(batch).as_bytes(),
        ) {
            Some(start) => {
                self.start = start;
                self.batch = Some(batch);
                true
            }
            None => false,
        }
    }

    /// Caches the place of a node, made from that of the node above it, and returns the end of its text. None if there is no room for
    /// it.
    #[inline(always)]
    #[cycle(reach)]
    fn extend(&mut self, recipe: &Recipe, node: u16) -> Option<usize>
        requires within { node < length recipe.now.outline.entries.items }
        requires known { AreKnownBy (text_of_place recipe.now) self.old }
        ensures recipe { self.new.recipe ≡ self.old.recipe }
        ensures batch { self.new.batch ≡ self.old.batch }
        ensures known { AreKnownBy (text_of_place recipe.now) self.new }
        ensures reached { IfSome result (λ end. EndsAt (text_of_place recipe.now node) end self.new) }
    {
        self.forget_past(node);
        if let Some(end) = self.end_of(node) {
            return Some(end);
        }
        let Entry { parent, child, .. } = recipe.outline.entries[usize::from(node)];
        let end = if node == 0 {
            self.depth = 0;
            put_number(&mut self.text, PLACE_START, child)
        } else {
            let above = self.reach_above(recipe, parent)?;
            if above + MAX_STEP_LEN > MAX_PLACE_END {
                return None;
            }
            put_step(&mut self.text, above, child)
        };
        self.push_node(node, end);
        Some(end)
    }

    /// The same by a call, as a node may lie far below the last one.
    #[cycle(reach)]
    fn reach(&mut self, recipe: &Recipe, node: u16) -> Option<usize>
        requires within { node < length recipe.now.outline.entries.items }
        requires known { AreKnownBy (text_of_place recipe.now) self.old }
        ensures recipe { self.new.recipe ≡ self.old.recipe }
        ensures batch { self.new.batch ≡ self.old.batch }
        ensures known { AreKnownBy (text_of_place recipe.now) self.new }
        ensures reached { IfSome result (λ end. EndsAt (text_of_place recipe.now node) end self.new) }
    {
        self.extend(recipe, node)
    }

    /// The end of the place of the node above another one, which mostly is the last node once those after it are forgotten.
    #[inline(always)]
    #[cycle(reach)]
    fn reach_above(&mut self, recipe: &Recipe, node: u16) -> Option<usize>
        requires within { node < length recipe.now.outline.entries.items }
        requires known { AreKnownBy (text_of_place recipe.now) self.old }
        ensures recipe { self.new.recipe ≡ self.old.recipe }
        ensures batch { self.new.batch ≡ self.old.batch }
        ensures known { AreKnownBy (text_of_place recipe.now) self.new }
        ensures reached { IfSome result (λ end. EndsAt (text_of_place recipe.now node) end self.new) }
    {
        self.forget_past(node);
        if let Some(end) = self.end_of(node) {
            return Some(end);
        }
        self.reach(recipe, node)
    }

    /// Forgets the last nodes, as far as they come after this one.
    fn forget_past(&mut self, node: u16)
        requires { self.old.depth ≤ 192 }
        ensures { IsCutBack self.old self.new }
    {
        while self.depth > 0 && self.path[self.depth - 1].node > node {
            self.depth -= 1;
        }
    }

    /// The end of the text of the node's place, if it is the last node.
    fn end_of(&self, node: u16) -> Option<usize>
        requires { self.now.depth ≤ 192 }
        ensures { IfSome result (λ end. IsLast node end self.now) }
    {
        if self.depth == 0 {
            return None;
        }
        let last = self.path[self.depth - 1];
        if last.node == node {
            Some(usize::from(last.end))
        } else {
            None
        }
    }

    /// Caches the node as the last one, unless the entry is full.
    fn push_node(&mut self, node: u16, end: usize)
        requires { end ≤ 408 }
        ensures { IsAddedIfRoom node end self.old self.new }
    {
        if self.depth < MAX_DEPTH {
            self.path[self.depth] = Known {
                node,
                end: end as u16,
            };
            self.depth += 1;
        }
    }
}
