//! Sets of edges.
ghost use Rattle.std.specs.Prelude.{◌≡◌, ℕ, ◌+◌, ◌*◌, ◌<◌, ◌≤◌, ◌⊎◌, [], Some, length, IfOk, IsTrue, OnOk};
ghost use Rattle.std.specs.List.{Contains};
ghost use Rattle.batch_check.specs.Edges.{has_pair};
ghost use Rattle.batch_check.specs.Pairs.{Keeps, has_bit};
ghost use Rattle.batch_check.specs.declared.edge.Edge.{Edge};

use crate::asked::{Asked, WORDS};
use crate::edge::Edge;
use batch_signs::with_bit;
use std::alloc::{AllocError, Global};

/// How many bits a row has, for the edges that lead to one resource.
const ROW: usize = WORDS * 64;

/// Edges between the resources and roles below a count, at most one for each pair of them, in the order in which they were added.
#[derive(Drop)]
pub(crate) struct EdgeSet {
    /// How many resources there are, and roles.
    pub(crate) count: u16,
    /// A bit for each two resources, set if an edge leads to the one from the other. The bits of the edges to one resource stand side by
    /// side, so that many are checked together.
    pub(crate) known: Vec<u64>,
    pub(crate) edges: Vec<Edge>,
    ghost few: { count ≤ 448 },
    ghost sized: { length known.items ≡ count * 7 },
    ghost exact: { (earlier later : ℕ) → earlier < count → later < count
        → has_bit known.items (later * 448 + earlier) ≡ has_pair edges.items earlier later },
}

impl EdgeSet {
    /// The set without edges.
    pub(crate) fn new(alloc: Global, count: u16) -> Result<EdgeSet, AllocError>
        requires { count ≤ 448 }
        ensures { IfOk result (λ set. (set.count ≡ count) × (set.edges.items ≡ [])) }
    {
        let words = usize::from(count) * WORDS;
        Ok(EdgeSet {
            count,
            known: vec![in alloc; 0; words]?,
            edges: Vec::new(alloc),
        })
    }

    /// Adds the edge, if none leads from its earlier resource to its later one yet.
    pub(crate) fn add(&mut self, edge: Edge) -> Result<(), AllocError>
        requires earlier { edge.earlier < self.old.count }
        requires later { edge.later < self.old.count }
        ensures count { self.new.count ≡ self.old.count }
        ensures added { OnOk result (IsTrue (has_pair self.new.edges.items edge.earlier edge.later)) }
        ensures kept { Keeps self.old.edges.items self.new.edges.items }
        ensures stays { (e : Edge) → Contains self.old.edges.items e → Contains self.new.edges.items e }
        ensures only { (e : Edge) → Contains self.new.edges.items e → Contains self.old.edges.items e ⊎ (e ≡ edge) }
        ensures fresh { (e : Edge) → Contains self.new.edges.items e
            → Contains self.old.edges.items e ⊎ ¬ (IsTrue (has_pair self.old.edges.items e.earlier e.later)) }
    {
        let pair = usize::from(edge.later) * ROW + usize::from(edge.earlier);
        let word = pair / 64;
        let known = self.known[word];
        let marked = with_bit(known, pair % 64);
        if marked != known {
            self.edges.push(edge)?;
            self.known[word] = marked;
        }
        Ok(())
    }

    /// Whether an edge leads to the resource `later` from each of the needs.
    pub(crate) fn has_each(&self, asked: &Asked, later: u16) -> bool
        requires { later < self.now.count }
        ensures { IsTrue result → (earlier : ℕ) → earlier < self.now.count → Contains asked.now.needs.items (Some earlier)
            → IsTrue (has_pair self.now.edges.items earlier later) }
    {
        let first = usize::from(later) * WORDS;
        for word in 0..WORDS {
            let wanted = asked.numbers[word];
            if self.known[first + word] & wanted != wanted {
                return false;
            }
        }
        true
    }
}
