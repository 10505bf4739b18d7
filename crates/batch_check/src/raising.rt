//! Rounds that raise ranks.
ghost use Rattle.std.specs.Prelude.{ℕ, ◌<◌, length};
ghost use Rattle.batch_check.specs.LeastRanking.{HasEndsBelow};
ghost use Rattle.batch_check.specs.Raising.{IsProgress, IsRound};

use crate::edge::Edge;

/// The outcome of a round over all edges.
pub(crate) enum Round {
    /// The ranks rise along all edges.
    Still,
    /// Some rank was raised.
    Raised,
    /// The later resource of this edge would need a rank above the number of resources.
    Overran(Edge),
}

/// Raises the later resource of each edge above its earlier one, and keeps for each resource the edge that raised it last.
///
/// No rank goes above the number of resources: at an edge that asks for one, the round stops.
pub(crate) fn raise_all(edges: &[Edge], ranks: &mut [u32], causes: &mut [Option<Edge>]) -> Round
    requires small { length ranks.old < 65536 }
    requires within { HasEndsBelow (length ranks.old) edges.now }
    requires progress { IsProgress edges.now ranks.old causes.old }
    ensures progress { IsProgress edges.now ranks.new causes.new }
    ensures round { IsRound edges.now ranks.old ranks.new result }
{
    let count = ranks.len() as u32;
    let mut raised = false;
    for edge in edges {
        let earlier = usize::from(edge.earlier);
        let later = usize::from(edge.later);
        let rank = ranks[earlier];
        if ranks[later] <= rank {
            if rank >= count {
                return Round::Overran(*edge);
            }
            ranks[later] = rank + 1;
            causes[later] = Some(*edge);
            raised = true;
        }
    }
    if raised { Round::Raised } else { Round::Still }
}
