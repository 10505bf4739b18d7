//! The least ranking.
ghost use Rattle.std.specs.Prelude.{ℕ, IfOk};
ghost use Rattle.batch_check.specs.Finding.{IsRankingOf};
ghost use Rattle.batch_check.specs.LeastRanking.{HasEndsBelow};

use crate::circle::circle_through;
use crate::edge::Edge;
use crate::raising::{Round, raise_all};
use std::alloc::{AllocError, Global};

/// The least ranks that edges allow, or a circle of edges.
#[derive(Drop)]
pub(crate) enum Ranking {
    /// The rank of each resource, by number.
    Ranks(Vec<u32>),
    /// A circle of edges, along which no ranks can rise.
    Circle(Vec<Edge>),
}

/// The least ranking of the resources below `count` that rises along all edges, or a circle where there is no ranking.
// claim: least ranks; tight ranks; circle closes
pub(crate) fn least_ranks(alloc: Global, count: u16, edges: &[Edge]) -> Result<Ranking, AllocError>
    requires { HasEndsBelow count edges.now }
    ensures { IfOk result (IsRankingOf count edges.now) }
{
    let mut ranks = vec![in alloc; 1u32; usize::from(count)]?;
    let mut causes: Vec<Option<Edge>> = vec![in alloc; None; usize::from(count)]?;
    for round in 0..count {
        match raise_all(edges, &mut ranks, &mut causes) {
            Round::Still => return Ok(Ranking::Ranks(ranks)),
            Round::Raised => {}
            Round::Overran(edge) => {
                let circle = circle_through(alloc, edge, edges, &ranks, &causes)?;
                return Ok(Ranking::Circle(circle));
            }
        }
    }
    Ok(Ranking::Ranks(ranks))
}
