//! Circles of edges.
ghost use Rattle.std.specs.Prelude.{◌≡◌, ◌≢◌, ℕ, ◌<◌, length, IfOk, IfSome, IfNone};
ghost use Rattle.std.specs.List.{All, HoldsAt};
ghost use Rattle.batch_check.specs.LeastRanking.{HasEndsBelow, IsEdgeCircle};
ghost use Rattle.batch_check.specs.Raising.{IsProgress, Overruns};

use crate::edge::Edge;
use std::alloc::{AllocError, Global};

/// Walks back along the causes from an edge that overruns, up to the first resource that comes again.
pub(crate) fn circle_through(
    alloc: Global,
    edge: Edge,
    edges: &[Edge],
    ranks: &[u32],
    causes: &[Option<Edge>],
) -> Result<Vec<Edge>, AllocError>
    requires within { HasEndsBelow (length ranks.now) edges.now }
    requires progress { IsProgress edges.now ranks.now causes.now }
    requires overruns { Overruns edges.now ranks.now edge }
    ensures { IfOk result (λ circle. IsEdgeCircle edges.now circle.items) }
{
    let mut walk = vec![in alloc; edge]?;
    let mut at = edge.earlier;
    loop {
        if let Some(end) = place_into(&walk, at) {
            walk.truncate(end + 1);
            return Ok(walk);
        }
        match causes[usize::from(at)] {
            Some(cause) => {
                walk.insert(0, cause)?;
                at = cause.earlier;
            }
            None => unreachable!(),
        }
    }
}

/// The first place of the walk whose edge leads to the resource.
fn place_into(walk: &[Edge], resource: u16) -> Option<usize>
    ensures absent { IfNone result (All (λ e. e.later ≢ resource) walk.now) }
    ensures found { IfSome result (λ i. (i < length walk.now) × HoldsAt (λ e. e.later ≡ resource) walk.now i) }
{
    walk.iter().position(|edge| edge.later == resource)
}
