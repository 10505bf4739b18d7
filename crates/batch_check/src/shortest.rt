//! Circles with the fewest edges.
ghost use Rattle.std.specs.Prelude.{◌≡◌, ◌<◌, length, IfOk, MatchOption};
ghost use Rattle.batch_check.specs.LeastRanking.{IsEdgeCircle, HasEndsBelow};
ghost use Rattle.batch_check.specs.Spreading.{HasFewest, IsClosedAt, IsFewest, LeadsBack, NoneBelow};

use crate::edge::Edge;
use crate::spreading::{Spread, spread_on};
use std::alloc::{AllocError, Global};

/// A circle of the edges between the resources below `count` with the fewest edges: `circle`, or one with fewer.
// claim: circle is short
pub(crate) fn shortest_circle(
    alloc: Global,
    count: u16,
    edges: &[Edge],
    circle: Vec<Edge>,
) -> Result<Vec<Edge>, AllocError>
    requires within { HasEndsBelow count edges.now }
    requires circle { IsEdgeCircle edges.now circle.items }
    ensures circle { IfOk result (λ shortest. IsEdgeCircle edges.now shortest.items) }
    ensures fewest { IfOk result (λ shortest. HasFewest edges.now shortest.items) }
{
    let mut shortest = circle;
    for start in 0..count {
        if let Some(shorter) = shorter_through(alloc, start, count, edges, shortest.len())? {
            shortest = shorter;
        }
    }
    Ok(shortest)
}

/// A circle through the resource with the fewest edges, if those are fewer than `most`.
fn shorter_through(
    alloc: Global,
    start: u16,
    count: u16,
    edges: &[Edge],
    most: usize,
) -> Result<Option<Vec<Edge>>, AllocError>
    requires start { start < count }
    requires within { HasEndsBelow count edges.now }
    ensures { IfOk result (λ shorter. MatchOption shorter (NoneBelow edges.now start most)
        (λ circle. IsFewest edges.now start most circle.items)) }
{
    let mut levels = vec![in alloc; 0usize; usize::from(count)]?;
    levels[usize::from(start)] = 1;
    let mut causes: Vec<Option<Edge>> = vec![in alloc; None; usize::from(count)]?;
    for level in 1..most {
        match spread_on(edges, start, level, &mut levels, &mut causes) {
            Spread::Still => return Ok(None),
            Spread::Further => {}
            Spread::Back(last) => {
                let circle = circle_behind(alloc, start, last, edges, level, &levels, &causes)?;
                return Ok(Some(circle));
            }
        }
    }
    Ok(None)
}

/// Walks back along the causes to the start, from an edge that leads there.
fn circle_behind(
    alloc: Global,
    start: u16,
    last: Edge,
    edges: &[Edge],
    level: usize,
    levels: &[usize],
    causes: &[Option<Edge>],
) -> Result<Vec<Edge>, AllocError>
    requires within { HasEndsBelow (length levels.now) edges.now }
    requires back { LeadsBack edges.now start level levels.now causes.now last }
    ensures { IfOk result (λ circle. IsClosedAt edges.now start level circle.items) }
{
    let mut walk = vec![in alloc; last]?;
    let mut at = last.earlier;
    while at != start {
        match causes[usize::from(at)] {
            Some(cause) => {
                walk.insert(0, cause)?;
                at = cause.earlier;
            }
            None => unreachable!(),
        }
    }
    Ok(walk)
}
