//! Rounds that reach further resources.
ghost use Rattle.std.specs.Prelude.{◌<◌, length};
ghost use Rattle.batch_check.specs.LeastRanking.{HasEndsBelow};
ghost use Rattle.batch_check.specs.Spreading.{IsSpread, IsSpreadOn};

use crate::edge::Edge;

/// The outcome of a round over all edges from one level.
pub(crate) enum Spread {
    /// Nothing more was reached.
    Still,
    /// Some resource was reached.
    Further,
    /// This edge leads from the level back to the start.
    Back(Edge),
}

/// Gives the next level to each resource without a level to which an edge leads from this level, and keeps that edge.
///
/// Levels count from 1, that of the start; a resource that isn't reached has 0. At an edge back to the start the round stops.
pub(crate) fn spread_on(
    edges: &[Edge],
    start: u16,
    level: usize,
    levels: &mut [usize],
    causes: &mut [Option<Edge>],
) -> Spread
    requires room { level < usize.MAX }
    requires inside { start < length levels.old }
    requires within { HasEndsBelow (length levels.old) edges.now }
    requires spread { IsSpread edges.now start level levels.old causes.old }
    ensures { IsSpreadOn edges.now start level levels.new causes.new result }
{
    let mut further = false;
    for edge in edges {
        if levels[usize::from(edge.earlier)] == level {
            if edge.later == start {
                return Spread::Back(*edge);
            }
            let later = usize::from(edge.later);
            if levels[later] == 0 {
                levels[later] = level + 1;
                causes[later] = Some(*edge);
                further = true;
            }
        }
    }
    if further {
        Spread::Further
    } else {
        Spread::Still
    }
}
