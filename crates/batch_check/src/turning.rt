//! Circles that begin with the least name.
ghost use Rattle.std.specs.Prelude.{◌≡◌, ◌<◌, List, length, slice_index};
ghost use Rattle.std.specs.List.{All, HoldsAt};
ghost use Rattle.batch_cell.specs.LookUps.{resources_of};
ghost use Rattle.batch_check.specs.ByName.{resource_name_in, IsBelow, BeginsWithLeastName};
ghost use Rattle.batch_check.specs.LeastRanking.{HasEndsBelow, IsEdgeCircle};
ghost use Rattle.batch_check.specs.declared.edge.Edge.{Edge};

use crate::edge::Edge;
use batch_cell::Cell;

/// The circle, begun at the edge whose `earlier` has the least name.
pub(crate) fn turned(cell: &Cell, mut circle: Vec<Edge>) -> Vec<Edge>
    requires some { 0 < length circle.items }
    requires within { HasEndsBelow (length (resources_of cell.now)) circle.items }
    ensures circle { (edges : List Edge) → IsEdgeCircle edges circle.items → IsEdgeCircle edges result.items }
    ensures first { BeginsWithLeastName cell.now result.items }
    ensures sized { length result.items ≡ length circle.items }
{
    let start = place_of_least_name(cell, &circle);
    circle.rotate_left(start);
    circle
}

/// A place of the edges whose `earlier` has the least name.
fn place_of_least_name(cell: &Cell, edges: &[Edge]) -> usize
    requires some { 0 < length edges.now }
    requires within { HasEndsBelow (length (resources_of cell.now)) edges.now }
    ensures place { result < length edges.now }
    ensures least { HoldsAt (λ least. All (λ e. ¬ (IsBelow (resource_name_in cell.now e.earlier) (resource_name_in cell.now least.earlier))) edges.now) edges.now result }
{
    let mut least = 0;
    for place in 1..edges.len() {
        if cell.name_of(edges[place].earlier) < cell.name_of(edges[least].earlier) {
            least = place;
        }
    }
    least
}
