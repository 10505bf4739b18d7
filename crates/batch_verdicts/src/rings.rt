//! The edges that lie on circles.
ghost use Rattle.std.specs.Prelude.{◌≡◌, ◌++◌, List, IfOk, OnOk, false, slice_index_or};
ghost use Rattle.std.specs.List.{All};
ghost use Rattle.batch_check.specs.declared.edge.Edge.{Edge};
ghost use Rattle.batch_verdicts.specs.Drawing.{IsOnCircle};
ghost use Rattle.batch_verdicts.specs.Reached.{AreReached, IsReached};

use batch_check::Edge;
use std::alloc::{AllocError, Global};

/// The circle's edges, and behind them all others on a circle: edges lead back from their later resource to their earlier. The
/// resources are below `count`.
pub(crate) fn red_edges(
    alloc: Global,
    count: u16,
    edges: &[Edge],
    circle: &[Edge],
) -> Result<Vec<Edge>, AllocError>
    ensures { IfOk result (λ red. (more : List Edge) × (red.items ≡ circle.now ++ more) × All (IsOnCircle edges.now) more) }
{
    let mut red = Vec::new(alloc);
    red.extend_from_slice(circle)?;
    let more = edges_on_circles(alloc, count, edges)?;
    red.extend_from_slice(&more)?;
    Ok(red)
}

/// The edges on circles: edges lead back from their later resource to their earlier one.
fn edges_on_circles(alloc: Global, count: u16, edges: &[Edge]) -> Result<Vec<Edge>, AllocError>
    ensures { IfOk result (λ found. All (IsOnCircle edges.now) found.items) }
{
    let mut found = Vec::new(alloc);
    for start in 0..count {
        let reached = reached_from(alloc, count, edges, start)?;
        push_into(edges, start, &reached, &mut found)?;
    }
    Ok(found)
}

/// Adds the edges into the start that come from a resource that is reached from there.
fn push_into(
    edges: &[Edge],
    start: u16,
    reached: &[bool],
    found: &mut Vec<Edge>,
) -> Result<(), AllocError>
    requires reached { AreReached edges.now start reached.now }
    requires before { All (IsOnCircle edges.now) found.old.items }
    ensures { OnOk result (All (IsOnCircle edges.now) found.new.items) }
{
    for edge in edges {
        if edge.later == start && is_marked(reached, edge.earlier) {
            found.push(*edge)?;
        }
    }
    Ok(())
}

/// Which of the resources below `count` edges lead to from the start, itself among them.
fn reached_from(
    alloc: Global,
    count: u16,
    edges: &[Edge],
    start: u16,
) -> Result<Vec<bool>, AllocError>
    ensures { IfOk result (λ reached. AreReached edges.now start reached.items) }
{
    let mut reached = vec![in alloc; false; usize::from(count)]?;
    mark(&mut reached, edges, start, start);
    for round in 0..count {
        if !spread(edges, start, &mut reached) {
            break;
        }
    }
    Ok(reached)
}

/// Marks the later resource of each edge whose earlier one is marked. Returns whether it marked any that wasn't before.
fn spread(edges: &[Edge], start: u16, reached: &mut [bool]) -> bool
    requires { AreReached edges.now start reached.old }
    ensures { AreReached edges.now start reached.new }
{
    let mut further = false;
    for edge in edges {
        if is_marked(reached, edge.earlier) && !is_marked(reached, edge.later) {
            mark(reached, edges, start, edge.later);
            further = true;
        }
    }
    further
}

fn is_marked(reached: &[bool], resource: u16) -> bool
    ensures { result ≡ slice_index_or reached.now resource false }
{
    match reached.get(usize::from(resource)) {
        Some(mark) => *mark,
        None => false,
    }
}

/// Marks the resource, to which the edges lead from the start.
#[tactic(auto, using(crate::proofs::EdgesOnCircles::reached_marked))]
fn mark(reached: &mut [bool], _edges: &[Edge], _start: u16, resource: u16)
    requires before { AreReached _edges.now _start reached.old }
    requires leads { IsReached _edges.now _start resource }
    ensures { AreReached _edges.now _start reached.new }
{
    let index = usize::from(resource);
    if index < reached.len() {
        reached[index] = true;
    }
}
