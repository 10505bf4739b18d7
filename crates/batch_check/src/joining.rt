//! Edges to one need of a path.
ghost use Rattle.std.specs.Prelude.{◌≡◌, ◌<◌, [], ◌∷◌, ◌++◌, IfOk, OnOk, map, option_map, unwrap_or};
ghost use Rattle.std.specs.Option.{ForSome};
ghost use Rattle.batch_check.specs.Joining.{AreBelow, HasJoined, IsKept, items_in, needs_in};

use crate::asked::Asked;
use crate::edge::Edge;
use crate::edge_set::EdgeSet;
use std::alloc::AllocError;

/// Adds the edge from the one need to the other, which the act at the node asks for, if both are resources.
pub(crate) fn join(
    recipe: u16,
    node: u16,
    earlier: Option<u16>,
    later: Option<u16>,
    edges: &mut EdgeSet,
) -> Result<(), AllocError>
    requires earlier { ForSome earlier (λ number. number < edges.old.count) }
    requires later { ForSome later (λ number. number < edges.old.count) }
    ensures { OnOk result (HasJoined recipe node (earlier ∷ []) later edges.old edges.new) }
{
    match (earlier, later) {
        (Some(earlier), Some(later)) => edges.add(Edge {
            recipe,
            node,
            earlier,
            later,
        }),
        _ => Ok(()),
    }
}

/// Adds the edges from each of these needs to one, which the act at the node asks for.
fn join_each(
    recipe: u16,
    node: u16,
    needs: &[Option<u16>],
    later: Option<u16>,
    edges: &mut EdgeSet,
) -> Result<(), AllocError>
    requires needs { AreBelow edges.old.count needs.now }
    requires later { ForSome later (λ number. number < edges.old.count) }
    ensures { OnOk result (HasJoined recipe node needs.now later edges.old edges.new) }
{
    for earlier in needs {
        join(recipe, node, *earlier, later, edges)?;
    }
    Ok(())
}

/// Adds the edges from each of these needs to one, which the act at the node asks for, if not all of them are there.
fn join_asked(
    recipe: u16,
    node: u16,
    asked: &Asked,
    later: Option<u16>,
    edges: &mut EdgeSet,
) -> Result<(), AllocError>
    requires needs { AreBelow edges.old.count asked.now.needs.items }
    requires later { ForSome later (λ number. number < edges.old.count) }
    ensures { OnOk result (HasJoined recipe node asked.now.needs.items later edges.old edges.new) }
{
    if let Some(number) = later
        && edges.has_each(asked, number)
    {
        return Ok(());
    }
    join_each(recipe, node, &asked.needs, later, edges)
}

/// The needs that are kept, with this one after them. Adds the edges from each of them to it.
pub(crate) fn join_and_push(
    recipe: u16,
    node: u16,
    asked: Option<Box<Asked>>,
    number: Option<u16>,
    edges: &mut EdgeSet,
) -> Result<Option<Box<Asked>>, AllocError>
    requires asked { AreBelow edges.old.count (needs_in (items_in asked)) }
    requires number { ForSome number (λ k. k < edges.old.count) }
    ensures { IfOk result (λ kept. IsKept recipe node (items_in asked) number edges.old edges.new (items_in kept)) }
{
    match asked {
        None => Ok(None),
        Some(mut asked) => {
            join_asked(recipe, node, &asked, number, edges)?;
            asked.push(number)?;
            Ok(Some(asked))
        }
    }
}
