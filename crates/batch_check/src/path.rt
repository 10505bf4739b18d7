//! Paths of needs.
ghost use Rattle.std.specs.Prelude.{◌≡◌, ◌<◌, [], ◌∷◌, IfOk, IsTrue};
ghost use Rattle.std.specs.Option.{ForSome};
ghost use Rattle.batch_check.specs.Collecting.{HasAsked, IsCopy, IsReady, ends_in, kept_at_top, kept_by};
ghost use Rattle.batch_check.specs.Edges.{Follows};
ghost use Rattle.batch_check.specs.Joining.{AreBelow};
ghost use Rattle.batch_check.specs.Sites.{numbers_of};

use crate::asked::Asked;
use crate::edge_set::EdgeSet;
use crate::joining::{join, join_and_push};
use crate::site::Site;
use batch_set::LinkedNeed;
use std::alloc::{AllocError, Global};

/// Which two needs of a path an edge joins.
#[derive(Clone, Copy)]
pub(crate) enum Reach {
    /// Two needs that follow one another.
    Next,
    /// Each two needs, one before the other.
    Whole,
}

/// A path down through the nodes of a recipe.
#[derive(Drop)]
pub(crate) struct Path {
    /// The number of the recipe.
    pub(crate) recipe: u16,
    /// The number of the resource that is asked for last.
    pub(crate) last: Option<u16>,
    /// All needs, if edges are to lead from each of them. In a box, as mostly there are none.
    pub(crate) asked: Option<Box<Asked>>,
}

impl Path {
    /// The path above the nodes of the recipe with this number.
    pub(crate) fn top(alloc: Global, recipe: u16, reach: Reach) -> Result<Path, AllocError>
        ensures recipe { IfOk result (λ path. path.recipe ≡ recipe) }
        ensures last { IfOk result (λ path. path.last ≡ None) }
        ensures kept { IfOk result (λ path. kept_by path ≡ kept_at_top reach) }
    {
        let asked = match reach {
            Reach::Next => None,
            Reach::Whole => Some(Box::new(alloc, Asked::new(alloc))?),
        };
        Ok(Path {
            recipe,
            last: None,
            asked,
        })
    }

    pub(crate) fn copied(&self, alloc: Global) -> Result<Path, AllocError>
        ensures { IfOk result (IsCopy self.now) }
    {
        let asked = match &self.asked {
            None => None,
            Some(asked) => Some(Box::new(alloc, asked.copied()?)?),
        };
        Ok(Path {
            recipe: self.recipe,
            last: self.last,
            asked,
        })
    }
}

/// The path after one more need of the act at the node. Adds the edges to it.
fn ask(need: Option<u16>, path: Path, node: u16, edges: &mut EdgeSet) -> Result<Path, AllocError>
    requires ready { IsReady path edges.old }
    requires need { ForSome need (λ number. number < edges.old.count) }
    ensures { IfOk result (HasAsked path node (need ∷ []) edges.old edges.new) }
{
    let recipe = path.recipe;
    join(recipe, node, path.last, need, edges)?;
    let asked = join_and_push(recipe, node, path.asked, need, edges)?;
    Ok(Path {
        recipe,
        last: need,
        asked,
    })
}

/// The path after these needs of the act at the node, in their order. Adds the edges to them.
fn ask_each(
    alloc: Global,
    needs: &[Option<u16>],
    path: &Path,
    node: u16,
    edges: &mut EdgeSet,
) -> Result<Path, AllocError>
    requires ready { IsReady path.now edges.old }
    requires needs { AreBelow edges.old.count needs.now }
    ensures { IfOk result (HasAsked path.now node needs.now edges.old edges.new) }
{
    if path.asked.is_none() {
        let last = ask_in_turn(needs, path.recipe, path.last, node, edges)?;
        return Ok(Path {
            recipe: path.recipe,
            last,
            asked: None,
        });
    }
    let mut at = path.copied(alloc)?;
    for need in needs {
        at = ask(*need, at, node, edges)?;
    }
    Ok(at)
}

/// The path after these needs of the act at the node, in their order. Adds the edges to them; where the needs are joined, those
/// between them are there already.
pub(crate) fn ask_act(
    alloc: Global,
    site: &Site,
    needs: &[LinkedNeed],
    joined: bool,
    path: &Path,
    node: u16,
    edges: &mut EdgeSet,
) -> Result<Path, AllocError>
    requires ready { IsReady path.now edges.old }
    requires needs { AreBelow edges.old.count (numbers_of site.now needs.now) }
    requires joined { IsTrue joined → Follows edges.old.edges.items None (numbers_of site.now needs.now) }
    ensures { IfOk result (HasAsked path.now node (numbers_of site.now needs.now) edges.old edges.new) }
{
    if !joined || path.asked.is_some() {
        let numbers = site.numbers_of(alloc, needs)?;
        return ask_each(alloc, &numbers, path, node, edges);
    }
    let last = ask_again(site, needs, path.recipe, path.last, node, edges)?;
    Ok(Path {
        recipe: path.recipe,
        last,
        asked: None,
    })
}

/// The last need after these of the act at the node, in their order. Adds the edges to them, each from the need before it.
fn ask_in_turn(
    needs: &[Option<u16>],
    recipe: u16,
    before: Option<u16>,
    node: u16,
    edges: &mut EdgeSet,
) -> Result<Option<u16>, AllocError>
    requires before { ForSome before (λ number. number < edges.old.count) }
    requires needs { AreBelow edges.old.count needs.now }
    ensures { IfOk result (λ last. HasAsked (ends_in recipe before) node needs.now edges.old edges.new (ends_in recipe last)) }
{
    let mut last = before;
    for need in needs {
        join(recipe, node, last, *need, edges)?;
        last = *need;
    }
    Ok(last)
}

/// The last need after these of the act at the node, between which there are edges already. Adds the edge to the first of them.
fn ask_again(
    site: &Site,
    needs: &[LinkedNeed],
    recipe: u16,
    before: Option<u16>,
    node: u16,
    edges: &mut EdgeSet,
) -> Result<Option<u16>, AllocError>
    requires before { ForSome before (λ number. number < edges.old.count) }
    requires needs { AreBelow edges.old.count (numbers_of site.now needs.now) }
    requires joined { Follows edges.old.edges.items None (numbers_of site.now needs.now) }
    ensures { IfOk result (λ last. HasAsked (ends_in recipe before) node (numbers_of site.now needs.now) edges.old edges.new (ends_in recipe last)) }
{
    let [first, ..] = needs else {
        return Ok(before);
    };
    join(recipe, node, before, site.number_of(first.source), edges)?;
    Ok(site.number_of(needs[needs.len() - 1].source))
}
