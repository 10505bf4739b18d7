//! The unit procedures that follow a node, to which it hands over the units that it reserves.
ghost use Rattle.std.specs.Prelude.{◌≡◌, ◌<◌, ◌≤◌, length, slice_get, Some, None, IfSome, IsNone};
ghost use Rattle.batch_recipe.specs.Followers.{IsFollowerAt, IsFound, IsNext, follower_of, is_chart_named, is_in_chart_of_procedure, level_at};
ghost use Rattle.batch_recipe.specs.Expanding.{Binding};
ghost use Rattle.batch_recipe.specs.Links.{form_at};
ghost use Rattle.batch_recipe.specs.Nodes.{Node};
ghost use Rattle.batch_recipe.specs.Outlines.{a_par};
ghost use Rattle.batch_recipe.specs.Procedure.{bound_nodes, bound_tree, procedure_nodes};

use crate::act::{Act, Work};
use crate::entry::Kind;
use crate::nodes::act_at;
use crate::recipe::Recipe;
use batch_text::Name;

/// The node of the unit procedure that the node reserves as number `i`, counted from 0, and that follows it.
///
/// None where the node reserves no more than `i` unit procedures, where that one doesn't follow it, or where no node has the number.
// claim: follower of a node
pub fn follows(recipe: &Recipe, node: u16, i: usize) -> Option<u16>
    ensures some { (bound : Binding) (at : Node) → slice_get (bound_nodes bound recipe.now.acts) node ≡ Some at → IfSome result (λ to. IsFollowerAt bound recipe.now.acts at i to) }
    ensures none { (bound : Binding) (at : Node) → slice_get (bound_nodes bound recipe.now.acts) node ≡ Some at → IsNone result → follower_of (bound_tree bound recipe.now.acts) at i ≡ None }
    ensures past { length (procedure_nodes recipe.now.acts) ≤ node → IsNone result }
{
    let act = act_at(recipe, node)?;
    let name = act.reserves.get(i)?;
    let next = next_of(recipe, node)?;
    first_named(recipe, next, name)
}

/// The branch of a `seq` that is next once the node has ended, in the procedure's chart. The search goes up from the node.
fn next_of(recipe: &Recipe, node: u16) -> Option<u16>
    requires { node < length (procedure_nodes recipe.now.acts) }
    ensures { (bound : Binding) (at : Node) → slice_get (bound_nodes bound recipe.now.acts) node ≡ Some at → IsNext bound recipe.now.acts at result }
{
    let entries = &recipe.outline.entries;
    let mut at = node;
    while at != 0 {
        let entry = entries[usize::from(at)];
        let above = entries[usize::from(entry.parent)];
        match above.kind {
            Kind::Skip | Kind::Par | Kind::Loop(_) => return None,
            Kind::Seq => {
                if entry.end < above.end {
                    if is_in_procedure(recipe, entry.end) {
                        return Some(entry.end);
                    }
                    return None;
                }
            }
            Kind::Procedure | Kind::Act(_, _) | Kind::Sel => {}
        }
        at = entry.parent;
    }
    None
}

/// Whether the node is in the procedure's chart, below no other act.
fn is_in_procedure(recipe: &Recipe, node: u16) -> bool
    requires { node < length (procedure_nodes recipe.now.acts) }
    ensures { (bound : Binding) (at : Node) → slice_get (bound_nodes bound recipe.now.acts) node ≡ Some at → result ≡ is_in_chart_of_procedure (level_at (bound_tree bound recipe.now.acts) at.place) }
{
    let entries = &recipe.outline.entries;
    let mut at = node;
    while at != 0 {
        at = entries[usize::from(at)].parent;
        match entries[usize::from(at)].kind {
            Kind::Procedure | Kind::Act(_, _) => return at == 0,
            Kind::Skip | Kind::Seq | Kind::Par | Kind::Sel | Kind::Loop(_) => {}
        }
    }
    false
}

/// Whether the act has this name, and a chart.
fn is_named(act: &Act, name: &Name) -> bool
    ensures { result ≡ is_chart_named act.now name.now }
{
    match &act.work {
        Work::Follows(_) => act.name == *name,
        Work::Runs { .. } => false,
    }
}

/// The act with this name that is met first on a way down from the node.
#[cycle(down)]
fn first_named(recipe: &Recipe, node: u16, name: &Name) -> Option<u16>
    requires { node < length (procedure_nodes recipe.now.acts) }
    ensures { (bound : Binding) (at : Node) → slice_get (bound_nodes bound recipe.now.acts) node ≡ Some at → IsFound bound recipe.now.acts at name.now result }
{
    match act_at(recipe, node) {
        Some(act) => {
            if is_named(act, name) {
                Some(node)
            } else {
                None
            }
        }
        None => {
            let entry = recipe.outline.entries[usize::from(node)];
            match entry.kind {
                Kind::Procedure | Kind::Act(_, _) | Kind::Skip | Kind::Sel => None,
                Kind::Loop(_) => first_named(recipe, node + 1, name),
                Kind::Seq => {
                    if node + 1 < entry.end {
                        first_named(recipe, node + 1, name)
                    } else {
                        None
                    }
                }
                Kind::Par => first_of_branches(recipe, node, name),
            }
        }
    }
}

/// The act with this name that is met first on a way down from the node, which is a `par`.
#[cycle(down)]
fn first_of_branches(recipe: &Recipe, node: u16, name: &Name) -> Option<u16>
    requires within { node < length (procedure_nodes recipe.now.acts) }
    requires par { (bound : Binding) (at : Node) → slice_get (bound_nodes bound recipe.now.acts) node ≡ Some at → form_at at.here ≡ a_par }
    ensures { (bound : Binding) (at : Node) → slice_get (bound_nodes bound recipe.now.acts) node ≡ Some at → IsFound bound recipe.now.acts at name.now result }
{
    let entries = &recipe.outline.entries;
    let end = entries[usize::from(node)].end;
    let mut at = node + 1;
    while at < end {
        match first_named(recipe, at, name) {
            Some(found) => return Some(found),
            None => at = entries[usize::from(at)].end,
        }
    }
    None
}
