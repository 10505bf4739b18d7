//! Whether the unit procedures that a node reserves follow it.
ghost use Rattle.std.specs.Prelude.{◌≡◌, length, slice_get, Some, true, false};
ghost use Rattle.batch_recipe.specs.Expanding.{Binding};
ghost use Rattle.batch_recipe.specs.Nodes.{Node, reserves_of};
ghost use Rattle.batch_recipe.specs.Procedure.{bound_nodes, bound_tree};
ghost use Rattle.batch_model.specs.Cleared.{ReservesFollow};

use batch_recipe::{Recipe, follows};

/// Whether each unit procedure that the node reserves follows it, where it reserves so many.
pub(crate) fn reserves_follow(recipe: &Recipe, node: u16, count: usize) -> bool
    requires { (bound : Binding) (at : Node) → slice_get (bound_nodes bound recipe.now.acts) node ≡ Some at → length (reserves_of at.here) ≡ count }
    ensures follow { result ≡ true → (bound : Binding) (at : Node) → slice_get (bound_nodes bound recipe.now.acts) node ≡ Some at
        → ReservesFollow (bound_tree bound recipe.now.acts) at }
    ensures not { result ≡ false → (bound : Binding) (at : Node) → slice_get (bound_nodes bound recipe.now.acts) node ≡ Some at
        → ¬ (ReservesFollow (bound_tree bound recipe.now.acts) at) }
{
    for i in 0..count {
        if follows(recipe, node, i).is_none() {
            return false;
        }
    }
    true
}
