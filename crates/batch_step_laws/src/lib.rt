//! Laws of the machine's steps, over the definitions of batch_model: its moves, its replies to events, the rests of recipes, and the
//! records and plants that they lead to.
//!
//! Nothing runs here. The functions are empty: their contracts are the laws.
#![tactic(auto)]

ghost use Rattle.std.specs.Prelude.{◌≡◌, List, map};
ghost use Rattle.batch_recipe.specs.Conditions.{Name};
ghost use Rattle.batch_recipe.specs.Tree.{Place, Tree};
ghost use Rattle.batch_recipe.specs.Nodes.{nodes};
ghost use Rattle.batch_model.specs.Cleared.{Level, parts};

mod events;
mod moves;
mod records;
mod rests;
mod runs;

pub use events::{refusals_change_nothing, refusals_have_causes};
pub use moves::{
    acts_have_one_move, held_in_advance_goes_on, next_is_first, next_is_least, work_falls,
};
pub use records::last_line_tells;
pub use rests::{
    acts_rise, advances_fully, advances_without_taking, stands_in_its_chart, trees_are_placed,
};
pub use runs::{
    plants_come_to_rest, plants_stand, records_go_on, runs_come_to_rest, settlings_end,
};

/// The parts that clearance checks are all nodes of the tree, in their order.
// claim: nodes in order
pub fn parts_are_nodes()
    ensures { (level : Level) (place : Place) (above : List Name) (whole : Tree)
        → map (λ x. x.node) (parts level place above whole) ≡ nodes place above whole }
{}
