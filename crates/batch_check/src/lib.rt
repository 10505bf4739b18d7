//! The check of a set of recipes: the least ranking of a cell's resources that clears them, or why there is none.
#![tactic(auto)]

mod asked;
mod binding;
mod checking;
mod circle;
mod collecting;
mod edge;
mod edge_set;
mod edges;
mod fault;
mod graph;
mod joining;
mod laws;
mod mending;
mod naming;
mod path;
mod raising;
mod ranking;
mod shortest;
mod site;
mod spreading;
mod turning;

pub use checking::check;
pub use edge::Edge;
pub use fault::CheckFault;
pub use graph::graph_of;
pub use laws::{
    certificates_tell_ranks, circle_leaves_no_ranking, least_ranks_rise_along_paths,
    ranks_are_told_by_name, shortest_circles_take_no_detour, standing_circles_leave_no_clearance,
};
pub use mending::rise_without;
