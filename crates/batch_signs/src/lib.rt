//! Signs of nodes by which they are found: for each node a set of signs, and for each sign the nodes that show it.
#![tactic(auto)]

mod sets;
mod signs;
mod word;

pub use signs::Signs;
pub use word::{lowest_from, with_bit, without_bit};
