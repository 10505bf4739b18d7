//! Forms that are being read.

use batch_recipe::{Chart, Condition};

/// A form that is being read, with its parts so far.
#[derive(Drop)]
pub enum Frame {
    Seq(Vec<Chart>),
    Par(Vec<Chart>),
    Case(Vec<(Condition, Chart)>, Condition),
    Else(Vec<(Condition, Chart)>),
    Loop(u64, Condition),
}
