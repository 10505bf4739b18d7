//! A node of a recipe's expanded tree.
ghost use Rattle.std.specs.Prelude.{◌≡◌, option_copied};
ghost use Rattle.batch_recipe.specs.Outlines.{act_of_kind};

use crate::act::Act;
use crate::acts::{Acts, LabelTable};

/// The kind of a node.
#[derive(Clone, Copy)]
pub enum Kind {
    Skip,
    /// The recipe's procedure.
    Procedure,
    /// The act with this number in the table.
    Act(LabelTable, usize),
    Seq,
    Par,
    Sel,
    /// A loop with this greatest number of turns.
    Loop(u64),
}

/// A node. It is the child with the number `child` of the node `parent`, and the root is child 0 of itself.
#[derive(Clone, Copy)]
pub struct Entry {
    pub kind: Kind,
    /// The number past all nodes below it, which come right after it.
    pub end: u16,
    pub parent: u16,
    pub child: u16,
    /// How many needs the act has, its unit and those that it reserves among them: 0 where the node is no act.
    pub needs: u16,
    /// At an act: the number, in its table, of the unit procedure above it. At a `sel`: the number, in the outline, of its first condition.
    /// At a loop: the number, in the outline, of its condition. Else 0.
    pub detail: usize,
}

impl Kind {
    /// The act at the node, if it is one.
    pub fn act(self, acts: &Acts) -> Option<&Act>
        ensures { option_copied result ≡ act_of_kind acts.now self }
    {
        match self {
            Kind::Procedure => Some(&acts.procedure),
            Kind::Act(level, number) => acts.table(level).get(number),
            Kind::Skip | Kind::Seq | Kind::Par | Kind::Sel | Kind::Loop(_) => None,
        }
    }
}
