//! The engine.
use crate::control::Control;
use crate::marks::Marks;
use std::marker::Model;

/// The engine: a cleared set of recipes, and the batches that are made of it.
///
/// It searches the marked batches alone for the next move. A batch is marked by its own moves and events. It is also marked if an act of
/// it may be the next that is served of a resource: after a release or a grant of that resource, and after a stop or an abort.
pub struct Engine {
    pub(crate) control: Control,
    /// The marked indices of batches. A batch whose index isn't marked has no move.
    pub(crate) marks: Marks,
    /// For each resource, by its number, the batch of the last grant of one unit. If the capacity is 1 and the resource is held, this batch
    /// holds it.
    pub(crate) holders: Vec<u64>,
}

impl Model for Engine {
    ghost use Rattle.std.specs.Coded.{codes};
    ghost use Rattle.batch_arbiter.specs.contracts.arbiter.Arbiter as arbiter_contracts;
    ghost use Rattle.batch_verify.specs.contracts.cleared.Cleared as cleared_contracts;
    ghost use Rattle.batch_engine.specs.contracts.batch.Batch as batch_contracts;
    ghost use Rattle.batch_engine.specs.Marked.{IsEngine};
    ghost use Rattle.batch_engine.specs.View.{EngineView};

    ghost Value = { EngineView };

    ghost coded = { Prim.hlevel (codes, batch_contracts.the_row.coded, cleared_contracts.the_row.coded, arbiter_contracts.the_row.coded) };

    ghost view = { λ e. e.control };

    // claim: marked batches
    ghost invariant = { λ e. IsEngine e.control e.marks e.holders.items };
}

// Not derived: each function that drops one would have a proof that drops field by field.
impl Drop for Engine {
    fn drop(self) {
        let Engine {
            control: _,
            marks: _,
            holders: _,
        } = self;
    }
}
