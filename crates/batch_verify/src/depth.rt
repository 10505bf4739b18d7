//! Levels of the procedural model.
ghost use Rattle.std.specs.Prelude.{◌≡◌};
ghost use Rattle.batch_model.specs.Cleared.{below};
ghost use Rattle.batch_verify.specs.Charts.{depth_is};

/// The level of a node.
#[derive(Clone, Copy)]
pub(crate) enum Depth {
    /// The node is the procedure.
    Procedure,
    /// In the procedure's chart, whose labels stand for unit procedures.
    InProcedure,
    /// In the chart of a unit procedure, whose labels stand for operations.
    InUnitProcedure,
    /// In the chart of an operation, whose labels stand for phase steps.
    InOperation,
}

impl Depth {
    /// The level of the chart of an act at this level.
    pub(crate) fn below(self) -> Depth
        ensures { depth_is result ≡ below (depth_is self) }
    {
        match self {
            Depth::Procedure => Depth::InProcedure,
            Depth::InProcedure => Depth::InUnitProcedure,
            Depth::InUnitProcedure | Depth::InOperation => Depth::InOperation,
        }
    }
}
