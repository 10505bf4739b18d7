//! Replies to events.
ghost use Rattle.batch_step_laws.specs.Laws.{RefusalsChangeNothing, RefusalsHaveCauses};

/// A refused event leaves the plant as it was.
// claim: refusals change nothing
pub fn refusals_change_nothing()
    ensures { RefusalsChangeNothing }
{}

/// Each refusal has its cause:
///
/// - E10 comes only while a move is possible;
/// - E13 only of the first output that a live phase leaves out;
/// - E12 only of a binding that doesn't bind the recipe's roles;
/// - E8 only at a limit;
/// - E11, want of memory, only of a create.
// claim: causes of refusals
pub fn refusals_have_causes()
    ensures { RefusalsHaveCauses }
{}
