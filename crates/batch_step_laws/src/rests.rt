//! The rest of a recipe.
ghost use Rattle.batch_step_laws.specs.Laws.{ActsRise, AdvancesFully, AdvancingHoldsTheSame, AdvancingRunsTheSamePhases, AdvancingStands, SetupsArePlaced, OneActAPlace, ReachesFully, ReachingHoldsNothing, ReachingRunsNoPhase, ReachingStands, TreesArePlaced, WithdrawingStands};

/// Each act of a recipe's expanded tree carries the place at which it stands, whatever units take its roles. So the setups that
/// recipes make have placed trees.
pub fn trees_are_placed()
    // claim: placed trees
    ensures tree { TreesArePlaced }
    // claim: placed setups
    ensures setups { SetupsArePlaced }
{}

/// Reaching and advancing leave nothing that could still be reached.
// claim: reached fully
pub fn advances_fully()
    ensures reached { ReachesFully }
    ensures advanced { AdvancesFully }
{}

/// The rest of a chart that has just been reached is a possible one, and a possible rest stays one when it advances or its asks are
/// withdrawn.
// claim: stays a rest
pub fn stands_in_its_chart()
    ensures reached { ReachingStands }
    ensures advanced { AdvancingStands }
    ensures withdrawn { WithdrawingStands }
{}

/// A chart that has just been reached runs no phase, and if nothing is held in advance, it holds nothing. Advancing leaves the phases,
/// and if nothing is held in advance, the holdings as they are.
// claim: nothing taken (reached, advanced); no phase changed (reached_phases, advanced_phases)
pub fn advances_without_taking()
    ensures reached { ReachingHoldsNothing }
    ensures advanced { AdvancingHoldsTheSame }
    ensures reached_phases { ReachingRunsNoPhase }
    ensures advanced_phases { AdvancingRunsTheSamePhases }
{}

/// The acts of a rest are in the order of their places, one at a place.
pub fn acts_rise()
    // claim: acts in order
    ensures in_order { ActsRise }
    // claim: one act a place
    ensures one { OneActAPlace }
{}
