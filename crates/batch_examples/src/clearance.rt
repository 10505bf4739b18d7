//! Worked rows of clearance. The functions are empty: their contracts are the rows.
// claim: cleared rows
ghost use Rattle.batch_examples.specs.RowsOfClearance.{
  CrossedBranchesAreCleared,
  SameResourceTwice,
  FirstOrderIsCleared,
  SecondOrderIsCleared,
  OppositeOrders,
  ElseBranchHasTheCircle,
  EqualRanks,
  SamePhaseInParallel,
  EveryTurnRunsAPhase,
  FirstBranchRunsNothing,
  LastBranchRunsNothing,
  EachBranchRunsAPhase,
  OneOfASeqRunsAPhase,
  NoneOfASeqRunsAPhase,
  OneOfAParRunsAPhase,
  NoneOfAParRunsAPhase,
  TurnsWithinTurns,
  OperationRunsAPhase,
  OperationMayRunNothing,
  ProcedureNeedsWater,
  UnitProcedureNeedsWater,
  OperationNeedsWater,
  StepNeedsWater,
  AllUnits,
  MoreUnitsThanThereAre,
  EachUnitMayTakeTheRole,
  OneUnitMayNot,
  HeaderMayNot,
  NoUnitMay,
  UnitIsAUnit,
  HeaderAsUnit,
  PhaseIsNotOffered,
  DemoIsCleared,
  SameRecipeTwice,
  MoreThan256Recipes,
};

/// Two recipes are cleared whose batches may point at each other, but whose steps can't.
pub fn crossed_branches_are_cleared()
    ensures { CrossedBranchesAreCleared }
{}

/// A step that asks for the same resource twice is not cleared.
pub fn same_resource_twice()
    ensures { SameResourceTwice }
{}

/// Two recipes that ask for a unit and a header in opposite orders are cleared each alone, but not together; and ranks must differ.
pub fn opposite_orders()
    ensures first { FirstOrderIsCleared }
    ensures second { SecondOrderIsCleared }
    ensures both { OppositeOrders }
    ensures equal { EqualRanks }
{}

/// The order in which a last branch asks counts as well.
pub fn else_branch_has_the_circle()
    ensures { ElseBranchHasTheCircle }
{}

/// Two steps of different names that run the same phase may not stand in two branches of one `par`.
pub fn same_phase_in_parallel()
    ensures { SamePhaseInParallel }
{}

/// A loop may not have a turn that runs no phase.
pub fn every_turn_runs_a_phase()
    ensures { EveryTurnRunsAPhase }
{}

/// In a turn that is a choice each branch runs a phase.
pub fn each_branch_runs_a_phase()
    ensures first { FirstBranchRunsNothing }
    ensures last { LastBranchRunsNothing }
    ensures both { EachBranchRunsAPhase }
{}

/// In a turn of several parts, one after the other or side by side, one of them runs a phase.
pub fn one_part_runs_a_phase()
    ensures one_in_turn { OneOfASeqRunsAPhase }
    ensures none_in_turn { NoneOfASeqRunsAPhase }
    ensures one_at_once { OneOfAParRunsAPhase }
    ensures none_at_once { NoneOfAParRunsAPhase }
    ensures within { TurnsWithinTurns }
{}

/// A turn that is an act runs a phase just if every way through the act's own chart does.
pub fn act_runs_what_its_chart_runs()
    ensures phase { OperationRunsAPhase }
    ensures nothing { OperationMayRunNothing }
{}

/// No act of any level needs a resource that the cell doesn't have.
pub fn unknown_need()
    ensures procedure { ProcedureNeedsWater }
    ensures unit_procedure { UnitProcedureNeedsWater }
    ensures operation { OperationNeedsWater }
    ensures step { StepNeedsWater }
{}

/// An act may need all units of a resource, and no more.
pub fn share_above_capacity()
    ensures all { AllUnits }
    ensures more { MoreUnitsThanThereAre }
{}

/// A recipe with a role is cleared if each unit that may take the role could run it, and there is one.
pub fn candidates_of_a_role()
    ensures each { EachUnitMayTakeTheRole }
    ensures one { OneUnitMayNot }
    ensures header { HeaderMayNot }
    ensures none { NoUnitMay }
{}

/// A unit procedure runs on a unit, and on no other resource.
pub fn header_as_unit()
    ensures unit { UnitIsAUnit }
    ensures header { HeaderAsUnit }
{}

/// A phase step runs a phase that its unit offers.
pub fn phase_is_not_offered()
    ensures { PhaseIsNotOffered }
{}

/// The demo recipe is cleared alone, and not beside another of its name; nor are more than 256 recipes.
pub fn sets_of_recipes()
    ensures demo { DemoIsCleared }
    ensures twice { SameRecipeTwice }
    ensures too_many { MoreThan256Recipes }
{}
