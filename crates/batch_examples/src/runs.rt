//! Worked rows: the records of some runs. The functions are empty: their contracts are the rows.
// claim: worked rows
ghost use Rattle.batch_examples.specs.RowsOfMoves.{
  DemoIsExpanded,
  DemoIsPlaced,
  OneBatchToComplete,
  SecondBatchWaits,
  OlderAskIsGranted,
  CrossedBranchesWithoutCircle,
  SharedCapacity,
  SmallAskDoesNotPass,
  ReleaseGivesAllBack,
  BoundUnitRuns,
  EachRoleHasItsUnit,
  OneUnitTakesTwoRoles,
  BadBindings,
  NoCandidate,
  NoRoleToBind,
  EarlierRefusals,
  ElseBranchIsTaken,
  OutputChoosesBranch,
  OutputChoosesElse,
  ThousandTurns,
  ThousandTurnsLength,
  ThousandTurnsEnd,
  ThreeTurns,
  ThreeTurnsLength,
  ReleaseBeforeBegin,
  ReleaseBeforeEarlierPlace,
  BeginBeforeLaterEnd,
};
ghost use Rattle.batch_examples.specs.RowsOfCommands.{
  HoldBetweenPhases,
  NoAskWhileHeld,
  HeldBatchEnds,
  HeldAskIsGranted,
  StopWithdrawsAsks,
  LaterAskPassesStopped,
  LaterAskPassesAborted,
  StopGivesBackPartOfNeeds,
  AbortAfterStop,
  AbortResetStart,
  PauseAndResume,
  ResumedBatchRuns,
  ResumedUnitProcedureIsPaused,
  NoActBelowPhase,
  HoldWhilePausing,
  RemovedBatchLeavesPlace,
  LastBatchIsCreated,
  NoBatchBeyondLimit,
  LastNumberIsGiven,
  NoNumberBeyondLast,
  EventWhileMovesPend,
  MemoryRefusesACreate,
  MemoryMakesNoBatch,
  MemoryHidesNoBadSize,
  MemoryHidesNoUnknownRecipe,
  MemoryRefusesNoStart,
};
ghost use Rattle.batch_examples.specs.RowsOfReports.{
  ReportTwice,
  ReportTwiceChangesNothing,
  FaultHoldsTheBatch,
  FaultWhileStopping,
  OutputRefusals,
  OutputIsKept,
  ResetClearsOutput,
  FaultSetsNoOutput,
  LeftOut,
  LeavingOutChangesNothing,
  FirstLeftOut,
  LeftOutBeforeStopping,
  NoneLeftOutInAborting,
  ScaledQuantity,
  FormulaRefusals,
  GreatestValueIsTaken,
  RefusedEvents,
};
ghost use Rattle.batch_examples.specs.RowsOfActStates.{
  AbortingBeforeStopping,
  StoppingBeforeHolding,
  HoldingBeforeRestarting,
  RestartingBeforePausing,
  PausingBeforeHeld,
  HeldBeforePaused,
  PausedBeforeRunning,
  HoldingIsShown,
  PausedIsShown,
  AbortingIsShown,
  AllIdle,
  AllRunning,
  RootAloneComplete,
  OpenActsShowBatch,
  AskingActIsIdle,
};

/// The demo's recipe is the tree that its document expands to, and each act of it carries the place at which it stands.
pub fn demo_is_expanded()
    ensures expanded { DemoIsExpanded }
    // claim: placed setups
    ensures placed { DemoIsPlaced }
{}

/// One batch of the demo recipe from its creation to its completion.
pub fn one_batch_to_complete()
    ensures { OneBatchToComplete }
{}

/// A second batch waits for the unit, and of two that wait the older ask is granted.
pub fn second_batch_waits()
    ensures record_lines { SecondBatchWaits }
    ensures older_ask { OlderAskIsGranted }
{}

/// Two batches need the same two resources in opposite branches, and neither waits for ever.
pub fn crossed_branches_without_circle()
    ensures { CrossedBranchesWithoutCircle }
{}

/// Steps share a resource up to its capacity.
pub fn shared_capacity()
    ensures { SharedCapacity }
{}

/// A step that wants several units is granted them at once and gives them back at once; those behind it in the queue wait.
pub fn shares_of_several_units()
    ensures no_passing { SmallAskDoesNotPass }
    ensures all_back { ReleaseGivesAllBack }
{}

/// A batch runs on the units that are bound to the roles of its recipe.
pub fn bound_units()
    ensures bound { BoundUnitRuns }
    ensures each { EachRoleHasItsUnit }
    ensures both { OneUnitTakesTwoRoles }
{}

/// A create binds each role of its recipe once, to a unit that may take it, and nothing else.
pub fn bad_bindings()
    ensures refused { BadBindings }
    ensures candidate { NoCandidate }
    ensures no_role { NoRoleToBind }
    ensures earlier { EarlierRefusals }
{}

/// Values choose a branch at the moment when the choice is reached.
pub fn choices()
    ensures at_first { ElseBranchIsTaken }
    ensures by_output { OutputChoosesBranch }
    ensures skipped { OutputChoosesElse }
{}

/// A loop ends with its last turn, or when its condition holds.
pub fn thousand_turns()
    ensures whole { ThousandTurns }
    ensures lines { ThousandTurnsLength }
    ensures last { ThousandTurnsEnd }
    ensures three { ThreeTurns }
    ensures three_lines { ThreeTurnsLength }
{}

/// Within a batch the kind of a move comes before its place: state, then release, then begin and end by place.
pub fn release_before_begin()
    ensures first_ends { ReleaseBeforeBegin }
    ensures later_place { ReleaseBeforeEarlierPlace }
    ensures begin_before_end { BeginBeforeLaterEnd }
{}

/// A batch is held between two phases.
pub fn hold_between_phases()
    ensures next_phase { HoldBetweenPhases }
    ensures no_ask { NoAskWhileHeld }
    ensures end_of_batch { HeldBatchEnds }
{}

/// An ask of a held batch stands, and is granted.
pub fn held_ask_is_granted()
    ensures { HeldAskIsGranted }
{}

/// A stop removes the asks of its batch from their queues.
pub fn stop_withdraws_asks()
    ensures record_lines { StopWithdrawsAsks }
    ensures stopped_ask { LaterAskPassesStopped }
    ensures aborted_ask { LaterAskPassesAborted }
    ensures partly_granted { StopGivesBackPartOfNeeds }
{}

/// A batch that stops is aborted.
pub fn abort_after_stop()
    ensures { AbortAfterStop }
{}

/// A stopped batch is aborted, and starts anew after a reset.
pub fn abort_reset_start()
    ensures { AbortResetStart }
{}

/// A batch is paused and resumed.
pub fn pause_and_resume()
    ensures record_lines { PauseAndResume }
    ensures batch { ResumedBatchRuns }
    ensures unit_procedure { ResumedUnitProcedureIsPaused }
    ensures below_phase { NoActBelowPhase }
{}

/// A hold and a restart spread to phases that are paused or about to be.
pub fn hold_while_pausing()
    ensures { HoldWhilePausing }
{}

/// Batches are created up to the limit of live batches and up to the last number, and none beyond these.
pub fn live_batch_limit()
    ensures removed { RemovedBatchLeavesPlace }
    ensures last_place { LastBatchIsCreated }
    ensures no_place { NoBatchBeyondLimit }
    ensures last_number { LastNumberIsGiven }
    ensures no_number { NoNumberBeyondLast }
{}

/// An event is refused while moves pend.
pub fn event_while_moves_pend()
    ensures { EventWhileMovesPend }
{}

/// A phase that is done reports again.
pub fn report_twice()
    ensures record_lines { ReportTwice }
    ensures unchanged { ReportTwiceChangesNothing }
{}

/// A fault takes its batch to Holding.
pub fn fault_holds_the_batch()
    ensures record_lines { FaultHoldsTheBatch }
    ensures while_stopping { FaultWhileStopping }
{}

/// Outputs are set by a phase that is done and names declared ones, each once and in range, and are 0 again after a reset.
pub fn outputs()
    ensures refusals { OutputRefusals }
    ensures kept { OutputIsKept }
    ensures cleared { ResetClearsOutput }
    ensures by_done_alone { FaultSetsNoOutput }
{}

/// A phase that is done and leaves out an output that it reports is refused, with the first of these; unless it is stopping or
/// aborting.
pub fn outputs_left_out()
    ensures refused { LeftOut }
    ensures unchanged { LeavingOutChangesNothing }
    ensures first { FirstLeftOut }
    ensures before_stopping { LeftOutBeforeStopping }
    ensures aborting { NoneLeftOutInAborting }
{}

/// A value is scaled by the size of the batch, and handed to a phase.
pub fn scaled_quantity()
    ensures handed { ScaledQuantity }
    ensures refusals { FormulaRefusals }
    ensures greatest { GreatestValueIsTaken }
{}

/// Events that are refused for want of a batch, a recipe or a live phase, or by the batch's state.
pub fn refused_events()
    ensures { RefusedEvents }
{}

/// Want of memory refuses a create that would make a batch, and changes nothing; it refuses nothing else.
// claim: want of memory in rows
pub fn want_of_memory()
    ensures refuses { MemoryRefusesACreate }
    ensures changes_nothing { MemoryMakesNoBatch }
    ensures bad_size { MemoryHidesNoBadSize }
    ensures unknown_recipe { MemoryHidesNoUnknownRecipe }
    ensures command { MemoryRefusesNoStart }
{}

/// The graver of the states of two phases beneath an act is shown.
pub fn earlier_state_shows()
    ensures aborting { AbortingBeforeStopping }
    ensures stopping { StoppingBeforeHolding }
    ensures holding { HoldingBeforeRestarting }
    ensures restarting { RestartingBeforePausing }
    ensures pausing { PausingBeforeHeld }
    ensures held { HeldBeforePaused }
    ensures paused { PausedBeforeRunning }
{}

/// The states of acts that runs come to.
pub fn act_states()
    ensures holding { HoldingIsShown }
    ensures paused { PausedIsShown }
    ensures aborting { AbortingIsShown }
    ensures all_idle { AllIdle }
    ensures all_running { AllRunning }
    ensures complete { RootAloneComplete }
    ensures no_live_phase { OpenActsShowBatch }
    ensures waiting { AskingActIsIdle }
{}
