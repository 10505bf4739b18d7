//! Worked rows of safety. The functions are empty: their contracts are the rows.
ghost use Rattle.batch_matrix.specs.declared.state.State.TheVariants.{Aborted, Complete, Stopped};
ghost use Rattle.batch_examples.specs.RowsOfSafety.{
  AllUnitsAreHeld,
  AllUnitsAreGivenBack,
  GrantEndsWait,
  StopEndsWait,
  AbortEndsWait,
  HoldDoesNotEndWait,
  EndingReportsEndPhases,
  HeldPhaseIsActive,
  TwoHoldersOfOneUnit,
  ThreeUnitsOfTwo,
  UnsafeBeforeItsEnd,
  UnitHeldByItsStep,
  UnitHeldBesideItsStep,
  UnitHeldByAnotherBatch,
  AnotherUnitIsHeld,
  UnitGivenBackEarly,
  StartedTwice,
  StartedWhereNotOffered,
  AtRestHolding,
  AtRestWaiting,
  WaitsForItself,
  TwoWaitInACircle,
  OpposedRun,
  OpposedRunIsUnsafe,
  NewerPointsToOlder,
  OlderDoesNotPointToNewer,
  PointsBelowHolder,
  DoesNotPointBesideHolder,
  DoesNotPointAboveHolder,
  ChainGoesOnBelowHolder,
  ChainEndsBesideHolder,
};

/// A step holds all units that it was granted until it gives them back.
// claim: told in rows
pub fn units_told()
    ensures held { AllUnitsAreHeld }
    ensures given_back { AllUnitsAreGivenBack }
{}

/// A wait ends with its grant, or with a stop or an abort of its batch, and a hold doesn't end it.
// claim: waits end
pub fn waits_end()
    ensures grant { GrantEndsWait }
    ensures stop { StopEndsWait }
    ensures abort { AbortEndsWait }
    ensures hold { HoldDoesNotEndWait }
{}

/// A phase is live until the report that ends it.
// claim: told in rows
pub fn phases_end()
    ensures ended { EndingReportsEndPhases }
    ensures held { HeldPhaseIsActive }
{}

/// A record isn't safe in which more units of a resource are held than its capacity, at its end or before.
// claim: unsafe rows
pub fn held_past_capacity()
    ensures holders { TwoHoldersOfOneUnit }
    ensures units { ThreeUnitsOfTwo }
    ensures before_end { UnsafeBeforeItsEnd }
{}

/// Nor one in which a phase is live whose unit its own batch doesn't hold above it.
// claim: unsafe rows
pub fn unit_not_held_above()
    ensures own_step { UnitHeldByItsStep }
    ensures beside { UnitHeldBesideItsStep }
    ensures another_batch { UnitHeldByAnotherBatch }
    ensures another_unit { AnotherUnitIsHeld }
    ensures given_back { UnitGivenBackEarly }
{}

/// Nor one in which a phase starts that is live, or that its unit doesn't offer.
// claim: unsafe rows
pub fn started_wrongly()
    ensures twice { StartedTwice }
    ensures not_offered { StartedWhereNotOffered }
{}

/// Nor one in which a batch is complete, stopped or aborted and holds or awaits something.
// claim: unsafe rows
pub fn not_empty_at_rest()
    ensures complete_holding { AtRestHolding Complete }
    ensures stopped_holding { AtRestHolding Stopped }
    ensures aborted_holding { AtRestHolding Aborted }
    ensures complete_waiting { AtRestWaiting Complete }
    ensures stopped_waiting { AtRestWaiting Stopped }
    ensures aborted_waiting { AtRestWaiting Aborted }
{}

/// Nor one in which steps wait in a circle, as the machine's own record can if recipes aren't cleared.
// claim: unsafe rows
pub fn waiting_in_a_circle()
    ensures alone { WaitsForItself }
    ensures two { TwoWaitInACircle }
    ensures run { OpposedRun }
    ensures unsafe_run { OpposedRunIsUnsafe }
{}

/// A step waits for those that wait at or below the holder of its resource, and for those that asked for that before.
// claim: steps waited for
pub fn steps_point()
    ensures newer { NewerPointsToOlder }
    ensures older { OlderDoesNotPointToNewer }
    ensures below { PointsBelowHolder }
    ensures beside { DoesNotPointBesideHolder }
    ensures above { DoesNotPointAboveHolder }
{}

/// A chain of waiting goes on at or below its holder, and not beside it.
// claim: steps waited for
pub fn chains_go_on()
    ensures below { ChainGoesOnBelowHolder }
    ensures beside { ChainEndsBesideHolder }
{}
