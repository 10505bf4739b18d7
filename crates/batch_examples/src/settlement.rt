//! Worked rows: waiting for something. The functions are empty: their contracts are the rows.
ghost use Rattle.batch_examples.specs.RowsOfSettlement.{
  LivePhaseWorks,
  HeldBatchWorks,
  NothingLiveDoesNotWork,
  AnotherHeldBatchDoesNotWork,
  PhaseBesideDoesNotWork,
  HeaderIsFree,
  OneOfTwoUnitsIsFree,
  NobodyHoldsSteam,
  LastHolderIsNotAtWork,
  ChainWithoutEnd,
};

/// A holder is at work if a phase is live at or below it, or its batch isn't simply running; else it isn't.
// claim: holders at work
pub fn holders_at_work()
    ensures phase { LivePhaseWorks }
    ensures batch { HeldBatchWorks }
    ensures nothing { NothingLiveDoesNotWork }
    ensures another_batch { AnotherHeldBatchDoesNotWork }
    ensures beside { PhaseBesideDoesNotWork }
{}

/// An act waits for nothing if enough is free, if nobody holds the resource that it asks for, if a chain's last holder isn't at
/// work, or if a chain has no end.
// claim: waits for nothing
pub fn waits_for_nothing()
    ensures free { HeaderIsFree }
    ensures enough_is_free { OneOfTwoUnitsIsFree }
    ensures nobody_holds { NobodyHoldsSteam }
    ensures last_holder { LastHolderIsNotAtWork }
    ensures chain { ChainWithoutEnd }
{}
