//! Worked rows of transfers. The functions are empty: their contracts are the rows.
// claim: transfers in rows
ghost use Rattle.batch_examples.specs.RowsOfTransfers.{
  UnitIsHandedOver,
  HeldBatchHandsOver,
  StoppingBatchGivesBack,
  OperationHandsOver,
  KeepHoldsBeforeItBegins,
  PassIsTold,
  PassedUnitIsKept,
  ReservedUnitIsKept,
  UnitsStay,
  ReservedUnitIsLost,
  PassedUnitIsLost,
  PassedUnitIsElsewhere,
  DownwardsFirst,
  UpwardsFirst,
  FirstOfTwoFollows,
  OnlyTheLastStep,
  LastStepMayReserve,
  StepThatIsNotLast,
  StepBesideAnother,
  UnitProcedureBesideAnother,
  UnitProcedureBefore,
  OppositeTransfers,
  TransferToTheSameUnit,
  OneTransfer,
};

/// A unit that a step reserves is passed to the unit procedure that follows, though another batch waits for it, which begins without
/// an ask; so it is if an operation reserves.
pub fn unit_is_handed_over()
    ensures step { UnitIsHandedOver }
    ensures operation { OperationHandsOver }
{}

/// A batch on hold passes the unit, and the unit procedure that follows holds it until the batch runs.
pub fn held_batch_hands_over()
    ensures record { HeldBatchHandsOver }
    ensures holders { KeepHoldsBeforeItBegins }
{}

/// A batch that stops gives back the units that it reserved.
pub fn stopping_batch_gives_back()
    ensures { StoppingBatchGivesBack }
{}

/// The place that a unit is passed to holds it from the pass on.
pub fn pass_is_told()
    ensures { PassIsTold }
{}

/// A unit that is passed or reserved stays with its batch until the unit procedure begins or the batch is stopped or aborted.
pub fn unit_is_kept()
    ensures passed { PassedUnitIsKept }
    ensures reserved { ReservedUnitIsKept }
    ensures run { UnitsStay }
{}

/// A record in which this unit is given back before, or held elsewhere once it is passed, doesn't keep it.
pub fn unit_is_lost()
    ensures reserved { ReservedUnitIsLost }
    ensures passed { PassedUnitIsLost }
    ensures elsewhere { PassedUnitIsElsewhere }
{}

/// Unit procedures follow a step if nothing comes between, by no choice and in no other branch of a `par` or turn of a loop.
pub fn steps_are_followed()
    ensures down { DownwardsFirst }
    ensures up { UpwardsFirst }
    ensures first { FirstOfTwoFollows }
    ensures last { OnlyTheLastStep }
{}

/// A step may reserve a unit procedure that follows it.
pub fn follower_is_reserved()
    ensures one { OneTransfer }
    ensures last { LastStepMayReserve }
{}

/// No step may reserve a unit procedure that doesn't follow it.
pub fn other_is_not_reserved()
    ensures early { StepThatIsNotLast }
    ensures beside { StepBesideAnother }
    ensures in_parallel { UnitProcedureBesideAnother }
    ensures before { UnitProcedureBefore }
{}

/// Ranks rise along the path of a step with the units that it reserves.
pub fn reserved_units_are_ranked()
    ensures opposite { OppositeTransfers }
    ensures same { TransferToTheSameUnit }
{}
