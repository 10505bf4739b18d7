//! Lines of the record, worked out. The functions are empty: their contracts are the lines.
ghost use Rattle.batch_record.specs.RowsOfRecords.{
  AskedUnits,
  GrantedUnit,
  ReleasedUnit,
  PassedUnit,
  StartedPhase,
  SentCommand,
  StatedBatch,
  BegunAct,
  EndedAct,
  CreatedBatch,
  OrderedBatch,
  RemovedBatch,
  ReportedFault,
  RefusedCommand,
  RefusedSize,
  RefusedValue,
  RefusedLeavingOut,
  RefusedMemory,
  EmptyLine,
  SpaceAtAnEnd,
  TwoSpaces,
  LeadingZero,
  OneUnitWithAStar,
  TooManyUnits,
  NoPlace,
  WordTooMany,
  RefusedWithout,
  UnknownWord,
  Passed,
  NotPassed,
};

// claim: worked reading
pub fn out_lines()
    ensures asked_units { AskedUnits }
    ensures granted_unit { GrantedUnit }
    ensures released_unit { ReleasedUnit }
    ensures passed_unit { PassedUnit }
    ensures started_phase { StartedPhase }
    ensures sent_command { SentCommand }
    ensures stated_batch { StatedBatch }
    ensures begun_act { BegunAct }
    ensures ended_act { EndedAct }
    ensures created_batch { CreatedBatch }
    ensures ordered_batch { OrderedBatch }
    ensures removed_batch { RemovedBatch }
    ensures reported_fault { ReportedFault }
    ensures refused_command { RefusedCommand }
    ensures refused_size { RefusedSize }
    ensures refused_value { RefusedValue }
    ensures refused_leaving_out { RefusedLeavingOut }
    ensures refused_memory { RefusedMemory }
{}

// claim: worked reading
pub fn other_lines()
    ensures empty_line { EmptyLine }
    ensures space_at_an_end { SpaceAtAnEnd }
    ensures two_spaces { TwoSpaces }
    ensures leading_zero { LeadingZero }
    ensures one_unit_with_a_star { OneUnitWithAStar }
    ensures too_many_units { TooManyUnits }
    ensures no_place { NoPlace }
    ensures word_too_many { WordTooMany }
    ensures refused_without { RefusedWithout }
    ensures unknown_word { UnknownWord }
    ensures passed { Passed }
    ensures not_passed { NotPassed }
{}
