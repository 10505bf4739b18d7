//! Records, worked out. The functions are empty: their contracts are the states that the lines give.
ghost use Rattle.batch_record.specs.RowsOfStatus.{ArePassedOver, HasStopped, HoldsAtTheOther, IsBrokenOff, IsElsewhere, IsHeld, IsHolding, IsRestarting, NoRecord, Removed, Rests, Runs, StopsWaiting, TakesThePlace, TellsNothingYet, Waits};

/// The states that the lines of records give, and those that they don't give.
// claim: worked records
pub fn state_line_rows()
    ensures waits { Waits }
    ensures runs { Runs }
    ensures rests { Rests }
    ensures removed { Removed }
    ensures stops_waiting { StopsWaiting }
    ensures holds_at_the_other { HoldsAtTheOther }
    ensures is_holding { IsHolding }
    ensures is_held { IsHeld }
    ensures is_restarting { IsRestarting }
    ensures has_stopped { HasStopped }
    ensures is_elsewhere { IsElsewhere }
{}

/// The states that recovery blocks give, and texts that give none.
// claim: worked records
pub fn state_block_rows()
    ensures takes_the_place { TakesThePlace }
    ensures tells_nothing_yet { TellsNothingYet }
    ensures is_broken_off { IsBrokenOff }
    ensures are_passed_over { ArePassedOver }
    ensures no_record { NoRecord }
{}
