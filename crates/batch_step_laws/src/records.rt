//! The holders, waiters, live phases and states that a record alone gives.
ghost use Rattle.batch_step_laws.specs.Laws.{LastLineTellsActive, LastLineTellsHolders, LastLineTellsState, LastLineTellsWaiters};

/// The holders, the waiters, the live phases and the states that a record gives change by its last line alone.
// claim: last line tells
pub fn last_line_tells()
    ensures holders { LastLineTellsHolders }
    ensures waiters { LastLineTellsWaiters }
    ensures active { LastLineTellsActive }
    ensures state { LastLineTellsState }
{}
