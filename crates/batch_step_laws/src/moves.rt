//! The moves that a plant makes by itself.
ghost use Rattle.batch_step_laws.specs.Laws.{ActsHaveOneMove, FirstIsNext, HeldInAdvanceGoesOn, NextIsFirst, NextIsLeast, NoneIsPossible, SettledHoldsNothingInAdvance, WorkFalls};

/// The next move is a possible one and none is earlier, and without a next move none is possible.
pub fn next_is_least()
    // claim: least move
    ensures least { NextIsLeast }
    // claim: no possible move
    ensures none { NoneIsPossible }
{}

/// A possible move that is earlier than all others is the next one; in a plant that stands the next one is earlier than all others.
pub fn next_is_first()
    // claim: first is next
    ensures next { FirstIsNext }
    // claim: next is first
    ensures first { NextIsFirst }
{}

/// In a plant that stands, two possible moves of one batch at one place are the same.
// claim: one move an act
pub fn acts_have_one_move()
    ensures { ActsHaveOneMove }
{}

/// In a plant that stands, each possible move lowers the work left.
// claim: work falls
pub fn work_falls()
    ensures { WorkFalls }
{}

/// In a plant that stands, a batch that holds a unit in advance goes on and has a move that gives back, passes on, begins or ends;
/// so if no move is possible nothing is held in advance.
// claim: units held in advance
pub fn held_in_advance_goes_on()
    ensures moves { HeldInAdvanceGoesOn }
    ensures settled { SettledHoldsNothingInAdvance }
{}
