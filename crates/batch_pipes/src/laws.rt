//! Worked rows of inputs and outputs. Nothing runs here.
ghost use Rattle.batch_pipes.specs.RowsOfInputs.{AllIsServed, EndIsLast, FrontIsServed, NoOtherIsServed, NoneIsServed};
ghost use Rattle.batch_pipes.specs.RowsOfOutputs.{FrontIsHeld, NoOtherIsHeld, NoOutputHasCause, NoResultIsMadeUp, NothingIsTooLittle, NothingOfNone};

/// Worked rows: the served lines of a desk are a prefix of those of its input, and all of them if it isn't cut, and nothing else. The
/// end of an input follows all its lines.
// claim: rows of inputs
pub fn input_rows()
    ensures front { FrontIsServed }
    ensures all { AllIsServed }
    ensures no_other { NoOtherIsServed }
    ensures none { NoneIsServed }
    ensures end { EndIsLast }
{}

/// Worked rows: an output holds a prefix of its old contents and a text behind, and nothing else. It or its thread is given back.
// claim: rows of outputs
pub fn output_rows()
    ensures front { FrontIsHeld }
    ensures no_other { NoOtherIsHeld }
    ensures nothing { NothingIsTooLittle }
    ensures none { NothingOfNone }
    ensures made_up { NoResultIsMadeUp }
    ensures no_output { NoOutputHasCause }
{}
