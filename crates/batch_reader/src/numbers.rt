//! The change of the wanted token by a whole number or an operator.
ghost use Rattle.std.specs.Prelude.{◌≡◌};
ghost use Rattle.batch_text.specs.NumberText.{number_of, IsNumber};
ghost use Rattle.batch_reader.specs.ChartMachine.{take_number, take_operator};
ghost use Rattle.batch_reader.specs.ChartView.{Gives, want_view};

use crate::chart_fault::Stop;
use crate::want::Want;
use batch_recipe::{Condition, Op, Term};
use batch_text::read_number;
use std::mem::replace;

/// The number that the digits write, whatever it is.
#[tactic(auto, using(crate::proofs::ChartNumbers::number_fits))]
pub fn number_of(digits: &[u8]) -> u64
    requires { IsNumber digits.now }
    ensures { result ≡ number_of digits.now }
{
    read_number(digits, u64::MAX).unwrap()
}

/// Reads a number.
pub fn take_number(want: &mut Want, number: u64) -> Result<(), Stop>
    ensures { Gives (λ _. want_view want.new) result (take_number (want_view want.old) number) }
{
    *want = match replace(want, Want::Chart) {
        Want::Turns => Want::AfterTurns(number),
        Want::Operand(test, name, op) => {
            let term = Term::Number(number);
            Want::AfterCond(test, Condition { name, op, term })
        }
        _ => return Err(Stop::NotAChart),
    };
    Ok(())
}

/// Reads an operator.
pub fn take_operator(want: &mut Want, op: Op) -> Result<(), Stop>
    ensures { Gives (λ _. want_view want.new) result (take_operator (want_view want.old) op) }
{
    *want = match replace(want, Want::Chart) {
        Want::Operator(test, name) => Want::Operand(test, name, op),
        _ => return Err(Stop::NotAChart),
    };
    Ok(())
}
