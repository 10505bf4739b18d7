//! The offsets that are noted of a text beside its chart.
ghost use Rattle.std.specs.Prelude.{◌≡◌, Option};
ghost use Rattle.batch_reader.specs.ChartMachine.{first_or, no_firsts, noted, number_offsets, sign_offsets};
ghost use Rattle.batch_reader.specs.ChartView.{want_view};

use crate::want::Want;
use batch_recipe::{MAX_TURNS, MAX_VALUE};

/// The first of each kind of offset.
#[derive(Clone, Copy)]
pub struct Firsts {
    /// The start of the first number out of range.
    pub outside: Option<usize>,
    /// The parenthesis that opens the first `par`.
    pub par: Option<usize>,
}

impl Firsts {
    /// No offset of either kind.
    pub fn none() -> Firsts
        ensures { result ≡ no_firsts }
    {
        Firsts {
            outside: None,
            par: None,
        }
    }

    /// Notes the number that begins at the offset, if it is the first out of range.
    pub fn with_number(self, want: &Want, number: u64, offset: usize) -> Firsts
        ensures { result ≡ noted self (number_offsets (want_view want.now) number offset) }
    {
        let is_within = match want {
            Want::Turns => 1 <= number && number <= MAX_TURNS,
            Want::Operand(_, _, _) => number <= MAX_VALUE,
            _ => true,
        };
        if is_within {
            return self;
        }
        Firsts {
            outside: self.outside.or(Some(offset)),
            par: self.par,
        }
    }

    /// Notes the sign at the offset, if it is where the first `par` opens.
    pub fn with_sign(self, want: &Want, offset: usize) -> Firsts
        ensures { result ≡ noted self (sign_offsets (want_view want.now) offset) }
    {
        match want {
            Want::OpenPar => {
                Firsts {
                    outside: self.outside,
                    par: self.par.or(Some(offset)),
                }
            }
            _ => self,
        }
    }
}
