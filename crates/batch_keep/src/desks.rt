//! Several desks over a journal. Nothing runs here: the contract is a law.
ghost use Rattle.batch_keep.specs.Desks.{DesksAreToldAgain};

use batch_journal::{lines_begin, recovered_are_lines};
use batch_serve::no_want_is_well;

/// A replay of any file that a crash leaves writes again the record of the lines of several desks, which a journal keeps.
// claim: desks are told again
pub fn desks_are_told_again()
    ensures { DesksAreToldAgain }
{
    recovered_are_lines();
    lines_begin();
    no_want_is_well();
}
