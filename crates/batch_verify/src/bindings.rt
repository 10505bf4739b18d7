//! Bindings of roles that are tried one after another, so that each candidate of each role takes it in one of them.
ghost use Rattle.std.specs.Prelude.{◌≡◌, ◌≤◌, max};
ghost use Rattle.batch_cell.specs.declared.cell.TheConstants.{MAX_UNITS};
ghost use Rattle.batch_verify.specs.Bindings.{binding_count};

use batch_cell::Cell;
use batch_recipe::Role;

/// The number of bindings to try: as many as there are candidates of the role that has the most, and one at least.
// claim: numbered bindings
pub fn binding_count(cell: &Cell, roles: &[Role]) -> u16
    ensures count { result ≡ binding_count cell.now roles.now }
    ensures some { 1 ≤ result }
    ensures few { result ≤ MAX_UNITS }
{
    let mut most = 1;
    for role in roles {
        most = greater(most, cell.candidates(&role.class));
    }
    most
}

fn greater(one: u16, other: u16) -> u16
    ensures { result ≡ max one other }
{
    if one < other { other } else { one }
}
