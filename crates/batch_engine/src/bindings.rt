//! The units that take the roles of a recipe.
ghost use Rattle.std.specs.Prelude.{◌≡◌, ◌≤◌, length, find, map, option_copied};
ghost use Rattle.batch_recipe.specs.Conditions.{same_name};
ghost use Rattle.batch_recipe.specs.WellFormed.{is_among};
ghost use Rattle.batch_recipe.specs.declared.role.TheConstants.{MAX_ROLES};
ghost use Rattle.batch_model.specs.Events.{bound_by};
ghost use Rattle.batch_engine.specs.Bindings.{IsBoundAs, IsTakenBy, are_of_roles};

use batch_cell::Cell;
use batch_recipe::{MAX_ROLES, Role};
use batch_text::Name;

/// Whether one of the roles has this name.
fn is_role(name: &Name, roles: &[Role]) -> bool
    ensures { result ≡ is_among (map (λ role. role.name) roles.now) name.now }
{
    roles.iter().any(|role| *name == role.name)
}

/// Whether a pair binds the role with this name.
fn is_bound(role: &Name, pairs: &[(Name, Name)]) -> bool
    ensures { result ≡ is_among (map (λ pair. pair.0) pairs.now) role.now }
{
    pairs.iter().any(|pair| *role == pair.0)
}

/// Whether each pair is of one of the roles, and no role is bound twice.
///
/// At most one pair more than there are roles is looked at: by then a name is unknown or repeated.
fn are_of_roles(roles: &[Role], pairs: &[(Name, Name)]) -> bool
    ensures { result ≡ are_of_roles (map (λ role. role.name) roles.now) pairs.now }
{
    for (index, pair) in pairs.iter().enumerate() {
        let is_again = is_bound(&pair.0, &pairs[index + 1..]);
        if is_again || !is_role(&pair.0, roles) {
            return false;
        }
    }
    true
}

/// The first pair that names this role.
fn pair_of<'a>(pairs: &'a [(Name, Name)], role: &Name) -> Option<&'a (Name, Name)>
    ensures { option_copied result ≡ find (λ pair. same_name pair.0 role.now) pairs.now }
{
    pairs.iter().find(|pair| pair.0 == *role)
}

/// Whether the pairs give the role the unit with this name. A role that they don't bind has no unit, and no name is empty.
fn gives(pairs: &[(Name, Name)], role: &Name, unit: &Name) -> bool
    ensures { result ≡ same_name unit.now (bound_by pairs.now role.now) }
{
    match pair_of(pairs, role) {
        Some(pair) => *unit == pair.1,
        None => unit.text().is_empty(),
    }
}

/// The number of the unit that the pairs give to a role, if it may take it.
fn unit_for(cell: &Cell, role: &Role, pairs: &[(Name, Name)]) -> Option<u16>
    ensures { IsTakenBy cell.now role.now.class (bound_by pairs.now role.now.name) result }
{
    for number in 0..cell.units() {
        let unit = &cell.units[usize::from(number)];
        if unit.is_of_class(&role.class) && gives(pairs, &role.name, &unit.name) {
            return Some(number);
        }
    }
    None
}

/// The numbers of the units that the pairs give to the roles, in the order of the roles; the entries after them mean nothing. None
/// where the pairs are no binding of the roles.
pub fn units_for(cell: &Cell, roles: &[Role], pairs: &[(Name, Name)]) -> Option<[u16; MAX_ROLES]>
    requires { length roles.now ≤ MAX_ROLES }
    ensures { IsBoundAs cell.now roles.now pairs.now result }
{
    if !are_of_roles(roles, pairs) {
        return None;
    }
    let mut units = [0; MAX_ROLES];
    for index in 0..roles.len() {
        units[index] = unit_for(cell, &roles[index], pairs)?;
    }
    Some(units)
}
