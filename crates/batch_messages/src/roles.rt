//! The roles of recipes, and the units that may take them.
use batch_cell::{Cell, Unit};
use batch_recipe::{Act, Recipe, UnitChoice, act_named};
use batch_text::Name;

/// The class whose units may take the role.
pub(crate) fn class_of<'a>(recipe: &'a Recipe, role: &Name) -> Option<&'a Name> {
    let own = recipe.roles.iter().find(|own| own.name == *role)?;
    Some(&own.class)
}

/// Whether the unit may take the role.
pub(crate) fn may_take(recipe: &Recipe, role: &Name, unit: &Unit) -> bool {
    class_of(recipe, role).is_some_and(|class| unit.is_of_class(class))
}

/// The unit of the unit procedure among the acts, or its role.
pub(crate) fn unit_among<'a>(acts: &[&'a Act]) -> Option<&'a UnitChoice> {
    acts.iter().find_map(|act| act.unit.as_ref())
}

/// The unit of the unit procedure with this name, or its role.
pub(crate) fn unit_of<'a>(recipe: &'a Recipe, name: &Name) -> Option<&'a UnitChoice> {
    act_named(&recipe.acts.unit_procedures, name)?.unit.as_ref()
}

/// Whether the unit offers the phase.
fn offers(cell: &Cell, unit: &Name, phase: &Name) -> bool {
    cell.modules.iter().any(|module| module.belongs_to(unit) && module.phases.contains(phase))
}

/// The first of the units that may take the role which doesn't offer the phase.
pub(crate) fn unit_without<'a>(
    cell: &'a Cell,
    recipe: &Recipe,
    role: &Name,
    phase: &Name,
) -> Option<&'a Name> {
    let mut units = cell.units.iter();
    let unit = units.find(|unit| {
        may_take(recipe, role, unit) && !offers(cell, &unit.name, phase)
    })?;
    Some(&unit.name)
}
