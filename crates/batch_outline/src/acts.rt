//! The texts of acts, and of the resources that they ask for.
ghost use Rattle.std.specs.Prelude.{◌≡◌, ◌++◌, IfOk, OnOk, codes, map, option_copied, string_bytes};
ghost use Rattle.std.specs.List.{flat_map};
ghost use Rattle.batch_recipe.specs.Expanding.{unit_chosen};
ghost use Rattle.batch_outline.specs.Along.{asked_needs, asked_reserves, asked_text, asked_unit, unit_of_name};
ghost use Rattle.batch_outline.specs.Showing.{act_text, class_text, itself, kind_below, listed, need_text, phase_text, role_named, spaced, unit_text};

use batch_recipe::{Act, Acts, Need, Recipe, Role, UnitChoice, Work, act_named};
use batch_text::Name;
use std::alloc::{AllocError, Global};

/// The kind of an act below the procedure: unit procedures alone have a unit or a role, and phase steps alone run a phase.
pub fn kind_below(act: &Act) -> &'static str
    ensures { result.now ≡ kind_below act.now.unit act.now.work }
{
    match (&act.unit, &act.work) {
        (Some(_), _) => "unit_procedure",
        (None, Work::Follows(_)) => "operation",
        (None, Work::Runs { .. }) => "phase",
    }
}

/// The act, of this kind, with its name, its unit, its phase, the unit procedures that it reserves, and its needs.
pub fn act_text(alloc: Global, recipe: &Recipe, kind: &str, act: &Act) -> Result<String, AllocError>
    ensures { IfOk result (λ text. string_bytes text ≡ act_text recipe.now.roles.items kind.now act.now) }
{
    let name = &act.name;
    let mut text = format!(in alloc; "{kind} {name}")?;
    put_unit(&mut text, recipe, act)?;
    put_phase(&mut text, act)?;
    put_reserves(&mut text, &act.reserves)?;
    put_needs(&mut text, &act.needs)?;
    Ok(text)
}

fn put_unit(text: &mut String, recipe: &Recipe, act: &Act) -> Result<(), AllocError>
    ensures { OnOk result (string_bytes text.new ≡ string_bytes text.old ++ unit_text recipe.now.roles.items act.now.unit) }
{
    match &act.unit {
        None => Ok(()),
        Some(UnitChoice::Unit(unit)) => write!(text, " on {unit}"),
        Some(UnitChoice::Role(role)) => {
            write!(text, " on {role}")?;
            put_class(text, recipe, role)
        }
    }
}

fn put_class(text: &mut String, recipe: &Recipe, role: &Name) -> Result<(), AllocError>
    ensures { OnOk result (string_bytes text.new ≡ string_bytes text.old ++ class_text recipe.now.roles.items role.now) }
{
    match role_named(&recipe.roles, role) {
        None => Ok(()),
        Some(own) => {
            let class = &own.class;
            write!(text, " of {class}")
        }
    }
}

/// The role with this name.
fn role_named<'a>(roles: &'a [Role], name: &Name) -> Option<&'a Role>
    ensures { option_copied result ≡ role_named roles.now name.now }
{
    roles.iter().find(|role| role.name == *name)
}

fn put_phase(text: &mut String, act: &Act) -> Result<(), AllocError>
    ensures { OnOk result (string_bytes text.new ≡ string_bytes text.old ++ phase_text act.now.work) }
{
    match &act.work {
        Work::Follows(_) => Ok(()),
        Work::Runs { phase, .. } => write!(text, " runs {phase}"),
    }
}

fn put_reserves(text: &mut String, names: &[Name]) -> Result<(), AllocError>
    ensures { OnOk result (string_bytes text.new ≡ string_bytes text.old ++ listed (codes "reserves") names.now) }
{
    if names.is_empty() {
        return Ok(());
    }
    text.push_str(" reserves")?;
    put_each_name(text, names)
}

fn put_each_name(text: &mut String, names: &[Name]) -> Result<(), AllocError>
    ensures { OnOk result (string_bytes text.new ≡ string_bytes text.old ++ flat_map spaced names.now) }
{
    for name in names {
        write!(text, " {name}")?;
    }
    Ok(())
}

fn put_needs(text: &mut String, needs: &[Need]) -> Result<(), AllocError>
    ensures { OnOk result (string_bytes text.new ≡ string_bytes text.old ++ listed (codes "needs") (map need_text needs.now)) }
{
    if needs.is_empty() {
        return Ok(());
    }
    text.push_str(" needs")?;
    put_each_need(text, needs)
}

fn put_each_need(text: &mut String, needs: &[Need]) -> Result<(), AllocError>
    ensures { OnOk result (string_bytes text.new ≡ string_bytes text.old ++ flat_map (λ need. spaced (need_text need)) needs.now) }
{
    for need in needs {
        put_need(text, need)?;
    }
    Ok(())
}

fn put_need(text: &mut String, need: &Need) -> Result<(), AllocError>
    ensures { OnOk result (string_bytes text.new ≡ string_bytes text.old ++ spaced (need_text need.now)) }
{
    let resource = &need.resource;
    let units = need.units;
    if units > 1 {
        write!(text, " {resource}*{units}")
    } else {
        write!(text, " {resource}")
    }
}

/// All that is held below the act: `held`, then the act's own unit or role, those of the unit procedures that it reserves, and its
/// needs.
pub fn held_below(alloc: Global, held: &str, acts: &Acts, act: &Act) -> Result<String, AllocError>
    ensures { IfOk result (λ below. string_bytes below ≡ held.now ++ asked_text acts.now act.now) }
{
    let mut below = String::from_str(alloc, held)?;
    put_chosen(&mut below, act)?;
    put_reserved(&mut below, acts, &act.reserves)?;
    put_resources(&mut below, &act.needs)?;
    Ok(below)
}

fn put_chosen(text: &mut String, act: &Act) -> Result<(), AllocError>
    ensures { OnOk result (string_bytes text.new ≡ string_bytes text.old ++ asked_unit act.now.unit) }
{
    match &act.unit {
        None => Ok(()),
        Some(choice) => {
            let unit = chosen(choice);
            write!(text, " {unit}")
        }
    }
}

/// The unit, or the role in its place.
fn chosen(choice: &UnitChoice) -> &Name
    ensures { result.now ≡ unit_chosen itself choice.now }
{
    match choice {
        UnitChoice::Unit(unit) => unit,
        UnitChoice::Role(role) => role,
    }
}

/// Appends the unit of each of these unit procedures, or its role.
fn put_reserved(text: &mut String, acts: &Acts, names: &[Name]) -> Result<(), AllocError>
    ensures { OnOk result (string_bytes text.new ≡ string_bytes text.old ++ asked_reserves acts.now names.now) }
{
    for name in names {
        let unit = unit_reserved(acts, name);
        write!(text, " {unit}")?;
    }
    Ok(())
}

/// The unit of the unit procedure with this name, or its role. Recipes reserve none that is missing; its text would be empty.
fn unit_reserved<'a>(acts: &'a Acts, name: &Name) -> &'a str
    ensures { result.now ≡ unit_of_name acts.now name.now }
{
    match act_named(&acts.unit_procedures, name) {
        None => "",
        Some(act) => match &act.unit {
            None => "",
            Some(choice) => chosen(choice).text(),
        },
    }
}

fn put_resources(text: &mut String, needs: &[Need]) -> Result<(), AllocError>
    ensures { OnOk result (string_bytes text.new ≡ string_bytes text.old ++ asked_needs needs.now) }
{
    for need in needs {
        let resource = &need.resource;
        write!(text, " {resource}")?;
    }
    Ok(())
}
