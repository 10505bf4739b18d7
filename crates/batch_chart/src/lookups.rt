//! Look-ups in a recipe: the node to which a need is passed on, and the phase of a phase step.
ghost use Rattle.std.specs.Prelude.{◌≡◌, ◌<◌, IfSome, length, option_copied};
ghost use Rattle.batch_recipe.specs.Expanding.{unit_count};
ghost use Rattle.batch_chart.specs.Outlined.{phase_step_name};
ghost use Rattle.batch_chart.specs.Passing.{PassesTo};

use batch_recipe::{Act, Recipe, Work, act_at, follows};
use batch_text::Name;

/// The node of the unit procedure to which the act at the node passes on its need with this number, once it has ended.
///
/// None where the need isn't the unit of a unit procedure that the act reserves, or where that unit procedure doesn't follow the act.
#[inline(always)]
pub(crate) fn pass_target(recipe: &Recipe, node: u16, need: u16) -> Option<u16>
    ensures to { PassesTo recipe.now node need result }
    ensures within { IfSome result (λ to. to < length recipe.now.outline.entries.items) }
{
    match act_at(recipe, node) {
        None => None,
        Some(act) => {
            let own = own_units(act);
            if need < own {
                return None;
            }
            follows(recipe, node, usize::from(need - own))
        }
    }
}

/// How many of the act's needs are its own unit: 1 if it has a unit, else 0.
#[inline(always)]
fn own_units(act: &Act) -> u16
    ensures { result ≡ unit_count act.now.unit }
{
    match act.unit {
        Some(_) => 1,
        None => 0,
    }
}

/// The name of the phase that the phase step with this number runs.
#[inline(always)]
pub(crate) fn phase_name(recipe: &Recipe, step: usize) -> Option<&Name>
    ensures { option_copied result ≡ phase_step_name recipe.now step }
{
    match recipe.acts.phases.get(step) {
        Some(act) => match &act.work {
            Work::Runs { phase, .. } => Some(phase),
            Work::Follows(_) => None,
        },
        None => None,
    }
}
