//! One walk over the nodes of a recipe for all bindings of its roles at once.
ghost use Rattle.std.specs.Prelude.{◌≡◌, ◌<◌, ◌≤◌, ◌∷◌, ℕ, [], List, None, Option, Some, length, option_copied, slice_get, true, IfOk, IfSome};
ghost use Rattle.batch_recipe.specs.Expanding.{Binding};
ghost use Rattle.batch_recipe.specs.Outlines.{act_of_kind};
ghost use Rattle.batch_recipe.specs.declared.act.Act as act;
ghost use Rattle.batch_recipe.specs.declared.recipe.Recipe as document;
ghost use Rattle.batch_recipe.specs.declared.role.Role as declared;
ghost use Rattle.batch_model.specs.Recipes.{recipe_of};
ghost use Rattle.batch_model.specs.Setups.{setup_of};
ghost use Rattle.batch_set.specs.Linking.{IsLinkedIn};
ghost use Rattle.batch_set.specs.Looked.{needs_by};
ghost use Rattle.batch_verify.specs.Charts.{AreFaults};
ghost use Rattle.batch_verify.specs.Refusals.{IsVerdict, ranking_in};
ghost use Rattle.batch_verify.specs.PassedSteps.{AreNotedAt};
ghost use Rattle.batch_verify.specs.Spans.{AreAskedInEach, ClassOffers, ComesBelow, GivesUnits, IsPassed, PhaseOffered, SourceOffers, no_span};
ghost use Rattle.batch_verify.specs.declared.span.Span as span;

use crate::asking::{check_need, number_by, resource_by, unit_from};
use crate::passed::{Passed, known_below, note_passed};
use crate::rising::{rank_by, rise};
use crate::rule::Rule;
use crate::site::Site;
use crate::trial::{Trial, takers_in};
use batch_cell::Cell;
use batch_recipe::{Act, Entry, Recipe, Role, Work};
use batch_set::{LinkedNeed, LinkedRecipe, Source};
use batch_text::Name;
use std::alloc::{AllocError, Global};

/// The span of the path from the root, whatever units take the roles: the source of the unit on which it runs, below a unit procedure,
/// and the greatest rank that its last need can have.
#[derive(Clone, Copy)]
pub(crate) struct Span {
    pub(crate) unit: Option<Source>,
    pub(crate) last: Option<u32>,
}

/// Whether no node breaks a rule, whatever units take the roles. If not, nothing is known. `faults` are the rules that the nodes break
/// whatever units do.
pub(crate) fn is_clear(
    alloc: Global,
    cell: &Cell,
    recipe: &Recipe,
    ranks: Option<&[u32]>,
    faults: &[Option<Rule>],
    linked: &LinkedRecipe,
) -> Result<bool, AllocError>
    requires faults { AreFaults recipe.now.acts faults.now }
    requires linked { IsLinkedIn cell.now recipe.now linked.now }
    ensures { IfOk result (λ clear. clear ≡ true → (bound : Binding) → GivesUnits cell.now recipe.now.roles.items bound → (recipes : List document.Recipe)
        → IsVerdict (setup_of cell.now recipes) (ranking_in cell.now (option_copied ranks.entry)) (recipe_of recipe.now bound) None) }
{
    let lowest = takers_in(alloc, recipe, linked, Trial::Leveled(false, ranks))?;
    let highest = takers_in(alloc, recipe, linked, Trial::Leveled(true, ranks))?;
    let low = Site {
        cell,
        acts: &recipe.acts,
        linked,
        takers: &lowest,
        ranks,
    };
    let mut spans = Vec::with_capacity(alloc, recipe.outline.entries.len())?;
    let mut passed = vec![in alloc; None; recipe.acts.phases.len()]?;
    for entry in &recipe.outline.entries {
        if faults[spans.len()].is_some() {
            return Ok(false);
        }
        let above = span_above(&spans, entry);
        let Some(within) = span_below(&low, &highest, &recipe.roles, entry, &mut passed, above)
        else {
            return Ok(false);
        };
        spans.push(within)?;
    }
    Ok(true)
}

/// The span of the path above a node, from those of the nodes before it. Nothing is above the first node.
fn span_above(spans: &[Span], entry: &Entry) -> Span
    ensures some { (above : span.Span) → slice_get spans.now entry.now.parent ≡ Some above → result ≡ above }
    ensures none { length spans.now ≤ entry.now.parent → result ≡ no_span }
{
    match spans.get(usize::from(entry.parent)) {
        None => Span {
            unit: None,
            last: None,
        },
        Some(span) => *span,
    }
}

/// The span of the path below the node: the one that is noted of its act, if there is one for this span above it. None where the act may
/// break a rule.
fn span_below(
    low: &Site,
    highest: &[Option<u16>],
    roles: &[Role],
    entry: &Entry,
    passed: &mut [Option<Passed>],
    above: Span,
) -> Option<Span>
    requires { AreNotedAt low.now roles.now highest.now passed.old }
    ensures noted { AreNotedAt low.now roles.now highest.now passed.new }
    ensures act { IfSome result (λ within. (a : act.Act) → act_of_kind low.now.acts.now entry.now.kind ≡ Some a
        → IsPassed low.now.cell.now (option_copied low.now.ranks) roles.now low.now.takers.now highest.now (needs_by low.now.linked.now entry.now.kind) a above within) }
    ensures chart { act_of_kind low.now.acts.now entry.now.kind ≡ None → IfSome result (λ within. within ≡ above) }
{
    let Some(act) = entry.kind.act(low.acts) else {
        return Some(above);
    };
    if let Some(within) = known_below(passed, entry.kind, above) {
        return Some(within);
    }
    let needs = low.linked.needs(entry.kind);
    let within = span_within(low, highest, roles, act, needs, above)?;
    note_passed(passed, entry.kind, Passed { above, within });
    Some(within)
}

/// The span of the path below the act with these needs. None where the act may break a rule.
fn span_within(
    low: &Site,
    highest: &[Option<u16>],
    roles: &[Role],
    act: &Act,
    needs: &[LinkedNeed],
    above: Span,
) -> Option<Span>
    ensures { IfSome result (IsPassed low.now.cell.now (option_copied low.now.ranks) roles.now low.now.takers.now highest.now needs.now act.now above) }
{
    let unit = source_under(low, act, needs, above.unit)?;
    let last = after_needs(low, highest, needs, above.last)?;
    if !each_offers(low.cell, roles, unit, &act.work) {
        return None;
    }
    Some(Span { unit, last })
}

/// The source of the unit below the act. An act's own unit is the first of its needs.
fn source_under(
    low: &Site,
    act: &Act,
    needs: &[LinkedNeed],
    unit: Option<Source>,
) -> Option<Option<Source>>
    ensures { IfSome result (λ source. (roles : List declared.Role) (highest : List (Option ℕ))
        → ComesBelow low.now.cell.now (option_copied low.now.ranks) roles low.now.takers.now highest act.now.unit needs.now unit source) }
{
    match (&act.unit, needs) {
        (None, _) => Some(unit),
        (Some(_), [own, ..]) => match unit_from(low, own.source) {
            Ok(_) => Some(Some(own.source)),
            Err(_) => None,
        },
        (Some(_), []) => None,
    }
}

/// The greatest rank that the last of the needs can have. None unless each is of a resource with so many units, and the ranks rise.
fn after_needs(
    low: &Site,
    highest: &[Option<u16>],
    needs: &[LinkedNeed],
    last: Option<u32>,
) -> Option<Option<u32>>
    ensures { IfSome result (λ greatest. (roles : List declared.Role)
        → AreAskedInEach low.now.cell.now (option_copied low.now.ranks) roles low.now.takers.now highest.now needs.now last greatest) }
{
    let mut greatest = last;
    for need in needs {
        greatest = after_need(low, highest, need, greatest)?;
    }
    Some(greatest)
}

/// The greatest rank that the need can have; without ranks it is `last`. None unless the need is of a resource with so many units, and
/// its least rank, if there are ranks, is above `last`.
fn after_need(
    low: &Site,
    highest: &[Option<u16>],
    need: &LinkedNeed,
    last: Option<u32>,
) -> Option<Option<u32>>
    ensures { IfSome result (λ greatest. (roles : List declared.Role)
        → AreAskedInEach low.now.cell.now (option_copied low.now.ranks) roles low.now.takers.now highest.now (need.now ∷ []) last greatest) }
{
    let (is_resource, is_within_capacity) = check_need(low, need);
    if !is_resource || !is_within_capacity {
        return None;
    }
    let Some(ranks) = low.ranks else {
        return Some(last);
    };
    match rise(last, rank_by(ranks, resource_by(low, need.source))) {
        Ok(_) => Some(Some(rank_by(ranks, number_by(highest, need.source)))),
        Err(_) => None,
    }
}

/// Whether each unit that the source may give offers the phase, if the work runs one.
fn each_offers(cell: &Cell, roles: &[Role], unit: Option<Source>, work: &Work) -> bool
    ensures { result ≡ true → SourceOffers cell.now roles.now unit work.now }
{
    match (work, unit) {
        (Work::Follows(_), _) => true,
        (Work::Runs { .. }, None) => false,
        (Work::Runs { phase, .. }, Some(source)) => source_offers(cell, roles, source, phase),
    }
}

/// Whether each unit that the source may give offers the phase.
fn source_offers(cell: &Cell, roles: &[Role], source: Source, phase: &Name) -> bool
    ensures { result ≡ true → PhaseOffered cell.now roles.now source phase.now }
{
    match source {
        Source::Resource(number) => number < cell.units() && cell.offers(number, phase),
        Source::Role(number) => match roles.get(usize::from(number)) {
            None => false,
            Some(role) => class_offers(cell, &role.class, phase),
        },
        Source::Unknown => false,
    }
}

/// Whether each unit of the class offers the phase.
fn class_offers(cell: &Cell, class: &Name, phase: &Name) -> bool
    ensures { result ≡ true → ClassOffers cell.now class.now phase.now }
{
    for number in 0..cell.units() {
        let unit = &cell.units[usize::from(number)];
        if unit.is_of_class(class) && !cell.offers(number, phase) {
            return false;
        }
    }
    true
}
