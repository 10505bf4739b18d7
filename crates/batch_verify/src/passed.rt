//! The spans on which phase steps passed.
ghost use Rattle.std.specs.Prelude.{◌≡◌, true, IfSome};
ghost use Rattle.batch_verify.specs.PassedSteps.{with_passed, Allows, IsKnownBelow};
ghost use Rattle.batch_verify.specs.Spans.{IsAtMost};

use crate::span::Span;
use batch_recipe::{Kind, LabelTable};
use batch_set::Source;

/// The spans above and below a node of an act that meets the rules there.
#[derive(Clone, Copy)]
pub(crate) struct Passed {
    pub(crate) above: Span,
    pub(crate) within: Span,
}

/// The span below the node of the act, if one is noted that its act has below this span. `passed` has the spans of phase steps, by
/// number; other acts have none. Many nodes are of one phase step, mostly below one unit or role.
pub(crate) fn known_below(passed: &[Option<Passed>], kind: Kind, above: Span) -> Option<Span>
    ensures { IfSome result (IsKnownBelow passed.now kind above) }
{
    let Kind::Act(LabelTable::Phases, number) = kind else {
        return None;
    };
    match passed.get(number) {
        Some(Some(spans)) if allows(spans, above) => Some(spans.within),
        _ => None,
    }
}

/// Notes the spans of the act, if it is a phase step.
pub(crate) fn note_passed(passed: &mut [Option<Passed>], kind: Kind, spans: Passed)
    ensures { passed.new ≡ with_passed passed.old kind spans }
{
    if let Kind::Act(LabelTable::Phases, number) = kind
        && number < passed.len()
    {
        passed[number] = Some(spans);
    }
}

/// Whether an act that passed on these spans also passes from this one: the source of the unit is the same, and the last rank is no
/// greater.
fn allows(passed: &Passed, above: Span) -> bool
    ensures { result ≡ true → Allows passed.now above }
{
    is_same(passed.above.unit, above.unit) && is_at_most(above.last, passed.above.last)
}

/// Whether the sources are the same, and known.
fn is_same(one: Option<Source>, other: Option<Source>) -> bool
    ensures { result ≡ true → one ≡ other }
{
    match (one, other) {
        (Some(Source::Resource(one)), Some(Source::Resource(other))) => one == other,
        (Some(Source::Role(one)), Some(Source::Role(other))) => one == other,
        _ => false,
    }
}

/// Whether the rank, if there is one, is no greater.
fn is_at_most(rank: Option<u32>, most: Option<u32>) -> bool
    ensures { result ≡ true → IsAtMost rank most }
{
    match (rank, most) {
        (None, _) => true,
        (Some(rank), Some(most)) => rank <= most,
        (Some(_), None) => false,
    }
}
