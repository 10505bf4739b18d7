//! Which of two broken rules is checked first.
ghost use Rattle.std.specs.Prelude.{◌≡◌};
ghost use Rattle.batch_verify.specs.Comparing.{earlier_of, is_before};
ghost use Rattle.batch_verify.specs.Refusals.{rule_number};

use crate::rule::{Broken, Rule};

/// The one of two that is checked first, the former if both are the same.
pub(crate) fn earlier(one: Option<Broken>, other: Option<Broken>) -> Option<Broken>
    ensures { result ≡ earlier_of one other }
{
    match (one, other) {
        (None, _) => other,
        (_, None) => one,
        (Some(first), Some(second)) => { if is_before(second, first) { other } else { one } }
    }
}

/// Whether the one is checked before the other.
fn is_before(one: Broken, other: Broken) -> bool
    ensures { result ≡ is_before one other }
{
    one.node < other.node || (one.node == other.node && order(one.rule) < order(other.rule))
}

/// The number of the rule in the order in which the rules are checked.
fn order(rule: Rule) -> u8
    ensures { result ≡ rule_number rule }
{
    match rule {
        Rule::UnknownResource => 0,
        Rule::ShareAboveCapacity => 1,
        Rule::PhaseNotOffered => 2,
        Rule::SamePhaseInParallel => 3,
        Rule::LoopWithoutPhase => 4,
        Rule::ReserveDoesNotFollow => 5,
        Rule::RankNotRising => 6,
    }
}
