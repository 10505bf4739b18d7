//! The machine is safe: laws of the records of cleared sets of recipes, over the definitions of batch_model.
//!
//! Nothing runs here. The functions are empty: their contracts are the laws.
#![tactic(auto)]

ghost use Rattle.batch_safety.specs.Headline.{CanOnlyBeSafe};
ghost use Rattle.batch_safety.specs.Sets.{ClearedSetsRunSafely, RunsSafely};
ghost use Rattle.batch_safety.specs.Settlement.{NobodyWaitsInVain};
ghost use Rattle.batch_safety.specs.Units.{UnitsAreKept};

pub use batch_record_laws::{
    candidates_suffice, records_tell_the_plant, sets_are_documents, trees_have_units, ways_rise,
};
use batch_verify::Cleared;

/// Every record that a cleared set of recipes leads to is safe after each of its lines, whatever the events and however far
/// the moves that they make possible have been made.
// claim: capacity; idle start; unit stays held; no circle; nothing at rest
pub fn records_are_safe()
    ensures { CanOnlyBeSafe }
{}

/// If no move is possible, whoever waits waits for something:
///
/// - each resource that is asked for has less free than its oldest ask wants, and somebody holds it;
/// - no chain has more waiting steps than the cell has resources;
/// - if a chain can't be continued, its last holder is at work.
// claim: too few free; somebody holds; short chains; chains end at work
pub fn nobody_waits_in_vain()
    ensures { NobodyWaitsInVain }
{}

/// A unit that was passed on to a unit procedure is held there until this begins. A unit that a step reserves is held by the batch
/// from that step's begin on until the unit procedure begins for which it is reserved, unless the batch is stopped or aborted.
// claim: reserved units stay
pub fn units_are_kept()
    ensures { UnitsAreKept }
{}

/// Recipes that clearance accepts for a cell run safely in it.
// claim: accepted sets
pub fn cleared_sets_run_safely()
    ensures { ClearedSetsRunSafely }
{}

/// Recipes that `verify` cleared run safely in their cell: whoever holds a [`Cleared`] may cite this of it.
// claim: every `Cleared`
pub fn cleared_runs_safely(cleared: &Cleared)
    ensures { RunsSafely cleared.now.cell cleared.now.recipes }
{
    let _recipes = cleared.recipes();
}
