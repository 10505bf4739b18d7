//! The bindings of roles that are tried one after another: those by number, and, for ranks, those in which one role is taken at its
//! highest rank and each other one at its lowest.
ghost use Rattle.std.specs.Prelude.{◌≡◌, option_copied, IfOk};
ghost use Rattle.batch_cell.specs.declared.cell.Cell as equipment;
ghost use Rattle.batch_set.specs.Linking.{IsLinkedIn};
ghost use Rattle.batch_verify.specs.Bindings.{candidate_of, numbered_binding, takers_of};
ghost use Rattle.batch_verify.specs.Spans.{ranks_or_none};
ghost use Rattle.batch_verify.specs.Trials.{better, bound_by, extreme, rank_at, roles_raised, taker_by};

use crate::rising::rank_by;
use batch_recipe::{Recipe, Role};
use batch_set::LinkedRecipe;
use batch_text::Name;
use std::alloc::{AllocError, Global};

/// A binding that is tried.
#[derive(Clone, Copy)]
pub(crate) enum Trial<'a> {
    /// The candidate with this number takes each role.
    Numbered(u16),
    /// The role with this name is taken at its highest one of these ranks, and each other role at its lowest.
    Raised(&'a Name, Option<&'a [u32]>),
    /// Each role is taken at its highest one of these ranks, or each at its lowest.
    Leveled(bool, Option<&'a [u32]>),
}

/// The candidate with this number, or the first one where they are fewer. None where there is no candidate.
fn candidate_of(candidates: &[u16], number: u16) -> Option<u16>
    ensures { result ≡ candidate_of candidates.now number }
{
    match candidates.get(usize::from(number)) {
        Some(unit) => Some(*unit),
        None => candidates.first().copied(),
    }
}

/// The one of these candidates that takes the role with this name. None where there is no candidate.
fn taker_by(candidates: &[u16], trial: Trial<'_>, role: &Name) -> Option<u16>
    ensures { result ≡ taker_by trial.entry role.now candidates.now }
{
    match trial {
        Trial::Numbered(number) => candidate_of(candidates, number),
        Trial::Raised(raised, ranks) => {
            extreme_of(candidates, ranks_or_none(ranks), *role == *raised)
        }
        Trial::Leveled(is_highest, ranks) => {
            extreme_of(candidates, ranks_or_none(ranks), is_highest)
        }
    }
}

/// The numbers of the units that take the recipe's roles, in their order.
pub(crate) fn takers_in(
    alloc: Global,
    recipe: &Recipe,
    linked: &LinkedRecipe,
    trial: Trial<'_>,
) -> Result<Vec<Option<u16>>, AllocError>
    ensures { IfOk result (λ takers. (cell : equipment.Cell) → IsLinkedIn cell recipe.now linked.now
        → takers.items ≡ takers_of cell (bound_by cell recipe.now.roles.items trial.entry) recipe.now.roles.items) }
{
    let mut takers = Vec::with_capacity(alloc, recipe.roles.len())?;
    for (number, role) in recipe.roles.iter().enumerate() {
        let candidates = linked.candidates_of(number);
        takers.push(taker_by(candidates, trial, &role.name))?;
    }
    Ok(takers)
}

/// The numbers of the units that take the recipe's roles in the binding with this number, in the order of the roles: of each role the
/// candidate with this number, or its first one where they are fewer. None where no unit may take the role.
///
/// `linked` is the recipe, linked in the cell. An error is want of memory.
// claim: numbered bindings
pub fn takers_numbered(
    alloc: Global,
    recipe: &Recipe,
    linked: &LinkedRecipe,
    number: u16,
) -> Result<Vec<Option<u16>>, AllocError>
    ensures { IfOk result (λ takers. (cell : equipment.Cell) → IsLinkedIn cell recipe.now linked.now
        → takers.items ≡ takers_of cell (numbered_binding cell recipe.now.roles.items number) recipe.now.roles.items) }
{
    takers_in(alloc, recipe, linked, Trial::Numbered(number))
}

/// The roles that are raised one after another. Without ranks there are none, nor where there is one role alone.
pub(crate) fn roles_raised<'a>(ranks: Option<&[u32]>, roles: &'a [Role]) -> &'a [Role]
    ensures { result.now ≡ roles_raised (option_copied ranks.entry) roles.now }
{
    match (ranks, roles) {
        (Some(_), [_, _, ..]) => roles,
        _ => &[],
    }
}

/// The ranks, if there are any. Each resource without one has rank 0.
fn ranks_or_none(ranks: Option<&[u32]>) -> &[u32]
    ensures { result.now ≡ ranks_or_none (option_copied ranks.entry) }
{
    match ranks {
        None => &[],
        Some(ranks) => ranks,
    }
}

/// The first candidate with the greatest rank, or with the least one.
fn extreme_of(candidates: &[u16], ranks: &[u32], is_greatest: bool) -> Option<u16>
    ensures { result ≡ extreme (rank_at ranks.now) is_greatest candidates.now }
{
    let mut best = None;
    for candidate in candidates {
        best = Some(better(ranks, is_greatest, best, *candidate));
    }
    best
}

/// The one of the two that has the greater rank, or the lesser one: of two with the same rank the former.
fn better(ranks: &[u32], is_greatest: bool, one: Option<u16>, other: u16) -> u16
    ensures { result ≡ better (rank_at ranks.now) is_greatest one other }
{
    let Some(one) = one else {
        return other;
    };
    let own = rank_by(ranks, Some(one));
    let rank = rank_by(ranks, Some(other));
    let is_better = if is_greatest { own < rank } else { rank < own };
    if is_better { other } else { one }
}
