//! The check of recipes.
ghost use Rattle.std.specs.Prelude.{◌≡◌, ◌≢◌, ◌≤◌, map, length, OnOk, IfOk, IfErr};
ghost use Rattle.batch_cell.specs.LookUps.{resources_of};
ghost use Rattle.batch_model.specs.Lists.{Each};
ghost use Rattle.batch_model.specs.Cleared.{CanBeCleared, IsCleared};
ghost use Rattle.batch_model.specs.Setups.{master_of, setup_of};
ghost use Rattle.batch_model.specs.declared.limits.TheConstants.{MAX_RECIPES};
ghost use Rattle.batch_set.specs.Linking.{IsLinkedSet};
ghost use Rattle.batch_verify.specs.CertificateText.{AreInOrderOfName};
ghost use Rattle.batch_verify.specs.Ranked.{rank_of, RanksAll};
ghost use Rattle.batch_check.specs.Checking.{IsFault, IsSoundMaster};
ghost use Rattle.batch_check.specs.Clearing.{IsLeastClearance};
ghost use Rattle.batch_check.specs.Finding.{AreLeastRanks, IsCircleFault, IsRecipeFault};
ghost use Rattle.batch_check.specs.TightRanks.{RanksTightly};

use crate::edges::{add_pairs, edges_of};
use crate::fault::CheckFault;
use crate::naming::ranks_by_name;
use crate::ranking::{Ranking, least_ranks};
use crate::shortest::shortest_circle;
use crate::turning::turned;
use batch_cell::Cell;
use batch_recipe::Recipe;
use batch_set::LinkedSet;
use batch_verify::{Certificate, first_broken, is_recipe_set};
use std::alloc::Global;

/// The least ranking that clears the recipes for the cell, in order of name, or why there is none.
pub fn check(alloc: Global, cell: &Cell, recipes: &[Recipe]) -> Result<Certificate, CheckFault>
    // So `verify` accepts the certificate.
    // claim: found ranks are whole
    ensures ranked { IfOk result (λ certificate. RanksAll (resources_of cell.now) certificate.ranks.items) }
    // claim: found ranks clear
    ensures cleared { IfOk result
        (λ certificate. IsCleared (setup_of cell.now recipes.now) (rank_of certificate.ranks.items)) }
    // claim: least ranks
    ensures least { IfOk result (λ certificate. IsLeastClearance cell.now recipes.now (rank_of certificate.ranks.items)) }
    // A resource's rank is one more than the greatest among those asked for before it on some path, and 1 where there are none.
    // claim: tight ranks
    ensures tight { IfOk result (λ certificate. RanksTightly cell.now recipes.now (rank_of certificate.ranks.items)) }
    // claim: found in order
    ensures in_order { IfOk result (λ certificate. AreInOrderOfName certificate.ranks.items) }

    // claim: first fault; circle stands; circle closes; circle begins; circle is short
    ensures first { IfErr result (IsFault cell.now recipes.now) }
    // For a caller: but for memory, no ranking clears the recipes.
    // claim: no clearance
    ensures none { IfErr result (λ fault. fault ≢ CheckFault.Memory → ¬ (CanBeCleared (setup_of cell.now recipes.now))) }
{
    if !is_recipe_set(recipes) {
        return Err(CheckFault::Recipes);
    }
    let linked = LinkedSet::new(alloc, cell, recipes)?;
    check_each(alloc, cell, recipes, &linked)?;
    let ranks = ranks_of(alloc, cell, recipes, &linked)?;
    let ranks = ranks_by_name(alloc, cell, &ranks)?;
    Ok(Certificate { ranks })
}

/// Checks the recipes one after another by the rules that don't speak of ranks. `linked` has the numbers of the recipes' needs.
fn check_each(
    alloc: Global,
    cell: &Cell,
    recipes: &[Recipe],
    linked: &LinkedSet,
) -> Result<(), CheckFault>
    requires few { length recipes.now ≤ MAX_RECIPES }
    requires linked { IsLinkedSet cell.now recipes.now linked.now }
    ensures sound { OnOk result
        (Each (IsSoundMaster (setup_of cell.now recipes.now)) (map (master_of cell.now) recipes.now)) }
    ensures fault { IfErr result (IsRecipeFault (setup_of cell.now recipes.now)) }
{
    for (number, recipe) in recipes.iter().enumerate() {
        let own = &linked.recipes[number];
        match first_broken(alloc, cell, recipe, None, own)? {
            None => {}
            Some(broken) => {
                let recipe = number as u16;
                return Err(CheckFault::Recipe { recipe, broken });
            }
        }
    }
    Ok(())
}

/// The least ranks that rise along all paths of the recipes, by number, or a circle with the fewest edges. `linked` has the numbers of
/// the recipes' needs.
fn ranks_of(
    alloc: Global,
    cell: &Cell,
    recipes: &[Recipe],
    linked: &LinkedSet,
) -> Result<Vec<u32>, CheckFault>
    requires few { length recipes.now ≤ MAX_RECIPES }
    requires linked { IsLinkedSet cell.now recipes.now linked.now }
    ensures least { IfOk result (λ ranks. AreLeastRanks cell.now recipes.now ranks.items) }
    ensures fault { IfErr result (IsCircleFault cell.now recipes.now) }
{
    let mut set = edges_of(alloc, cell, recipes, linked)?;
    match least_ranks(alloc, cell.resources(), &set.edges)? {
        Ranking::Ranks(ranks) => Ok(ranks),
        Ranking::Circle(circle) => {
            add_pairs(alloc, cell, recipes, linked, &mut set)?;
            let shortest = shortest_circle(alloc, cell.resources(), &set.edges, circle)?;
            Err(CheckFault::Circle(turned(cell, shortest)))
        }
    }
}
