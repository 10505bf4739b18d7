//! Steady units for a cell.
ghost use Rattle.std.specs.Prelude.{◌≡◌, ◌<◌, IfOk, length, min};
ghost use Rattle.std.specs.List.{All};
ghost use Rattle.batch_cell.specs.LookUps.{phases_of, units_of};

use batch_cell::Cell;
use batch_sim::SteadyUnit;
use std::alloc::{AllocError, Global};

/// A steady unit for each unit of the cell, whose phases run for so many ticks.
pub(crate) fn steady_units(
    alloc: Global,
    cell: &Cell,
    ticks: u64,
) -> Result<Vec<SteadyUnit>, AllocError>
    ensures count { IfOk result (λ units. length units.items ≡ length (units_of cell.now)) }
    ensures ticks { IfOk result (λ units. All (λ unit. unit.ticks ≡ ticks) units.items) }
{
    let mut units = Vec::new(alloc);
    for unit in 0..cell.units() {
        units.push(SteadyUnit::new(alloc, phase_count(cell, unit), ticks)?)?;
    }
    Ok(units)
}

/// How many phases the unit offers, 65,535 at most.
#[tactic(auto, using(std::proofs::lemmas::Option::slice_get_cases))]
fn phase_count(cell: &Cell, unit: u16) -> u16
    requires { unit < length (units_of cell.now) }
    ensures { result ≡ min 65535 (length (phases_of cell.now unit)) }
{
    for number in 0..u16::MAX {
        match cell.phase_name(unit, number) {
            Some(_) => (),
            None => return number,
        }
    }
    u16::MAX
}
