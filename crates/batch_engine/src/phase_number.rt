//! Numbers of the phases that acts run.
ghost use Rattle.std.specs.Prelude.{◌≡◌};
ghost use Rattle.batch_engine.specs.Numbered.{phase_by};

use batch_recipe::{Entry, Kind, LabelTable};
use batch_set::{CellPhases, LinkedRecipe};

/// A phase, by its number among those that its unit offers.
#[derive(Clone, Copy)]
pub struct PhaseNumber {
    pub unit: u16,
    pub phase: u16,
}

/// The phase of an act that runs none: no unit has this number.
pub const NO_PHASE: PhaseNumber = PhaseNumber {
    unit: u16::MAX,
    phase: u16::MAX,
};

/// The phase that the act at this entry of the recipe runs, if these units take the roles.
#[inline(always)]
pub fn phase_by(
    linked: &LinkedRecipe,
    phases: &CellPhases,
    entry: &Entry,
    units: &[u16],
) -> Option<PhaseNumber>
    ensures { result ≡ phase_by linked.now phases.now units.now entry.now.detail entry.now.kind }
{
    match entry.kind {
        Kind::Act(LabelTable::Phases, step) => {
            let unit = linked.unit(entry.detail).for_units(units)?;
            let phase = linked.phase_on(phases, step, unit)?;
            Some(PhaseNumber { unit, phase })
        }
        _ => None,
    }
}
