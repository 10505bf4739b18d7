//! Reports of units, as events.
ghost use Rattle.std.specs.Prelude.{◌≡◌, IfOk, IsSome, OnErr, option_copied, option_map};
ghost use Rattle.batch_engine.specs.Surface.{event_of};
ghost use Rattle.batch_plant.specs.Links.{report_named};

use batch_engine::{Event, PhaseReport};
use batch_matrix::Report;
use batch_text::{Name, TextFault};
use std::alloc::Global;

/// The event of a unit's answer. None if the unit doesn't have the phase; an error only for want of memory.
pub(crate) fn report_event(
    alloc: Global,
    unit: &Name,
    phase: Option<&Name>,
    word: Report,
) -> Result<Option<Event>, TextFault>
    ensures event { IfOk result (λ event. option_map event_of event ≡ report_named unit.now (option_copied phase.entry) word) }
    ensures lost { OnErr result (IsSome (report_named unit.now (option_copied phase.entry) word)) }
{
    let Some(phase) = phase else {
        return Ok(None);
    };
    let report = PhaseReport {
        unit: unit.copy(alloc)?,
        phase: phase.copy(alloc)?,
        word,
        outputs: Vec::new(alloc),
    };
    Ok(Some(Event::Report(report)))
}
