//! Driving the units of a cell.
ghost use Rattle.std.specs.Prelude.{◌≡◌, ◌<◌, [], ◌∷◌, length, IsErrOf};
ghost use Rattle.std.specs.Io.KnownBytes.{Keeps};
ghost use Rattle.std.specs.List.{range_with_len};
ghost use Rattle.batch_cell.specs.LookUps.{units_of};
ghost use Rattle.batch_plant.specs.Drive.{Standing, in_rounds};
ghost use Rattle.batch_plant.specs.Handling.{DrivesSome};
ghost use Rattle.batch_plant.specs.Written.{IsDriven};
ghost use Rattle.batch_engine.specs.View.{plant_of};
ghost use Rattle.batch_serve.specs.Settled.{IsSettledEngine};

use crate::drive_fault::DriveFault;
use crate::handling::handle;
use crate::reporting::report_event;
use batch_engine::Engine;
use batch_safety::cleared_runs_safely;
use batch_sim::{Simulator, UnitDriver};
use batch_wire::WriteFault;
use std::alloc::Global;
use std::io::Write;

/// Drives the units of the engine's cell for so many rounds.
///
/// In a round one tick passes at each unit, in the order of their numbers. The machine handles its report, the reply and each
/// move are written, and the units get the orders of the moves. An answer for a phase that the unit doesn't have is dropped.
/// The caller gives the orders of moves that were made before. The writer is flushed at the end of each round. Memory is asked
/// for the names in a report alone. If there is none, that report is lost and driving stops; another call can go on. After a
/// write fault the machine may be ahead of the written text.
// claim: settled by driving (cleared, settled)
pub fn drive<D: UnitDriver, W: Write>(
    alloc: Global,
    engine: &mut Engine,
    units: &mut Simulator<D>,
    writer: &mut W,
    rounds: u64,
) -> Result<(), DriveFault>
    ensures cleared { engine.new.cleared ≡ engine.old.cleared }
    // claim: driven; driven record; lost report; driving cut off
    ensures driven { IsDriven D.command_gives D.tick_gives engine.old.cleared (in_rounds (length (units_of engine.old.cleared.cell)) rounds)
        (record { plant = plant_of engine.old; units = units.old }) result (record { plant = plant_of engine.new; units = units.new })
        (W.contents writer.old) (W.contents writer.new) }
    ensures settled { (IsErrOf result DriveFault.Write → ⊥) → IsSettledEngine engine.old → IsSettledEngine engine.new }
{
    cleared_runs_safely(engine.cleared());
    for _ in 0..rounds {
        round(alloc, engine, units, writer)?;
    }
    Ok(())
}

/// One tick passes at each unit, and then the writer is flushed.
fn round<D: UnitDriver, W: Write>(
    alloc: Global,
    engine: &mut Engine,
    units: &mut Simulator<D>,
    writer: &mut W,
) -> Result<(), DriveFault>
    ensures cleared { engine.new.cleared ≡ engine.old.cleared }
    ensures driven { DrivesSome D.command_gives D.tick_gives engine.old.cleared (range_with_len 0 (length (units_of engine.old.cleared.cell)))
        (record { plant = plant_of engine.old; units = units.old }) result (record { plant = plant_of engine.new; units = units.new })
        (W.contents writer.old) (W.contents writer.new) }
{
    let count = engine.cleared().cell().units();
    for unit in 0..count {
        tick(alloc, engine, units, unit, writer)?;
    }
    Ok(flush(writer)?)
}

/// One tick passes at a unit, and its report is handled.
fn tick<D: UnitDriver, W: Write>(
    alloc: Global,
    engine: &mut Engine,
    units: &mut Simulator<D>,
    unit: u16,
    writer: &mut W,
) -> Result<(), DriveFault>
    requires { unit < length (units_of engine.old.cleared.cell) }
    ensures cleared { engine.new.cleared ≡ engine.old.cleared }
    ensures driven { DrivesSome D.command_gives D.tick_gives engine.old.cleared (unit ∷ [])
        (record { plant = plant_of engine.old; units = units.old }) result (record { plant = plant_of engine.new; units = units.new })
        (W.contents writer.old) (W.contents writer.new) }
{
    let Some((phase, word)) = units.tick(unit) else {
        return Ok(());
    };
    let cell = engine.cleared().cell();
    let phase = cell.phase_name(unit, phase);
    let Ok(event) = report_event(alloc, cell.name_of(unit), phase, word) else {
        return Err(DriveFault::Memory);
    };
    match event {
        Some(report) => Ok(handle(engine, units, &report, writer)?),
        None => Ok(()),
    }
}

/// Flushes the writer.
fn flush<W: Write>(writer: &mut W) -> Result<(), WriteFault>
    ensures { Keeps (W.contents writer.old) (W.contents writer.new) }
{
    match writer.flush() {
        Ok(()) => Ok(()),
        Err(_) => Err(WriteFault),
    }
}
