//! Handling a report of a unit.
ghost use Rattle.std.specs.Prelude.{◌≡◌};
ghost use Rattle.batch_plant.specs.Drive.{Standing};
ghost use Rattle.batch_plant.specs.Handling.{WritesOrders, WritesReported};
ghost use Rattle.batch_engine.specs.Led.{IsLed};
ghost use Rattle.batch_engine.specs.Surface.{event_of};
ghost use Rattle.batch_engine.specs.View.{plant_of};

use crate::ordering::give_order;
use batch_engine::{Engine, Event, Out};
use batch_sim::{Simulator, UnitDriver};
use batch_wire::{WriteFault, write_out};
use std::io::Write;

/// Gives the report to the machine, writes the reply and each move, and gives the units the orders of the moves.
pub(crate) fn handle<D: UnitDriver, W: Write>(
    engine: &mut Engine,
    units: &mut Simulator<D>,
    report: &Event,
    writer: &mut W,
) -> Result<(), WriteFault>
    ensures cleared { engine.new.cleared ≡ engine.old.cleared }
    ensures reported { WritesReported D.command_gives D.tick_gives engine.old.cleared (event_of report.now)
        (record { plant = plant_of engine.old; units = units.old }) result (record { plant = plant_of engine.new; units = units.new })
        (W.contents writer.old) (W.contents writer.new) }
{
    let reply = engine.accept(report);
    write_out(&Out::Reply(reply), engine.cleared(), writer)?;
    make_moves(engine, units, writer)
}

/// Makes moves until there is none, writes each, and gives the units their orders.
fn make_moves<D: UnitDriver, W: Write>(
    engine: &mut Engine,
    units: &mut Simulator<D>,
    writer: &mut W,
) -> Result<(), WriteFault>
    requires { IsLed engine.old }
    ensures cleared { engine.new.cleared ≡ engine.old.cleared }
    ensures moves { WritesOrders D.command_gives D.tick_gives engine.old.cleared
        (record { plant = plant_of engine.old; units = units.old }) result (record { plant = plant_of engine.new; units = units.new })
        (W.contents writer.old) (W.contents writer.new) }
{
    while let Some(line) = engine.next_move() {
        write_out(&Out::Move(line), engine.cleared(), writer)?;
        give_order(units, Out::Move(line));
    }
    Ok(())
}
