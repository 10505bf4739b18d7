//! Orders of the units.
ghost use Rattle.batch_plant.specs.Links.{TakeOut};

use batch_engine::{Line, Out};
use batch_sim::{Order, Simulator, UnitDriver};

/// Gives a unit the order of the out, if it gives one. One for a unit that isn't there is passed over.
pub(crate) fn give_order<D: UnitDriver>(units: &mut Simulator<D>, out: Out)
    ensures { TakeOut D.command_gives D.tick_gives out units.old units.new }
{
    match out {
        Out::Move(Line::Start { unit, phase, .. }) => {
            let _ = units.order(unit, phase, Order::Start);
        }
        Out::Move(
            Line::Send {
                unit,
                phase,
                command,
                ..
            },
        ) => {
            let _ = units.order(unit, phase, Order::Send(command));
        }
        _ => {}
    }
}
