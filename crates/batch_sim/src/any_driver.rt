//! A driver of any kind.
ghost use Rattle.std.specs.Prelude.{◌≡◌};

use crate::driver::UnitDriver;
use crate::order::Order;
use batch_matrix::Report;

/// A driver of any kind, in a box: so the units of one cell may be driven in different ways. An order and a tick have the effect
/// that they have on the driver in the box.
#[derive(Drop)]
pub struct AnyDriver {
    pub driver: Box<dyn UnitDriver + Send>,
}

impl AnyDriver {
    /// The driver in this box.
    // claim: driver in a box
    pub fn new(driver: Box<dyn UnitDriver + Send>) -> AnyDriver
        ensures { result.driver ≡ driver }
    {
        AnyDriver { driver }
    }
}

impl UnitDriver for AnyDriver {
    ghost use Rattle.batch_sim.specs.AnyDriver.{HoldsNext};

    ghost command_gives = { λ old phase order new. HoldsNext old.driver ((UnitDriver-box old.driver).command_gives old.driver.value phase order) new.driver };

    ghost tick_gives = { λ old answer new. HoldsNext old.driver ((UnitDriver-box old.driver).tick_gives old.driver.value answer) new.driver };

    // claim: driver in a box
    fn command(&mut self, phase: u16, order: Order) {
        self.driver.command(phase, order);
    }

    // claim: driver in a box
    fn tick(&mut self) -> Option<(u16, Report)> {
        self.driver.tick()
    }
}
