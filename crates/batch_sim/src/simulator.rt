//! The units of a cell.
ghost use Rattle.std.specs.Prelude.{◌≡◌};
ghost use Rattle.batch_sim.specs.Units.{TakesOrder, Ticks};

use crate::driver::UnitDriver;
use crate::order::Order;
use batch_matrix::Report;
use std::marker::Model;

/// The units of a cell. A contract sees them as the list of their drivers, in the order of the units' numbers.
#[derive(Drop)]
pub struct Simulator<D: Drop> {
    drivers: Vec<D>,
}

impl<D: Drop> Model for Simulator<D> {
    ghost use Rattle.std.specs.Prelude.{List};

    ghost Value = { List D };

    ghost view = { λ s. s.drivers.items };
}

impl<D: UnitDriver> Simulator<D> {
    /// The units that these drivers drive, numbered in this order. It owns the drivers.
    // claim: units of a simulator
    pub fn new(drivers: Vec<D>) -> Simulator<D>
        ensures { result ≡ drivers.items }
    {
        Simulator { drivers }
    }

    /// Gives an order to a phase of a unit. False, and nothing done, if no unit has the number.
    // claim: order to a unit
    pub fn order(&mut self, unit: u16, phase: u16, order: Order) -> bool
        ensures { TakesOrder D.command_gives unit phase order self.old result self.new }
    {
        let Some(driver) = self.drivers.get_mut(usize::from(unit)) else {
            return false;
        };
        driver.command(phase, order);
        true
    }

    /// One tick passes at a unit, and its driver may report. None, and nothing done, if no unit has the number.
    // claim: tick of a unit
    pub fn tick(&mut self, unit: u16) -> Option<(u16, Report)>
        ensures { Ticks D.tick_gives unit self.old result self.new }
    {
        self.drivers.get_mut(usize::from(unit))?.tick()
    }
}
