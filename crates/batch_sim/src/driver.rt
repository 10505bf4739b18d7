//! Drivers of units.
use crate::order::Order;
use batch_matrix::Report;

/// A driver of the phases of one unit, which are numbered from 0 in the order in which the cell declares them.
///
/// It may be given any order at any time, and may report anything: no promise of batches rests on it.
pub trait UnitDriver: Drop {
    ghost use Rattle.std.specs.Prelude.{ℕ, Option};
    ghost use Rattle.batch_matrix.specs.declared.report.Report.{Report};
    ghost use Rattle.batch_sim.specs.declared.order.Order.{Order};

    /// The drivers that this may become by an order to a phase.
    ghost command_gives: { Self → ℕ → Order → Self → Type 0 };

    /// The answers that a tick may give, and the drivers that this may become by it.
    ghost tick_gives: { Self → Option (ℕ × Report) → Self → Type 0 };

    /// Gives an order to a phase.
    fn command(&mut self, phase: u16, order: Order)
        ensures { command_gives self.old phase order self.new };

    /// One tick passes. At most one phase reports, by its number.
    fn tick(&mut self) -> Option<(u16, Report)>
        ensures { tick_gives self.old result self.new };
}
