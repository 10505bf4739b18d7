//! A unit that works steadily.
ghost use Rattle.std.specs.Prelude.{◌≡◌, ◌<◌, ◌^◌, length, map, position, replicate, IfOk};
ghost use Rattle.batch_sim.specs.SteadyUnit.{Reports, is_report_due, after_tick, unstarted};

use crate::driver::UnitDriver;
use crate::order::Order;
use crate::steady_phase::{SteadyPhase, word_of};
use batch_matrix::Report;
use std::alloc::{AllocError, Global};
use std::marker::Model;

/// A unit whose phases each run for the same number of ticks and are then done, and which answers each command at a tick
/// after it. A phase that is paused or held keeps the ticks that it has to run.
///
/// One phase reports in a tick, the first of those that have something to report.
#[derive(Drop)]
pub struct SteadyUnit {
    phases: Vec<SteadyPhase>,
    ticks: u64,
}

impl Model for SteadyUnit {
    ghost use Rattle.std.specs.Prelude.{◌<◌, ◌^◌, length};
    ghost use Rattle.batch_sim.specs.SteadyUnit.{SteadyView};

    ghost Value = { SteadyView };

    ghost view = { λ unit. record { phases = unit.phases.items; ticks = unit.ticks } };

    ghost invariant = { λ unit. length unit.phases.items < 2 ^ 16 };
}

impl SteadyUnit {
    /// A unit with so many phases, none of them started, each of which will run for `ticks` ticks.
    // claim: new steady unit
    pub fn new(alloc: Global, phases: u16, ticks: u64) -> Result<SteadyUnit, AllocError>
        ensures { IfOk result (λ unit. unit ≡ record { phases = replicate phases unstarted; ticks = ticks }) }
    {
        let phases = vec![in alloc; SteadyPhase::unstarted(); usize::from(phases)]?;
        Ok(SteadyUnit { phases, ticks })
    }
}

impl UnitDriver for SteadyUnit {
    ghost use Rattle.batch_sim.specs.SteadyUnit.{Commands, TicksSteadily};

    ghost command_gives = { Commands };

    ghost tick_gives = { TicksSteadily };

    // claim: steady orders
    fn command(&mut self, phase: u16, order: Order) {
        if let Some(phase) = self.phases.get_mut(usize::from(phase)) {
            phase.apply_order(order, self.ticks);
        }
    }

    // claim: steady ticks
    fn tick(&mut self) -> Option<(u16, Report)> {
        tick(&mut self.phases)
    }
}

/// One tick passes for each phase, and one may report.
fn tick(phases: &mut [SteadyPhase]) -> Option<(u16, Report)>
    requires { length phases.old < 2 ^ 16 }
    ensures { Reports (map after_tick phases.old) result phases.new }
{
    count_down_each(phases);
    report(phases)
}

/// One tick passes for each phase.
fn count_down_each(phases: &mut [SteadyPhase])
    ensures { phases.new ≡ map after_tick phases.old }
{
    for phase in phases.iter_mut() {
        phase.count_down();
    }
}

/// The number of the first phase that ends now.
fn first_due(phases: &[SteadyPhase]) -> Option<usize>
    ensures { result ≡ position is_report_due phases.now }
{
    phases.iter().position(|phase| phase.end().is_some())
}

/// The first phase that ends now does so, and reports it.
fn report(phases: &mut [SteadyPhase]) -> Option<(u16, Report)>
    requires { length phases.old < 2 ^ 16 }
    ensures { Reports phases.old result phases.new }
{
    let number = first_due(phases)?;
    let phase = &mut phases[number];
    let end = phase.end()?;
    phase.state = end;
    Some((number as u16, word_of(end)))
}
