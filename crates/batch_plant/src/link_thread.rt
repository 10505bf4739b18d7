//! The thread of the link.
ghost use Rattle.std.specs.Prelude.{◌≡◌, Err, IfOk, IfSome, IsNone, IsSomeAnd};
ghost use Rattle.batch_plant.specs.Parts.{LinkRan};
ghost use Rattle.batch_plant.specs.declared.plant_fault.PlantFault.TheVariants.{Thread};

use crate::cell_units::CellUnits;
use crate::ending::ended;
use crate::flag::FlagGate;
use crate::linking::link_loop;
use crate::plant_fault::PlantFault;
use batch_desk::{Gate, LoopEnd, PortDesk};
use batch_sim::{Simulator, UnitDriver};
use std::alloc::Global;
use std::snapshot::Snapshot;
use std::thread;
use std::thread::{Promise, PromisedHandle, Threads};

/// The promise of the link's thread, on the desk that it returns.
#[derive(Drop)]
pub(crate) struct LinkPromise<D: Drop> {
    desk: Snapshot<PortDesk>,
    cell: Snapshot<CellUnits>,
    units: Snapshot<Simulator<D>>,
}

impl<D: UnitDriver> Promise<(PortDesk, LoopEnd)> for LinkPromise<D> {
    ghost use Rattle.batch_plant.specs.Parts.{LinkRan};

    ghost kept_by = { λ p r. LinkRan D.command_gives D.tick_gives p.cell.value p.units.value p.desk.value r.0 };
}

pub(crate) type LinkHandle<D> = PromisedHandle<(PortDesk, LoopEnd), LinkPromise<D>>;

/// Runs the link to its end.
fn run<D: UnitDriver, G: Gate + Drop>(
    alloc: Global,
    desk: PortDesk,
    units: Simulator<D>,
    cell: CellUnits,
    batches: u64,
    gate: FlagGate<G>,
    limit: u64,
) -> (PortDesk, LoopEnd)
    ensures { LinkRan D.command_gives D.tick_gives cell units desk result.0 }
{
    let mut desk = desk;
    let mut units = units;
    let mut gate = gate;
    let end = link_loop(
        alloc, &mut desk, &mut units, &cell, batches, &mut gate, limit,
    );
    gate.shut_unless_done(end);
    (desk, end)
}

/// Starts the thread of the link. None where it can't be started.
pub(crate) fn start_link<
    R: Threads,
    D: UnitDriver + Send + 'static,
    G: Gate + Send + Drop + 'static,
>(
    rt: &R,
    alloc: Global,
    desk: PortDesk,
    units: Simulator<D>,
    cell: CellUnits,
    batches: u64,
    gate: FlagGate<G>,
    limit: u64,
) -> Option<LinkHandle<D>>
    ensures { IfSome result (λ child. (child.promise.desk.value ≡ desk) × (child.promise.cell.value ≡ cell) × (child.promise.units.value ≡ units)) }
{
    let promise = LinkPromise {
        desk: Snapshot::of(&desk),
        cell: Snapshot::of(&cell),
        units: Snapshot::of(&units),
    };
    thread::spawn_with(rt, promise, move || {
        run(alloc, desk, units, cell, batches, gate, limit)
    })
    .ok()
}

/// Waits for the thread of the link, if it was started.
pub(crate) fn join_link<R: Threads, D: UnitDriver>(
    rt: &R,
    child: Option<LinkHandle<D>>,
) -> Result<PortDesk, PlantFault>
    ensures unstarted { IsNone child → result ≡ Err Thread }
    ensures ran { IfOk result (λ desk. IsSomeAnd child (λ c. LinkRan D.command_gives D.tick_gives c.promise.cell.value c.promise.units.value c.promise.desk.value desk)) }
{
    let Some(child) = child else {
        return Err(PlantFault::Thread);
    };
    let (desk, end) = child.join(rt);
    ended(desk, end)
}
