//! Running a plant.
ghost use Rattle.std.specs.Prelude.{◌≡◌, Ok, Some, IfOk, IfErr};
ghost use Rattle.batch_desk.specs.Consoles.{IsConsole};
ghost use Rattle.batch_desk.specs.Due.{events_of};
ghost use Rattle.batch_desk.specs.HubDone.{AreComplete};
ghost use Rattle.batch_desk.specs.HubState.{IsHub};
ghost use Rattle.batch_desk.specs.Turns.{SameWork};
ghost use Rattle.batch_plant.specs.Faults.{IsFirstOf};
ghost use Rattle.batch_plant.specs.Parts.{AreParts, HubRan, LinkRan};
ghost use Rattle.batch_plant.specs.Plants.{ComesFromDesks, HasEventRings, HasLink, HasRings, event_rings};

use crate::cell_units::CellUnits;
use crate::closing::close_port;
use crate::console_thread::{join_console, start_console};
use crate::faults::both;
use crate::hub_running::run_hub;
use crate::link_thread::{join_link, start_link};
use crate::opening::open;
use crate::parts::Parts;
use crate::plant_end::PlantEnd;
use crate::plant_fault::PlantFault;
use crate::plant_gates::{FlagGates, PlantGates};
use crate::plant_rests::PlantRests;
use crate::plant_task::PlantTask;
use batch_desk::{Gate, Hub};
use batch_sim::{Simulator, UnitDriver};
use batch_verify::Cleared;
use std::alloc::Global;
use std::thread::Threads;

/// Runs a plant until the batches of its task are complete: a hub in the thread that calls, with a console and an equipment link, each in
/// a thread of its own.
///
/// The console has port 0 and the link port 1, both with all moves in their scope. The link looks its units up in the set's cell.
/// All threads that were started are joined, also after a fault. Then both desks finish, their ports are closed and sealed, and
/// the outs that are still to be taken are counted. Of several faults the first is reported: want of memory, a thread that can't
/// be started, a create or a start that is refused, a loop whose turns run out. After a fault the running loops make no more
/// turns. A port that can't be closed is a fault too. The units are dropped in each case.
// claim: plant to its end (set, complete, account); events of a link (link, desks)
pub fn plant_run<
    R: Threads,
    D: UnitDriver + Send + 'static,
    H: Gate + Drop,
    C: Gate + Send + Drop + 'static,
    L: Gate + Send + Drop + 'static,
>(
    rt: &R,
    alloc: Global,
    cleared: Cleared,
    units: Simulator<D>,
    task: PlantTask,
    gates: PlantGates<H, C, L>,
) -> Result<PlantEnd, PlantFault>
    requires { HasRings task.ring }
    ensures set { IfOk result (λ end. end.hub.engine.cleared ≡ cleared) }
    ensures complete { IfOk result (λ end. AreComplete task.batches end.hub) }
    ensures account { IfOk result (λ end. IsHub end.hub) }
    ensures link { IfOk result (λ end. HasLink D.command_gives D.tick_gives cleared.cell units end.hub) }
    // claim: rings of a plant
    ensures rings { IfOk result (λ end. HasEventRings task.ring end.hub) }
    // claim: events of a console
    ensures desks { IfOk result (λ end. ComesFromDesks task.plan task.batches end.hub) }
{
    let Ok(gates) = gates.with_flag(alloc) else {
        return Err(PlantFault::Memory);
    };
    let Ok(cell) = CellUnits::of(alloc, cleared.cell()) else {
        return Err(PlantFault::Memory);
    };
    let parts = open(alloc, cleared, task.ring)?;
    let ran = run_three(rt, alloc, parts, cell, units, task, gates)?;
    let (hub, rests) = close(ran)?;
    Ok(PlantEnd { hub, rests })
}

/// Runs the three loops, that of the hub in the thread that calls, and waits for all that were started.
fn run_three<
    R: Threads,
    D: UnitDriver + Send + 'static,
    H: Gate + Drop,
    C: Gate + Send + Drop + 'static,
    L: Gate + Send + Drop + 'static,
>(
    rt: &R,
    alloc: Global,
    parts: Parts,
    cell: CellUnits,
    units: Simulator<D>,
    task: PlantTask,
    gates: FlagGates<H, C, L>,
) -> Result<Parts, PlantFault>
    ensures hub { IfOk result (λ ran. HubRan task.batches parts.hub ran.hub) }
    ensures console { IfOk result (λ ran. IsConsole task.plan task.batches parts.console ran.console) }
    ensures link { IfOk result (λ ran. LinkRan D.command_gives D.tick_gives cell units parts.link ran.link) }
{
    let Parts { hub, console, link } = parts;
    let (batches, limit) = (task.batches, task.limit);
    let first = start_console(rt, alloc, console, task, gates.console);
    let second = start_link(rt, alloc, link, units, cell, batches, gates.link, limit);
    let started = first.is_some() && second.is_some();
    let hub = run_hub(started, hub, batches, gates.hub, limit);
    let console = join_console(rt, first);
    let link = join_link(rt, second);
    let (hub, console, link) = gather(hub, console, link)?;
    Ok(Parts { hub, console, link })
}

/// All three results, or the first fault.
// claim: fault of a plant
fn gather<H: Drop, D: Drop>(
    hub: Result<H, PlantFault>,
    console: Result<D, PlantFault>,
    link: Result<D, PlantFault>,
) -> Result<(H, D, D), PlantFault>
    ensures hub { IfOk result (λ all. hub ≡ Ok all.0) }
    ensures console { IfOk result (λ all. console ≡ Ok all.1) }
    ensures link { IfOk result (λ all. link ≡ Ok all.2) }
    ensures first { IfErr result (λ fault. IsFirstOf fault hub console link) }
{
    match both(both(hub, console), link) {
        Ok(((hub, console), link)) => Ok((hub, console, link)),
        Err(fault) => Err(fault),
    }
}

/// Ends the desks, and closes their ports.
fn close(parts: Parts) -> Result<(Hub, PlantRests), PlantFault>
    requires { AreParts parts.hub parts.console parts.link }
    ensures work { IfOk result (λ end. SameWork parts.hub end.0) }
    ensures account { IfOk result (λ end. IsHub end.0) }
    ensures rings { IfOk result (λ end. event_rings end.0 ≡ event_rings parts.hub) }
    ensures console { IfOk result (λ end. events_of 0 end.0.history ≡ parts.console.sent) }
    ensures link { IfOk result (λ end. events_of 1 end.0.history ≡ parts.link.sent) }
{
    let Parts { hub, console, link } = parts;
    let mut hub = hub;
    let console = close_port(&mut hub, 0, console);
    let link = close_port(&mut hub, 1, link);
    keeps_account(&hub);
    let rests = rests_of(console, link)?;
    Ok((hub, rests))
}

/// The counts of the outs left at both ports, if both were closed.
fn rests_of(console: Option<usize>, link: Option<usize>) -> Result<PlantRests, PlantFault>
    ensures console { IfOk result (λ rests. console ≡ Some rests.console) }
    ensures link { IfOk result (λ rests. link ≡ Some rests.link) }
{
    match (console, link) {
        (Some(console), Some(link)) => Ok(PlantRests { console, link }),
        _ => Err(PlantFault::Unclosed),
    }
}

/// States the account that every hub keeps, and does nothing.
fn keeps_account(hub: &Hub)
    ensures { IsHub hub.now }
{
    let _ = hub.history();
}
