//! The thread of the console.
ghost use Rattle.std.specs.Prelude.{◌≡◌, Err, IfOk, IfSome, IsNone, IsSomeAnd};
ghost use Rattle.batch_desk.specs.Consoles.{IsConsole};
ghost use Rattle.batch_plant.specs.declared.plant_fault.PlantFault.TheVariants.{Thread};

use crate::ending::ended;
use crate::flag::FlagGate;
use crate::plant_fault::PlantFault;
use crate::plant_task::PlantTask;
use batch_desk::{Gate, LoopEnd, PortDesk, console_loop};
use std::alloc::Global;
use std::snapshot::Snapshot;
use std::thread;
use std::thread::{Promise, PromisedHandle, Threads};

/// The promise of the console's thread, on the desk that it returns.
#[derive(Drop)]
pub(crate) struct ConsolePromise {
    desk: Snapshot<PortDesk>,
    task: Snapshot<PlantTask>,
}

impl Promise<(PortDesk, LoopEnd)> for ConsolePromise {
    ghost use Rattle.batch_desk.specs.Consoles.{IsConsole};

    ghost kept_by = { λ p r. IsConsole p.task.value.plan p.task.value.batches p.desk.value r.0 };
}

pub(crate) type ConsoleHandle = PromisedHandle<(PortDesk, LoopEnd), ConsolePromise>;

/// Runs the console to its end.
fn run<G: Gate + Drop>(
    alloc: Global,
    desk: PortDesk,
    task: PlantTask,
    gate: FlagGate<G>,
) -> (PortDesk, LoopEnd)
    ensures { IsConsole task.plan task.batches desk result.0 }
{
    let mut desk = desk;
    let mut gate = gate;
    let end = console_loop(
        alloc,
        &mut desk,
        &task.plan,
        task.batches,
        &mut gate,
        task.limit,
    );
    gate.shut_unless_done(end);
    (desk, end)
}

/// Starts the thread of the console. None where it can't be started.
pub(crate) fn start_console<R: Threads, G: Gate + Send + Drop + 'static>(
    rt: &R,
    alloc: Global,
    desk: PortDesk,
    task: PlantTask,
    gate: FlagGate<G>,
) -> Option<ConsoleHandle>
    ensures { IfSome result (λ child. (child.promise.desk.value ≡ desk) × (child.promise.task.value ≡ task)) }
{
    let promise = ConsolePromise {
        desk: Snapshot::of(&desk),
        task: Snapshot::of(&task),
    };
    thread::spawn_with(rt, promise, move || run(alloc, desk, task, gate)).ok()
}

/// Waits for the thread of the console, if it was started.
pub(crate) fn join_console<R: Threads>(
    rt: &R,
    child: Option<ConsoleHandle>,
) -> Result<PortDesk, PlantFault>
    ensures unstarted { IsNone child → result ≡ Err Thread }
    ensures ran { IfOk result (λ desk. IsSomeAnd child (λ c. IsConsole c.promise.task.value.plan c.promise.task.value.batches c.promise.desk.value desk)) }
{
    let Some(child) = child else {
        return Err(PlantFault::Thread);
    };
    let (desk, end) = child.join(rt);
    ended(desk, end)
}
