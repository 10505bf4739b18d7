//! Running the hub of a plant.
ghost use Rattle.std.specs.Prelude.{◌≡◌, false, Err, IfOk};
ghost use Rattle.batch_plant.specs.Parts.{HubRan};
ghost use Rattle.batch_plant.specs.declared.plant_fault.PlantFault.TheVariants.{Thread};

use crate::ending::ended;
use crate::flag::FlagGate;
use crate::plant_fault::PlantFault;
use batch_desk::{Gate, Hub, hub_loop};

/// Runs the hub to its end, in the thread that calls. If not all threads were started, it doesn't run the hub, and raises the flag
/// for the others.
// claim: fault of a plant
pub(crate) fn run_hub<G: Gate + Drop>(
    started: bool,
    hub: Hub,
    batches: u64,
    gate: FlagGate<G>,
    limit: u64,
) -> Result<Hub, PlantFault>
    ensures ran { IfOk result (λ ran. HubRan batches hub ran) }
    ensures unstarted { started ≡ false → result ≡ Err Thread }
{
    if !started {
        gate.shut();
        return Err(PlantFault::Thread);
    }
    let mut hub = hub;
    let mut gate = gate;
    let end = hub_loop(&mut hub, batches, &mut gate, limit);
    gate.shut_unless_done(end);
    ended(hub, end)
}
