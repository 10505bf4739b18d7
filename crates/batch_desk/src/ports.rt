//! Calls of each port of a hub.
ghost use Rattle.std.specs.Prelude.{◌≡◌, map, OnOk, IfErr};
ghost use Rattle.batch_desk.specs.PortSteps.{AllHaveRoom, owe_line, without_room};
ghost use Rattle.batch_desk.specs.declared.fault.HubFault.TheVariants.{Memory};

use crate::fault::HubFault;
use crate::port::Port;
use batch_engine::Line;

/// Reserves a place for one more out in each open port.
pub(crate) fn reserve_each(ports: &mut Vec<Port>) -> Result<(), HubFault>
    ensures same { map without_room ports.new.items ≡ map without_room ports.old.items }
    ensures room { OnOk result (AllHaveRoom ports.new.items) }
    ensures fault { IfErr result (λ fault. fault ≡ Memory) }
{
    for index in 0..ports.len() {
        let port = &mut ports[index];
        port.reserve()?;
    }
    Ok(())
}

/// Appends a move to the queue of each open port that has it in its scope.
pub(crate) fn queue_for_each(ports: &mut Vec<Port>, line: Line)
    requires { AllHaveRoom ports.old.items }
    ensures { ports.new.items ≡ map (owe_line line) ports.old.items }
{
    for index in 0..ports.len() {
        let port = &mut ports[index];
        port.queue_move(line);
    }
}
