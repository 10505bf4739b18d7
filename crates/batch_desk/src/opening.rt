//! Making a hub.
ghost use Rattle.std.specs.Prelude.{◌≡◌, ◌↔◌, [], IsTrue, IfOk, IfErr};
ghost use Rattle.batch_model.specs.Plant.{opening};
ghost use Rattle.batch_engine.specs.View.{plant_of};
ghost use Rattle.batch_desk.specs.DeskState.{IsNewDesk, desk_rings};
ghost use Rattle.batch_desk.specs.Plans.{AreOfPlans, ArePlansWithin, RefusesNew, port_made, port_planned, sizes_made, sizes_planned};
ghost use Rattle.batch_desk.specs.PortState.{IsNewPort, port_rings};
ghost use Rattle.batch_desk.specs.declared.fault.HubFault.TheVariants.{Memory};

use crate::desk::PortDesk;
use crate::fault::HubFault;
use crate::hub::Hub;
use crate::plan::PortPlan;
use crate::port::Port;
use batch_engine::Engine;
use rtrb::RingBuffer;
use std::alloc::{AllocError, Global};

/// How many ports a hub may have.
const MAX_PORTS: usize = 64;

/// Whether there are 1 to 64 ports, and each ring has 1 to 4,096 places.
fn are_within(plans: &[PortPlan]) -> bool
    ensures { IsTrue result ↔ ArePlansWithin plans.now }
{
    !plans.is_empty() && plans.len() <= MAX_PORTS && plans.iter().all(|plan| plan.is_within())
}

/// Makes the two rings of a port.
fn open_port(alloc: Global, plan: PortPlan) -> Result<(Port, PortDesk), AllocError>
    ensures made { IfOk result (λ r. IsNewPort r.0 × IsNewDesk r.1 × (port_rings r.0 ≡ desk_rings r.1) × (port_made r.0 ≡ port_planned plan) × (r.1.free ≡ plan.event_places)) }
    ensures sizes { IfOk result (λ r. sizes_made r.0 ≡ sizes_planned plan) }
{
    let (sends, events) = RingBuffer::new(alloc, plan.event_places)?;
    let (outs, takes) = RingBuffer::new(alloc, plan.out_places)?;
    let port = Port::new(alloc, plan.scope, events, outs);
    Ok((port, PortDesk::new(sends, takes)))
}

/// Makes the ports, and the desk of each at the port's place.
fn open_ports(alloc: Global, plans: &[PortPlan]) -> Result<(Vec<Port>, Vec<PortDesk>), HubFault>
    ensures made { IfOk result (λ r. AreOfPlans plans.now r.0.items r.1.items) }
    ensures fault { IfErr result (λ fault. fault ≡ Memory) }
{
    let mut ports = Vec::new(alloc);
    let mut desks = Vec::new(alloc);
    for plan in plans {
        if ports.reserve(1).is_err() || desks.reserve(1).is_err() {
            return Err(HubFault::Memory);
        }
        let Ok((port, desk)) = open_port(alloc, *plan) else {
            return Err(HubFault::Memory);
        };
        ports.push_reserved(port);
        desks.push_reserved(desk);
    }
    Ok((ports, desks))
}

impl Hub {
    /// Makes a hub of an engine in which nothing has happened, and the desk of each port at the port's place. It takes the memory
    /// of all rings. A refusal gives the engine back: `Limit` unless there are 1 to 64 ports with rings of 1 to 4,096 places, else `Memory`.
    // claim: new hub (hub, ports); limits of ports (within, err)
    pub fn new(
        alloc: Global,
        engine: Engine,
        plans: &[PortPlan],
    ) -> Result<(Hub, Vec<PortDesk>), (HubFault, Engine)>
        requires { plant_of engine ≡ opening }
        ensures hub { IfOk result (λ r. (r.0.engine ≡ engine) × (r.0.history ≡ []) × (r.0.outs ≡ [])) }
        ensures ports { IfOk result (λ r. AreOfPlans plans.now r.0.ports r.1.items) }
        ensures within { IfOk result (λ r. ArePlansWithin plans.now) }
        ensures err { IfErr result (λ e. (e.1 ≡ engine) × RefusesNew plans.now e.0) }
    {
        if !are_within(plans) {
            return Err((HubFault::Limit, engine));
        }
        match open_ports(alloc, plans) {
            Ok((ports, desks)) => {
                let hub = Hub {
                    engine,
                    history: Vec::new(alloc),
                    outs: Vec::new(alloc),
                    ports,
                };
                Ok((hub, desks))
            }
            Err(fault) => Err((fault, engine)),
        }
    }
}
