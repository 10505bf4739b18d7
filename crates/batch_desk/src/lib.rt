//! Desks round one engine: events come in and outs go out by rings, one each way for each port.
#![tactic(auto)]

mod batch_plan;
mod console;
mod console_turns;
mod desk;
mod fault;
mod gate;
mod hub;
mod hub_turns;
mod inbox;
mod laws;
mod loop_end;
mod opening;
mod plan;
mod port;
mod ports;
mod scope;
mod step;
mod turned;
mod turning;

pub use batch_plan::BatchPlan;
pub use console_turns::console_loop;
pub use desk::{Full, PortDesk};
pub use fault::HubFault;
pub use gate::Gate;
pub use hub::Hub;
pub use hub_turns::hub_loop;
pub use inbox::Inbox;
pub use laws::outlines_keep_rings;
pub use loop_end::LoopEnd;
pub use plan::PortPlan;
pub use scope::Scope;
pub use turned::Turned;
