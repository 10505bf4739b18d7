//! Equipment behind one interface: drivers of units, which take orders for their phases and report of them.
#![tactic(auto)]

mod any_driver;
mod driver;
mod order;
mod simulator;
mod steady_phase;
mod steady_unit;

pub use any_driver::AnyDriver;
pub use driver::UnitDriver;
pub use order::Order;
pub use simulator::Simulator;
pub use steady_unit::SteadyUnit;
