//! The parts of a plant.
use batch_desk::{Hub, PortDesk};

/// A hub, and the desks of its two ports.
#[derive(Drop)]
pub(crate) struct Parts {
    pub(crate) hub: Hub,
    pub(crate) console: PortDesk,
    pub(crate) link: PortDesk,
}
