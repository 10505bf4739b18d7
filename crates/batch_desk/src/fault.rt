//! Why a call of the hub failed.
use thiserror::Error;

/// Why a call of the hub failed.
#[derive(Clone, Copy, Debug, Error)]
pub enum HubFault {
    /// There was no memory. No event is lost; the work that was done stays.
    #[error("out of memory")]
    Memory,
    #[error("there is no such port")]
    UnknownPort,
    /// Not all events that the port's desk sent were taken.
    #[error("events remain")]
    EventsRemain,
    /// There are too many ports, or too many places in a ring; or none.
    #[error("there are too many ports or places, or none")]
    Limit,
    /// The port was cut; or it is to be cut, and was closed.
    #[error("the port is closed")]
    Closed,
    /// The port isn't closed, or outs wait, or it was sealed before.
    #[error("the port can't be sealed")]
    NotSealable,
}
