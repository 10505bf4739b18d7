//! The plan of a port.
ghost use Rattle.std.specs.Prelude.{◌↔◌, IsTrue};
ghost use Rattle.batch_desk.specs.Plans.{IsPlanWithin};

use crate::scope::Scope;

/// How many places a ring may have.
const MAX_PLACES: usize = 4096;

/// The plan of a port: its scope, and how many places its rings have, for events and for outs.
#[derive(Clone, Copy)]
pub struct PortPlan {
    pub scope: Scope,
    pub event_places: usize,
    pub out_places: usize,
}

impl PortPlan {
    /// Whether each ring has 1 to 4,096 places.
    pub(crate) fn is_within(&self) -> bool
        ensures { IsTrue result ↔ IsPlanWithin self.now }
    {
        1 <= self.event_places
            && self.event_places <= MAX_PLACES
            && 1 <= self.out_places
            && self.out_places <= MAX_PLACES
    }
}
