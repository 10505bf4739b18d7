//! Why a plant didn't run to its end.

/// Why a plant didn't run to its end. Of several faults the first in this order is reported.
#[derive(Clone, Copy)]
pub enum PlantFault {
    /// There was no memory for the engine, or for the rings.
    Memory,
    /// A thread couldn't be started. The others were joined.
    Thread,
    /// A create or a start was refused: of the demo's only a create is, for want of memory.
    Refused,
    /// A loop made as many turns as it may.
    TurnsOut,
    /// A port couldn't be closed or sealed at the end, so that it isn't known which events came from its desk.
    Unclosed,
}
