//! The moves that the engine makes by itself.
use batch_matrix::{Command, State};
use batch_recipe::MAX_VALUES;

/// The stage of a claim on a resource.
#[derive(Clone, Copy)]
pub enum ClaimKind {
    /// An act asks for units of the resource.
    Asked,
    /// The act is given the units that it asked for.
    Granted,
    /// The act gives back the units that it held.
    Released,
}

/// A move, by numbers. Each has its batch. One of an act has the recipe and the act's node too, one of a phase also the unit and the phase,
/// and one of a share the resource and how many units of its capacity.
#[derive(Clone, Copy)]
pub enum Line {
    /// A command is sent to a phase.
    Send {
        batch: u64,
        recipe: u16,
        node: u16,
        unit: u16,
        phase: u16,
        command: Command,
    },
    /// The batch changes its state.
    State {
        batch: u64,
        state: State,
    },
    /// An act that is no phase step begins.
    Begin {
        batch: u64,
        recipe: u16,
        node: u16,
    },
    /// A phase starts. The values are those that its act names; the entries after them mean nothing.
    Start {
        batch: u64,
        recipe: u16,
        node: u16,
        unit: u16,
        phase: u16,
        values: [u64; MAX_VALUES],
    },
    /// An act that is no phase step ends.
    End {
        batch: u64,
        recipe: u16,
        node: u16,
    },
    /// An act that has ended passes on a unit that it reserved: the act at the node `to` holds it in advance.
    Pass {
        batch: u64,
        recipe: u16,
        node: u16,
        to: u16,
        resource: u16,
        units: u32,
    },
    /// An act's claim on units of a resource, for one of its needs.
    Claim {
        kind: ClaimKind,
        batch: u64,
        recipe: u16,
        node: u16,
        resource: u16,
        units: u32,
    },
}
