//! The gates of a plant's loops.
use crate::flag::{Flag, FlagGate};
use std::alloc::{AllocError, Global};

/// The gates of a plant's loops.
#[derive(Drop)]
pub struct PlantGates<H, C, L> {
    pub hub: H,
    pub console: C,
    pub link: L,
}

/// The gates of loops that share a flag.
pub(crate) type FlagGates<H, C, L> = PlantGates<FlagGate<H>, FlagGate<C>, FlagGate<L>>;

impl<H: Drop, C: Drop, L: Drop> PlantGates<H, C, L> {
    /// These gates, with one flag.
    pub(crate) fn with_flag(self, alloc: Global) -> Result<FlagGates<H, C, L>, AllocError> {
        let flag = Flag::new(alloc)?;
        let (second, third) = (flag.another()?, flag.another()?);
        let PlantGates { hub, console, link } = self;
        Ok(PlantGates {
            hub: FlagGate { gate: hub, flag },
            console: FlagGate {
                gate: console,
                flag: second,
            },
            link: FlagGate {
                gate: link,
                flag: third,
            },
        })
    }
}
