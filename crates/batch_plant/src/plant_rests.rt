//! The outs left in the rings of a plant.

/// How many outs are still to be taken at each port.
#[derive(Clone, Copy)]
pub struct PlantRests {
    pub console: usize,
    pub link: usize,
}
