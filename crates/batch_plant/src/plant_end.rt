//! The end of a plant.
use crate::plant_rests::PlantRests;
use batch_desk::Hub;

/// The hub of a plant that ran to its end, and the counts of the outs left at its ports.
#[derive(Drop)]
pub struct PlantEnd {
    pub hub: Hub,
    pub rests: PlantRests,
}
