//! The task of a plant.
use batch_desk::BatchPlan;

/// The task of a plant: `batches` batches are created by the plan and started, and run until they are complete.
#[derive(Drop)]
pub struct PlantTask {
    pub plan: BatchPlan,
    pub batches: u64,
    /// How many places each ring has.
    pub ring: usize,
    /// How many turns each loop may make.
    pub limit: u64,
}
