//! Runners of plants.
ghost use Rattle.std.specs.Prelude.{IfOk};
ghost use Rattle.batch_program.specs.PlantWork.{RunsBy};

use batch_cli::PlantOptions;
use batch_plant::PlantFault;
use batch_verify::Cleared;
use std::alloc::Global;

/// A runner of plants. That of the program uses threads of its process (`ThreadsOf`).
pub trait PlantRunner {
    /// Creates and starts batches of the set's first recipe, and runs until all are complete. Gives how many events the hub has handled.
    ///
    /// A batch has the size of the recipe's basis, and each role is taken by the first unit of its class. The rings have as many places,
    /// and the phases run for as many ticks, as the options say.
    ///
    /// The errors are those of [`plant_run`](batch_plant::plant_run), and [`PlantFault::Refused`] if the set has no recipe.
    // claim: options of a run; batches of a run
    fn run_plant(
        &self,
        alloc: Global,
        set: Cleared,
        options: PlantOptions,
    ) -> Result<u64, PlantFault>
        ensures { IfOk result (RunsBy set options) };
}
