//! Plants in threads of the process.
use crate::desk_runner::DeskRunner;
use crate::file_pipes::FilePipes;
use crate::first_plan::first_plan;
use crate::patient_gate::PatientGate;
use crate::plant_runner::PlantRunner;
use crate::steady_units::steady_units;
use batch_cli::PlantOptions;
use batch_engine::Engine;
use batch_pipes::{DesksEnd, DesksFault, Timing, serve_desks};
use batch_plant::{PlantFault, PlantGates, PlantTask, plant_run};
use batch_reader::Desks;
use batch_serve::{Keep, Lines};
use batch_sim::Simulator;
use batch_verify::Cleared;
use std::alloc::Global;
use std::fs::File;
use std::io::Write;
use std::thread::Threads;

/// How many turns each worker has.
pub const TURNS: u64 = 10_000_000;

/// Runs plants: the hub in the thread that calls, and a console and a link to steady units, each in a thread that the runtime
/// starts. All three rest by the clock of the process.
#[derive(Drop)]
pub struct ThreadsOf<'a, R> {
    pub threads: &'a R,
    pub clock: HostRuntime,
}

impl<R: Threads> PlantRunner for ThreadsOf<'_, R> {
    fn run_plant(
        &self,
        alloc: Global,
        set: Cleared,
        options: PlantOptions,
    ) -> Result<u64, PlantFault> {
        let plan = first_plan(alloc, &set)?;
        let Ok(units) = steady_units(alloc, set.cell(), options.ticks) else {
            return Err(PlantFault::Memory);
        };
        let simulator = Simulator::new(units);
        let task = PlantTask {
            plan,
            batches: options.batches,
            ring: options.ring as usize,
            limit: TURNS,
        };
        let gates = PlantGates {
            hub: PatientGate(self.clock),
            console: PatientGate(self.clock),
            link: PatientGate(self.clock),
        };
        let end = plant_run(self.threads, alloc, set, simulator, task, gates)?;
        Ok(end.hub.history().len() as u64)
    }
}

impl<R: Threads> DeskRunner for ThreadsOf<'_, R> {
    fn serve_desks<K: Keep, W: Write, E: Write>(
        &self,
        alloc: Global,
        engine: Engine,
        desks: Desks,
        fronts: &[Lines],
        times: bool,
        keep: &mut K,
        output: &mut W,
        errors: &mut E,
    ) -> Result<usize, DesksFault> {
        let timing = Timing {
            clock: self.clock,
            times,
        };
        let pipes = FilePipes::new(self.clock, desks.desks.len());
        let end: DesksEnd<File, FilePipes> = serve_desks(
            self.threads,
            alloc,
            &pipes,
            engine,
            desks,
            fronts,
            &timing,
            keep,
            output,
            errors,
            &mut pipes.rest(),
        )?;
        Ok(end.unfinished)
    }
}
