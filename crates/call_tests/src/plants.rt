//! Plants of one batch over the demo cell, and how they end.
use crate::documents::A;
use crate::lines::demo_set_of;
use crate::simulator::steady;
use batch_desk::{BatchPlan, Gate};
use batch_plant::{PlantFault, PlantGates, PlantTask, plant_run};
use batch_sim::{Simulator, SteadyUnit};
use batch_text::Name;
use batch_verify::Cleared;
use std::alloc::Global;
use std::test::Fail;
use std::thread::Threads;

/// Recipe A, cleared for the demo cell, the recipe's name, and the units of the cell, whose phases run for five ticks.
#[derive(Drop)]
struct Demo {
    cleared: Cleared,
    recipe: Name,
    units: Simulator<SteadyUnit>,
}

fn new_demo(alloc: Global) -> Result<Demo, Fail> {
    let units = Simulator::new(steady(alloc, &[3, 3], 5)?);
    let recipe = Name::read(alloc, b"A")?;
    let cleared = demo_set_of(alloc, A)?;
    Ok(Demo {
        cleared,
        recipe,
        units,
    })
}

/// Why the plant of the demo ends, if it isn't because its batch is complete.
fn fault_of<
    R: Threads,
    H: Gate + Send + Drop + 'static,
    C: Gate + Send + Drop + 'static,
    L: Gate + Send + Drop + 'static,
>(
    rt: &R,
    alloc: Global,
    demo: Demo,
    size: u64,
    limit: u64,
    gates: PlantGates<H, C, L>,
) -> Option<PlantFault> {
    let task = PlantTask {
        plan: BatchPlan {
            recipe: demo.recipe,
            size,
            roles: Vec::new(alloc),
        },
        batches: 1,
        ring: 1,
        limit,
    };
    plant_run(rt, alloc, demo.cleared, demo.units, task, gates).err()
}

/// Runs a plant of one batch in this size, with rings of one place. It gives the fault by which the plant ends, if there is one.
pub(crate) fn run<
    R: Threads,
    H: Gate + Send + Drop + 'static,
    C: Gate + Send + Drop + 'static,
    L: Gate + Send + Drop + 'static,
>(
    rt: &R,
    alloc: Global,
    size: u64,
    limit: u64,
    gates: PlantGates<H, C, L>,
) -> Result<Option<PlantFault>, Fail> {
    let demo = new_demo(alloc)?;
    Ok(fault_of(rt, alloc, demo, size, limit, gates))
}

fn fault_words(fault: PlantFault) -> &'static str {
    match fault {
        PlantFault::Memory => "out of memory",
        PlantFault::Thread => "a thread can't be started",
        PlantFault::Refused => "what the console sent was refused",
        PlantFault::TurnsOut => "the turns ran out",
        PlantFault::Unclosed => "a port can't be closed",
    }
}

/// The words of the fault by which a plant ends, if there is one.
pub(crate) fn words_of(
    alloc: Global,
    fault: Result<Option<PlantFault>, Fail>,
) -> Result<String, Fail> {
    match fault? {
        Some(fault) => Ok(String::from_str(alloc, fault_words(fault))?),
        None => Ok(String::new(alloc)),
    }
}
