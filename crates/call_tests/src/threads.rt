//! Plants in threads.
use crate::expected::assert_text;
use crate::gates::{Meeting, Open};
use crate::plants::{run, words_of};
use batch_plant::{PlantFault, PlantGates};
use std::alloc::Global;
use std::sync::Arc;
use std::sync::atomic::{AtomicU64, Ordering};
use std::test::Fail;
use std::thread::Threads;

/// Gates that let every turn be made.
fn open_gates() -> PlantGates<Open, Open, Open> {
    PlantGates {
        hub: Open,
        console: Open,
        link: Open,
    }
}

/// No batch has the size 0. So the first create is refused, and the plant ends by that, while the turns of hub and link are left.
#[test]
fn refused_create_ends_the_plant(rt: HostRuntime) -> Result<(), Fail> {
    let alloc = rt.alloc();
    let fault = run(&rt, alloc, 0, 1_000_000, open_gates());
    assert_text(
        &rt,
        words_of(alloc, fault),
        "what the console sent was refused",
    )
}

/// The flags of the loops of console and link, and how many of their gates saw the other's.
#[derive(Drop)]
struct Flags {
    console: Arc<AtomicU64, Global>,
    link: Arc<AtomicU64, Global>,
    met: Arc<AtomicU64, Global>,
}

fn new_flags(alloc: Global) -> Result<Flags, Fail> {
    Ok(Flags {
        console: Arc::new(alloc, AtomicU64::new(0))?,
        link: Arc::new(alloc, AtomicU64::new(0))?,
        met: Arc::new(alloc, AtomicU64::new(0))?,
    })
}

/// A gate whose own flag is the first.
fn meeting(
    mine: &Arc<AtomicU64, Global>,
    other: &Arc<AtomicU64, Global>,
    met: &Arc<AtomicU64, Global>,
) -> Result<Meeting, Fail> {
    Ok(Meeting {
        mine: Arc::try_clone(mine)?,
        other: Arc::try_clone(other)?,
        met: Arc::try_clone(met)?,
    })
}

/// Gates of console and link that look at the other's flag.
fn meeting_gates(flags: &Flags) -> Result<PlantGates<Open, Meeting, Meeting>, Fail> {
    Ok(PlantGates {
        hub: Open,
        console: meeting(&flags.console, &flags.link, &flags.met)?,
        link: meeting(&flags.link, &flags.console, &flags.met)?,
    })
}

/// Runs a plant with these flags.
fn run_meeting<R: Threads>(
    rt: &R,
    alloc: Global,
    flags: &Flags,
) -> Result<Option<PlantFault>, Fail> {
    let gates = meeting_gates(flags)?;
    run(rt, alloc, 1000, 10_000_000, gates)
}

/// How many of the gates of console and link saw that the other's loop runs.
fn met<R: Threads>(rt: &R, alloc: Global) -> Result<u64, Fail> {
    let flags = new_flags(alloc)?;
    let _ = run_meeting(rt, alloc, &flags)?;
    Ok(flags.met.load(Ordering::SeqCst))
}

#[test]
fn loops_run_at_once(rt: HostRuntime) -> Result<(), Fail> {
    let alloc = rt.alloc();
    assert_eq!(&rt; met(&rt, alloc)?, 2);
    Ok(())
}
