//! Scripts of the demo cell: event lines and rounds of driving, whose answers are one text.
use crate::documents::{A, CELL1};
use crate::drivers::{Answer, Scripted};
use crate::expected::assert_text;
use crate::records::engine_of;
use crate::simulator::steady;
use crate::teller::answers;
use batch_engine::Engine;
use batch_sim::{Simulator, SteadyUnit, UnitDriver};
use std::alloc::Global;
use std::process::Abort;
use std::test::Fail;

/// A batch begins, whose one phase runs on R1.
const START: &str = "create A 1000\nstart 1";

/// The demo cell's units, whose phases run two ticks.
pub(crate) fn steady_units(alloc: Global) -> Result<Simulator<SteadyUnit>, Fail> {
    Ok(Simulator::new(steady(alloc, &[3, 3], 2)?))
}

/// Begins a batch, whose one phase runs on R1 then.
pub(crate) fn start<D: UnitDriver>(
    alloc: Global,
    engine: &mut Engine,
    units: &mut Simulator<D>,
) -> Result<(), Fail> {
    let _ = answers(alloc, engine, units, START)?;
    Ok(())
}

/// The answers to the second script, after the first.
fn later_answers<D: UnitDriver>(
    alloc: Global,
    engine: &mut Engine,
    units: &mut Simulator<D>,
    scripts: (&str, &str),
) -> Result<String, Fail> {
    let _ = answers(alloc, engine, units, scripts.0)?;
    answers(alloc, engine, units, scripts.1)
}

/// The answers to the second script, after the first, of an engine of the recipe and these units of the demo cell.
pub(crate) fn answers_from_start<D: UnitDriver>(
    alloc: Global,
    recipe: &str,
    units: &mut Simulator<D>,
    scripts: (&str, &str),
) -> Result<String, Fail> {
    let mut engine = engine_of(alloc, CELL1, &[recipe])?;
    later_answers(alloc, &mut engine, units, scripts)
}

/// The answers to the script if the units work steadily, and a phase of R1 runs.
fn steady_told(alloc: Global, script: &str) -> Result<String, Fail> {
    let mut units = steady_units(alloc)?;
    answers_from_start(alloc, A, &mut units, (START, script))
}

/// Checks that the answers to the script, if the units work steadily, are the text expected.
pub(crate) fn assert_steady(
    rt: &impl Abort,
    alloc: Global,
    script: &str,
    expected: &str,
) -> Result<(), Fail> {
    assert_text(rt, steady_told(alloc, script), expected)
}

/// A unit for each list of answers.
fn scripted(alloc: Global, answers: &[&'static [Answer]]) -> Result<Simulator<Scripted>, Fail> {
    let mut units = Vec::new(alloc);
    for list in answers {
        units.push(Scripted::new(*list))?;
    }
    Ok(Simulator::new(units))
}

/// The answers to the script if the units answer so, and a phase of R1 runs.
fn scripted_told(
    alloc: Global,
    answers: &[&'static [Answer]],
    script: &str,
) -> Result<String, Fail> {
    let mut units = scripted(alloc, answers)?;
    answers_from_start(alloc, A, &mut units, (START, script))
}

/// Checks that the answers to the script, if the units answer so, are the text expected.
pub(crate) fn assert_scripted(
    rt: &impl Abort,
    alloc: Global,
    answers: &[&'static [Answer]],
    script: &str,
    expected: &str,
) -> Result<(), Fail> {
    assert_text(rt, scripted_told(alloc, answers, script), expected)
}
