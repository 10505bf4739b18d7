//! Drivers of two kinds, in boxes at one simulator.
use crate::drivers::{Answer, Scripted};
use crate::expected::assert_text;
use crate::teller::answers;
use batch_matrix::Report;
use batch_sim::{AnyDriver, Simulator, SteadyUnit};
use std::alloc::Global;
use std::process::Abort;
use std::test::Fail;

/// The reports of the second unit, whatever its orders: of a phase that it has, none, and of one that it doesn't have.
const ANSWERS: [Answer; 3] = [Some((0, Report::Held)), None, Some((7, Report::Fault))];

/// The answers of units of any kinds to the script.
fn answers_of_units(alloc: Global, drivers: Vec<AnyDriver>, script: &str) -> Result<String, Fail> {
    let mut units = Simulator::new(drivers);
    answers(alloc, &mut units, &mut (), script)
}

/// The answers to the script of a steady unit of two phases that run two ticks, and beside it of one that answers by a list.
fn answers_of_two(alloc: Global, script: &str) -> Result<String, Fail> {
    let steady = AnyDriver::new(Box::new(alloc, SteadyUnit::new(alloc, 2, 2)?)?);
    let scripted = AnyDriver::new(Box::new(alloc, Scripted::new(&ANSWERS))?);
    answers_of_units(alloc, Vec::from_array(alloc, [steady, scripted])?, script)
}

/// Checks that the answers of the two units to the script are the text expected.
fn assert_two(rt: &impl Abort, alloc: Global, script: &str, expected: &str) -> Result<(), Fail> {
    assert_text(rt, answers_of_two(alloc, script), expected)
}

#[test]
fn each_unit_has_its_own_driver(rt: HostRuntime) -> Result<(), Fail> {
    assert_two(
        &rt,
        rt.alloc(),
        "order 0 1 start
order 1 1 start
order 2 0 start
tick 0
tick 1
tick 0
tick 1
tick 1
tick 1
tick 0
tick 2
",
        "order: true
order: true
order: false
tick: none
tick: 0 held
tick: 1 done
tick: none
tick: 7 fault
tick: none
tick: none
tick: none
",
    )
}
