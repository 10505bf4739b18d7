//! Scripts of a hub and its desks: a line for each call, whose answers are one text.
use crate::ending::ended_told;
use crate::expected::assert_text;
use crate::hub_stage::Stage;
use crate::hubs::hub_of;
use crate::lines::demo_set_of;
use crate::teller::answers;
use batch_desk::PortPlan;
use batch_verify::Cleared;
use std::alloc::Global;
use std::process::Abort;
use std::test::Fail;

/// The answers of a new hub of the recipe, whose names are those of the cleared set, with its desks.
fn stage_told(
    alloc: Global,
    cleared: &mut Cleared,
    recipe: &str,
    plans: &[PortPlan],
    script: &str,
) -> Result<String, Fail> {
    let mut stage = Stage(hub_of(alloc, recipe, plans)?);
    answers(alloc, &mut stage, cleared, script)
}

/// The answers to a script, where the first desk finishes at the line `finish`, and the hub ends behind the script.
fn answers_of_set(
    alloc: Global,
    cleared: &mut Cleared,
    recipe: &str,
    plans: &[PortPlan],
    script: &str,
) -> Result<String, Fail> {
    match script.split_once("finish\n") {
        Some(scripts) => ended_told(alloc, cleared, recipe, plans, scripts),
        None => stage_told(alloc, cleared, recipe, plans, script),
    }
}

/// The answers to the script.
fn answers_of_hub(
    alloc: Global,
    recipe: &str,
    plans: &[PortPlan],
    script: &str,
) -> Result<String, Fail> {
    let mut cleared = demo_set_of(alloc, recipe)?;
    answers_of_set(alloc, &mut cleared, recipe, plans, script)
}

/// Checks that the answers to the script are the text expected.
pub(crate) fn assert_told(
    rt: &impl Abort,
    alloc: Global,
    recipe: &str,
    plans: &[PortPlan],
    script: &str,
    expected: &str,
) -> Result<(), Fail> {
    assert_text(rt, answers_of_hub(alloc, recipe, plans, script), expected)
}
