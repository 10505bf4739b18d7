//! Scripts of an engine: event lines, and questions between them, whose answers are one text.
use crate::driven::answers_from_start;
use crate::expected::assert_text;
use crate::records::event_of;
use crate::words::{number_of, said, shown, state_word};
use batch_engine::Engine;
use batch_sim::{Simulator, SteadyUnit};
use batch_text::{Name, Place};
use std::alloc::Global;
use std::process::Abort;
use std::test::Fail;

/// The state of an act, asked for by `BATCH PLACE`.
fn state(alloc: Global, engine: &Engine, line: &str, act: &str) -> Result<String, Fail> {
    let (batch, place) = number_of(act)?;
    let place = Place::read(alloc, place.as_bytes())?;
    let state = engine.state_of(u64::from(batch), &place);
    said(alloc, line, state_word(state))
}

/// A value of a batch, asked for by `BATCH NAME`.
fn value(alloc: Global, engine: &Engine, line: &str, value: &str) -> Result<String, Fail> {
    let (batch, name) = number_of(value)?;
    let name = Name::read(alloc, name.as_bytes())?;
    shown(alloc, line, &engine.value_of(u64::from(batch), &name))
}

/// Whether the event of the line would make a batch.
fn would_create(alloc: Global, engine: &Engine, event: &str) -> Result<String, Fail> {
    let event = event_of(alloc, event)?;
    shown(alloc, "would create", &engine.would_create(&event))
}

/// Answers a question about an engine; to `state` and `value` the answer follows the question.
pub(crate) fn asked(alloc: Global, engine: &Engine, line: &str) -> Result<String, Fail> {
    let (word, words) = line.split_once(' ').unwrap_or((line, ""));
    match word {
        "state" => state(alloc, engine, line, words),
        "value" => value(alloc, engine, line, words),
        "would" => would_create(alloc, engine, words),
        "settled" => shown(alloc, line, &engine.settled()),
        _ => Err(Fail::from("no such word")),
    }
}

/// The answers to a script of an engine of this recipe in the demo cell, whose units have no drivers.
fn answers_of_engine(alloc: Global, recipe: &str, script: &str) -> Result<String, Fail> {
    let mut units: Simulator<SteadyUnit> = Simulator::new(Vec::new(alloc));
    answers_from_start(alloc, recipe, &mut units, ("", script))
}

/// Checks that the answers to the script are the text expected.
pub(crate) fn assert_told(
    rt: &impl Abort,
    alloc: Global,
    recipe: &str,
    script: &str,
    expected: &str,
) -> Result<(), Fail> {
    assert_text(rt, answers_of_engine(alloc, recipe, script), expected)
}
