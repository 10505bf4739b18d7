//! Scripts of a hub whose first desk finishes: the calls at the hub and at the desks, before and after.
use crate::left::Left;
use crate::seats::Seats;
use crate::teller::{answers, answers_after, put};
use crate::words::{event_words, said, state_word};
use batch_desk::{Hub, PortPlan};
use batch_engine::{Engine, Event};
use batch_text::Place;
use batch_verify::Cleared;
use std::alloc::Global;
use std::test::Fail;

/// An event of a history, with its port.
fn event_told(alloc: Global, port: usize, event: &Event) -> Result<String, Fail> {
    let event = event_words(alloc, event)?;
    Ok(format!(in alloc; "{port}: {event}\n")?)
}

/// The events of a history.
fn events(alloc: Global, history: &[(usize, Event)], told: &mut String) -> Result<(), Fail> {
    for (port, event) in history {
        put(told, event_told(alloc, *port, event))?;
    }
    Ok(())
}

/// The state of the first batch.
fn state(alloc: Global, engine: &Engine) -> Result<String, Fail> {
    let root = Place::read(alloc, b"0")?;
    said(alloc, "batch 1", state_word(engine.state_of(1, &root)))
}

/// The text before, the events that were taken, and the state of the first batch.
fn end_told(
    alloc: Global,
    engine: &Engine,
    history: &[(usize, Event)],
    before: Result<String, Fail>,
) -> Result<String, Fail> {
    let mut told = before?;
    events(alloc, history, &mut told)?;
    put(&mut told, state(alloc, engine))?;
    Ok(told)
}

// The owner of a hub passes the text before on as it is: a `?` is proved for all that the hub holds.

/// The text before, and the end of the hub.
fn ended(alloc: Global, hub: Hub, before: Result<String, Fail>) -> Result<String, Fail> {
    let end = hub.end();
    end_told(alloc, &end.0, &end.1, before)
}

/// The text before, the answers after the first desk has finished, and the end of the hub.
fn left_told(
    alloc: Global,
    cleared: &mut Cleared,
    left: Left,
    script: &str,
    before: Result<String, Fail>,
) -> Result<String, Fail> {
    let mut left = left;
    let after = answers_after(alloc, &mut left, cleared, script, before);
    ended(alloc, left.into_hub(), after)
}

/// The answers before the first desk finishes, those after that, and the end of the hub.
fn seats_told(
    alloc: Global,
    cleared: &mut Cleared,
    seats: Seats,
    scripts: (&str, &str),
) -> Result<String, Fail> {
    let mut seats = seats;
    let before = answers(alloc, &mut seats, cleared, scripts.0);
    left_told(alloc, cleared, seats.finish(), scripts.1, before)
}

/// The answers of a new hub of the recipe, whose names are those of the cleared set: to the first script before the first desk
/// finishes, to the second after that, and the end of the hub.
pub(crate) fn ended_told(
    alloc: Global,
    cleared: &mut Cleared,
    recipe: &str,
    plans: &[PortPlan],
    scripts: (&str, &str),
) -> Result<String, Fail> {
    let seats = Seats::new(alloc, recipe, plans)?;
    seats_told(alloc, cleared, seats, scripts)
}
