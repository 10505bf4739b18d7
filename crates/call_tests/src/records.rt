//! An engine over documents, and the record of an event line or of moves.
ghost use Rattle.std.specs.Prelude.{◌≡◌, IfOk};
ghost use Rattle.batch_model.specs.Plant.{opening};
ghost use Rattle.batch_engine.specs.View.{plant_of};

use crate::lines::text_of;
use batch_cell::Cell;
use batch_check::check;
use batch_engine::{Engine, Event, Line, Out};
use batch_reader::{read_cell, read_recipe};
use batch_recipe::Recipe;
use batch_verify::{Cleared, verify};
use batch_wire::{read_event, write_out};
use std::alloc::Global;
use std::test::Fail;

/// More moves than any event of these runs brings.
const MAX_MOVES: usize = 100_000;

fn cell_of(alloc: Global, document: &str) -> Result<Cell, Fail> {
    read_cell(alloc, document.as_bytes()).map_err(|_| Fail::from("no cell"))
}

fn recipe_of(alloc: Global, document: &str) -> Result<Recipe, Fail> {
    read_recipe(alloc, document.as_bytes()).map_err(|_| Fail::from("no recipe"))
}

fn recipes_of(alloc: Global, documents: &[&str]) -> Result<Vec<Recipe>, Fail> {
    let mut recipes = Vec::new(alloc);
    for document in documents {
        recipes.push(recipe_of(alloc, document)?)?;
    }
    Ok(recipes)
}

fn cleared_by_check(alloc: Global, cell: Cell, recipes: Vec<Recipe>) -> Result<Cleared, Fail> {
    let certificate = check(alloc, &cell, &recipes)?;
    verify(alloc, cell, recipes, &certificate).map_err(|_| Fail::from("not cleared"))
}

/// The recipes, cleared for the cell by the certificate that `check` gives.
pub(crate) fn cleared_of(alloc: Global, cell: &str, recipes: &[&str]) -> Result<Cleared, Fail> {
    let cell = cell_of(alloc, cell)?;
    let recipes = recipes_of(alloc, recipes)?;
    cleared_by_check(alloc, cell, recipes)
}

/// An engine in which nothing has happened.
pub(crate) fn engine_of(alloc: Global, cell: &str, recipes: &[&str]) -> Result<Engine, Fail>
    ensures { IfOk result (λ engine. plant_of engine ≡ opening) }
{
    let cleared = cleared_of(alloc, cell, recipes)?;
    Engine::new(alloc, cleared).map_err(|_| Fail::from("no engine"))
}

/// The event of a line.
pub(crate) fn event_of(alloc: Global, line: &str) -> Result<Event, Fail> {
    read_event(alloc, line.as_bytes())?.ok_or_else(|| Fail::from("no event"))
}

/// The record of the event of the line, of whose moves none is made.
pub(crate) fn accept(alloc: Global, engine: &mut Engine, line: &str) -> Result<String, Fail> {
    let reply = engine.accept(&event_of(alloc, line)?);
    text_of(alloc, engine.cleared(), Some(Out::Reply(reply)), "")
}

/// The record of the next move.
pub(crate) fn next_move(alloc: Global, engine: &mut Engine) -> Result<String, Fail> {
    let out = match engine.next_move() {
        Some(line) => Some(Out::Move(line)),
        None => None,
    };
    text_of(alloc, engine.cleared(), out, "no move\n")
}

/// A receiver of the moves that are made.
pub(crate) trait Told {
    fn receive(&mut self, line: Line);
}

fn write_move(engine: &Engine, line: Line, record: &mut Vec<u8>) -> Result<(), Fail> {
    Ok(write_out(&Out::Move(line), engine.cleared(), record)?)
}

/// Makes all moves that are possible, and reports each to the receiver.
fn settle<T: Told>(engine: &mut Engine, told: &mut T, record: &mut Vec<u8>) -> Result<(), Fail> {
    for _ in 0..MAX_MOVES {
        let Some(line) = engine.next_move() else {
            return Ok(());
        };
        write_move(engine, line, record)?;
        told.receive(line);
    }
    Err(Fail::from("moves without end"))
}

/// Makes all moves that are possible, and reports each to the receiver. Returns their record.
pub(crate) fn moves<T: Told>(
    alloc: Global,
    engine: &mut Engine,
    told: &mut T,
) -> Result<String, Fail> {
    let mut record = Vec::new(alloc);
    settle(engine, told, &mut record)?;
    Ok(String::from_utf8(record)?)
}
