//! An engine, and the units of its cell.
use crate::records::{Told, accept, moves, next_move};
use crate::script::asked;
use crate::teller::{Teller, put};
use batch_engine::{Engine, Line};
use batch_plant::drive;
use batch_sim::{Order, Simulator, UnitDriver};
use std::alloc::Global;
use std::test::Fail;

/// Units receive the orders of moves.
impl<D: UnitDriver> Told for Simulator<D> {
    fn receive(&mut self, line: Line) {
        match line {
            Line::Start { unit, phase, .. } => {
                let _ = self.order(unit, phase, Order::Start);
            }
            Line::Send {
                unit,
                phase,
                command,
                ..
            } => {
                let _ = self.order(unit, phase, Order::Send(command));
            }
            _ => {}
        }
    }
}

/// The record of rounds, and that they are over.
fn driven(record: Vec<u8>) -> Result<String, Fail> {
    let mut record = record;
    record.extend_from_slice(b"driven\n")?;
    Ok(String::from_utf8(record)?)
}

/// The record of so many rounds.
fn rounds<D: UnitDriver>(
    alloc: Global,
    engine: &mut Engine,
    units: &mut Simulator<D>,
    rounds: &str,
) -> Result<String, Fail> {
    let rounds = rounds.parse()?;
    let mut record = Vec::new(alloc);
    drive(alloc, engine, units, &mut record, rounds)?;
    driven(record)
}

/// The record of the operator's event and of the moves that follow, whose orders the units are given.
fn operate<D: UnitDriver>(
    alloc: Global,
    engine: &mut Engine,
    units: &mut Simulator<D>,
    line: &str,
) -> Result<String, Fail> {
    let mut told = accept(alloc, engine, line)?;
    put(&mut told, moves(alloc, engine, units))?;
    Ok(told)
}

/// Answers a line of a script:
///
/// - `drive ROUNDS` by the written text;
/// - `accept` and an event line by the reply alone, with no move made;
/// - `move` by one move, and `moves` by all that are possible;
/// - an event line alone by its reply and all moves.
impl<D: UnitDriver> Teller<Simulator<D>> for Engine {
    fn answer(
        &mut self,
        alloc: Global,
        units: &mut Simulator<D>,
        line: &str,
    ) -> Result<String, Fail> {
        let (word, words) = line.split_once(' ').unwrap_or((line, ""));
        match word {
            "drive" => rounds(alloc, self, units, words),
            "accept" => accept(alloc, self, words),
            "move" => next_move(alloc, self),
            "moves" => moves(alloc, self, units),
            "state" | "value" | "would" | "settled" => asked(alloc, self, line),
            _ => operate(alloc, self, units, line),
        }
    }
}
