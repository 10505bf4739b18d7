//! Scripts of a simulator: an order or a tick a line, whose answers are one text.
use crate::expected::assert_text;
use crate::teller::{Teller, answers};
use crate::words::{number_of, report_word, said, shown};
use batch_matrix::{Command, Report};
use batch_sim::{Order, Simulator, SteadyUnit, UnitDriver};
use std::alloc::{AllocError, Global};
use std::process::Abort;
use std::test::Fail;

/// The orders by their words.
const ORDERS: [(&str, Order); 7] = [
    ("start", Order::Start),
    ("pause", Order::Send(Command::Pause)),
    ("resume", Order::Send(Command::Resume)),
    ("hold", Order::Send(Command::Hold)),
    ("restart", Order::Send(Command::Restart)),
    ("stop", Order::Send(Command::Stop)),
    ("abort", Order::Send(Command::Abort)),
];

/// The call of a line: an order to a phase of a unit, or a tick of a unit.
enum Call {
    Order(u16, u16, Order),
    Tick(u16),
}

/// Steady units with so many phases each, which run so many ticks.
pub(crate) fn steady(
    alloc: Global,
    phases: &[u16],
    ticks: u64,
) -> Result<Vec<SteadyUnit>, AllocError> {
    let mut units = Vec::new(alloc);
    for count in phases {
        units.push(SteadyUnit::new(alloc, *count, ticks)?)?;
    }
    Ok(units)
}

fn order_of(word: &str) -> Result<Order, Fail> {
    for (name, order) in &ORDERS {
        if *name == word {
            return Ok(*order);
        }
    }
    Err(Fail::from("no such order"))
}

/// The order of `UNIT PHASE WORD`.
fn order_call(words: &str) -> Result<Call, Fail> {
    let (unit, words) = number_of(words)?;
    let (phase, word) = number_of(words)?;
    Ok(Call::Order(unit, phase, order_of(word)?))
}

fn tick_call(unit: &str) -> Result<Call, Fail> {
    let (unit, _) = number_of(unit)?;
    Ok(Call::Tick(unit))
}

fn call_of(line: &str) -> Result<Call, Fail> {
    match line.split_once(' ') {
        Some(("order", words)) => order_call(words),
        Some(("tick", unit)) => tick_call(unit),
        _ => Err(Fail::from("no such word")),
    }
}

/// The report of a tick, with the number of its phase.
fn tick_told(alloc: Global, answer: Option<(u16, Report)>) -> Result<String, Fail> {
    match answer {
        Some((phase, report)) => Ok(format!(in alloc; "tick: {phase} {}\n", report_word(report))?),
        None => said(alloc, "tick", "none"),
    }
}

/// Answers an order by whether the unit is known, and a tick by the unit's report.
impl<D: UnitDriver> Teller<()> for Simulator<D> {
    fn answer(&mut self, alloc: Global, _beside: &mut (), line: &str) -> Result<String, Fail> {
        match call_of(line)? {
            Call::Order(unit, phase, order) => {
                shown(alloc, "order", &self.order(unit, phase, order))
            }
            Call::Tick(unit) => tick_told(alloc, self.tick(unit)),
        }
    }
}

/// The answers to the script of steady units with so many phases each, if a phase runs so many ticks.
fn answers_of_units(
    alloc: Global,
    phases: &[u16],
    ticks: u64,
    script: &str,
) -> Result<String, Fail> {
    let mut units = Simulator::new(steady(alloc, phases, ticks)?);
    answers(alloc, &mut units, &mut (), script)
}

/// Checks that the answers of steady units to the script are the text expected.
pub(crate) fn assert_units(
    rt: &impl Abort,
    alloc: Global,
    phases: &[u16],
    ticks: u64,
    script: &str,
    expected: &str,
) -> Result<(), Fail> {
    assert_text(rt, answers_of_units(alloc, phases, ticks, script), expected)
}
