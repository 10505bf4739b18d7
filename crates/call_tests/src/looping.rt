//! Loops of a hub and of a console: so many turns at a gate, and how they end.
use crate::words::{loop_word, number_of, said};
use batch_desk::{BatchPlan, Gate, Hub, LoopEnd, PortDesk, console_loop, hub_loop};
use batch_text::Name;
use std::alloc::Global;
use std::test::Fail;

/// A gate that lets every turn pass, or none.
#[derive(Drop)]
struct Open(bool);

impl Gate for Open {
    ghost passes = { λ _ _ _ _. Unit {0} };

    fn lets_pass(&mut self, _turn: u64) -> bool {
        self.0
    }
}

/// How many batches, how many turns, and a gate that is `open` or `shut`.
fn loop_words(words: &str) -> Result<(u64, u64, Open), Fail> {
    let (batches, words) = number_of(words)?;
    let (limit, gate) = number_of(words)?;
    Ok((u64::from(batches), u64::from(limit), Open(gate == "open")))
}

/// How a loop of a desk's console ended, which makes A in size 1000.
fn console_end(alloc: Global, desk: &mut PortDesk, words: &str) -> Result<LoopEnd, Fail> {
    let (batches, limit, mut gate) = loop_words(words)?;
    let plan = BatchPlan {
        recipe: Name::read(alloc, b"A")?,
        size: 1000,
        roles: Vec::new(alloc),
    };
    Ok(console_loop(alloc, desk, &plan, batches, &mut gate, limit))
}

/// How a loop of the hub ended.
pub(crate) fn hub_told(alloc: Global, hub: &mut Hub, words: &str) -> Result<String, Fail> {
    let (batches, limit, mut gate) = loop_words(words)?;
    let end = hub_loop(hub, batches, &mut gate, limit);
    said(alloc, "hub", loop_word(end))
}

/// How a loop of the first desk's console ended.
pub(crate) fn console_told(
    alloc: Global,
    desks: &mut Vec<PortDesk>,
    words: &str,
) -> Result<String, Fail> {
    match desks.get_mut(0) {
        Some(desk) => {
            let end = console_end(alloc, desk, words)?;
            said(alloc, "console", loop_word(end))
        }
        None => Err(Fail::from("no desk")),
    }
}
