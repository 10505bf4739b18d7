//! The lines of nodes, and their seats.
ghost use Rattle.std.specs.Prelude.{◌≡◌, ◌++◌, IfOk, OnOk, codes, decimal, string_bytes};
ghost use Rattle.batch_outline.specs.Along.{held_text, if_text, line, loop_text, seat_of};
ghost use Rattle.batch_outline.specs.Showing.{condition_text, op_text, term_text};

use batch_recipe::{Condition, Op, Term};
use std::alloc::{AllocError, Global};

/// The seat of the line of a node.
#[derive(Clone, Copy)]
pub struct Seat<'a> {
    /// The text of its place.
    pub place: &'a str,
    /// The names of the resources that are asked for on the path above it, a space before each.
    pub held: &'a str,
    /// At a branch of a `sel` the text on its choice, with a space before it; empty at other nodes.
    pub branch: &'a str,
}

/// Adds a line with this head, and with the turns of a loop.
pub fn put_line(
    text: &mut String,
    seat: Seat<'_>,
    head: &str,
    turns: &str,
) -> Result<(), AllocError>
    ensures { OnOk result (string_bytes text.new ≡ string_bytes text.old ++ line (seat_of seat.entry) head.now turns.now) }
{
    let place = seat.place;
    write!(text, "{place} {head}")?;
    put_held(text, seat.held)?;
    let branch = seat.branch;
    writeln!(text, "{turns}{branch}")
}

fn put_held(text: &mut String, held: &str) -> Result<(), AllocError>
    ensures { OnOk result (string_bytes text.new ≡ string_bytes text.old ++ held_text held.now) }
{
    if held.is_empty() {
        return Ok(());
    }
    write!(text, " holds{held}")
}

/// The place of a child.
pub fn child_place(alloc: Global, place: &str, child: usize) -> Result<String, AllocError>
    ensures { IfOk result (λ below. string_bytes below ≡ place.now ++ (codes "." ++ decimal child)) }
{
    format!(in alloc; "{place}.{child}")
}

/// The text of the greatest number of turns of a loop, and of the condition that ends it.
pub fn loop_text(alloc: Global, turns: u64, until: &Condition) -> Result<String, AllocError>
    ensures { IfOk result (λ text. string_bytes text ≡ loop_text turns until.now) }
{
    let condition = condition_text(alloc, until)?;
    format!(in alloc; " turns {turns} until {condition}")
}

/// The text of the condition of a branch of a `sel` that isn't the last.
pub fn if_text(alloc: Global, condition: &Condition) -> Result<String, AllocError>
    ensures { IfOk result (λ text. string_bytes text ≡ if_text condition.now) }
{
    let condition = condition_text(alloc, condition)?;
    format!(in alloc; " if {condition}")
}

fn condition_text(alloc: Global, condition: &Condition) -> Result<String, AllocError>
    ensures { IfOk result (λ text. string_bytes text ≡ condition_text condition.now) }
{
    let name = &condition.name;
    let op = op_text(condition.op);
    let term = term_text(alloc, &condition.term)?;
    format!(in alloc; "{name} {op} {term}")
}

fn op_text(op: Op) -> &'static str
    ensures { result.now ≡ op_text op }
{
    match op {
        Op::Less => "<",
        Op::AtMost => "<=",
        Op::Equal => "=",
        Op::NotEqual => "/=",
        Op::AtLeast => ">=",
        Op::Greater => ">",
    }
}

fn term_text(alloc: Global, term: &Term) -> Result<String, AllocError>
    ensures { IfOk result (λ text. string_bytes text ≡ term_text term.now) }
{
    match term {
        Term::Named(name) => format!(in alloc; "{name}"),
        Term::Number(number) => format!(in alloc; "{number}"),
    }
}
