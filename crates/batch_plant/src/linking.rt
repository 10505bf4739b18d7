//! The loop of an equipment link.
ghost use Rattle.std.specs.Prelude.{cond, ◌≡◌, ◌<◌, ◌≤◌, ◌+◌, ◌-◌, ◌++◌, ◌∷◌, ◌⊎◌, ◌↔◌, [], None, Some, length, IfSome};
ghost use Rattle.batch_cell.specs.LookUps.{units_of};
ghost use Rattle.batch_cell.specs.declared.cell.Cell.{Cell};
ghost use Rattle.batch_desk.specs.Consoles.{completes, telling_complete};
ghost use Rattle.batch_desk.specs.DeskState.{DeskState};
ghost use Rattle.batch_desk.specs.declared.loop_end.LoopEnd.TheVariants.{Done};
ghost use Rattle.batch_plant.specs.Links.{IsLinkRun, Links, TakeOut, event_list, report_in, unit_after};
ghost use Rattle.batch_plant.specs.LinkSteps.{Counts, KnowsUnits, SendsKept, TicksUnit, kept_in, linked};

use crate::answer::Answer;
use crate::cell_units::CellUnits;
use crate::link::Link;
use crate::ordering::give_order;
use crate::reporting::report_event;
use batch_desk::{Full, Gate, LoopEnd, PortDesk};
use batch_engine::{Event, Line, Out};
use batch_matrix::State;
use batch_sim::{Simulator, UnitDriver};
use std::alloc::Global;

/// Works as an equipment link at a desk whose port has all moves in its scope, until `batches` batches are complete. At most `limit` turns
/// are counted, among them those that the gate doesn't let pass.
///
/// A turn takes at most one out, and gives the units its order. Then it sends the report that is kept; if there is none, one tick
/// passes at the next unit of the cell in turn, and the link keeps its report. A report for which there is no memory, or no place,
/// is tried again at the next turn. An answer for a phase that the unit doesn't have is dropped.
pub fn link_loop<D: UnitDriver, G: Gate>(
    alloc: Global,
    desk: &mut PortDesk,
    units: &mut Simulator<D>,
    cell: &CellUnits,
    batches: u64,
    gate: &mut G,
    limit: u64,
) -> LoopEnd
    // claim: linked units; reports sent
    ensures link { IsLinkRun D.command_gives D.tick_gives cell.now desk.old desk.new units.old units.new }
    // claim: end of a link
    ensures end { (result ≡ Done) ↔ (completes desk.old.taken + batches ≤ completes desk.new.taken) }
{
    let mut link = Link {
        left: batches,
        next: 0,
        kept: None,
    };
    for turn in 0..limit {
        if link.left == 0 {
            return LoopEnd::Done;
        }
        if gate.lets_pass(turn) {
            make_turn(alloc, &mut link, desk, units, cell);
        }
    }
    if link.left == 0 {
        LoopEnd::Done
    } else {
        LoopEnd::TurnsOut
    }
}

/// One turn: an out is taken, and then a report sent, or the next unit ticks.
fn make_turn<D: UnitDriver>(
    alloc: Global,
    link: &mut Link,
    desk: &mut PortDesk,
    units: &mut Simulator<D>,
    cell: &CellUnits,
)
    requires { KnowsUnits cell.now link.old }
    ensures knows { KnowsUnits cell.now link.new }
    ensures links { Links D.command_gives D.tick_gives cell.now (linked cell.now link.old desk.old units.old) (linked cell.now link.new desk.new units.new) }
    ensures left { Counts link.old desk.old link.new desk.new }
{
    obey_next(link, desk, units);
    match link.kept {
        Some(answer) => send_report(alloc, link, desk, cell, answer),
        None => tick_next(link, units, cell),
    }
}

/// Gives the units the order of the next out, if one is there.
fn obey_next<D: UnitDriver>(link: &mut Link, desk: &mut PortDesk, units: &mut Simulator<D>)
    ensures next { link.new.next ≡ link.old.next }
    ensures kept { link.new.kept ≡ link.old.kept }
    ensures links { (cell : Cell) → Links D.command_gives D.tick_gives cell (linked cell link.old desk.old units.old) (linked cell link.new desk.new units.new) }
    ensures left { Counts link.old desk.old link.new desk.new }
{
    if let Some(out) = desk.pop_out() {
        obey(link, units, out);
    }
}

/// Gives the units the order of an out, if it gives one, and counts a batch that is complete.
fn obey<D: UnitDriver>(link: &mut Link, units: &mut Simulator<D>, out: Out)
    ensures next { link.new.next ≡ link.old.next }
    ensures kept { link.new.kept ≡ link.old.kept }
    ensures left { link.new.left ≡ link.old.left - telling_complete out }
    ensures order { TakeOut D.command_gives D.tick_gives out units.old units.new }
{
    if is_complete(out) {
        link.left = link.left.saturating_sub(1);
    }
    give_order(units, out);
}

/// Whether the out is the move by which a batch becomes complete.
fn is_complete(out: Out) -> bool
    ensures { telling_complete out ≡ cond result 1 0 }
{
    matches!(
        out,
        Out::Move(Line::State {
            state: State::Complete,
            ..
        })
    )
}

/// Sends the report that is kept, if memory is found and the ring has a place for it.
fn send_report(
    alloc: Global,
    link: &mut Link,
    desk: &mut PortDesk,
    cell: &CellUnits,
    answer: Answer,
)
    requires kept { link.old.kept ≡ Some answer }
    requires unit { answer.unit < length (units_of cell.now) }
    ensures none { (link.new.kept ≡ None) ⊎ (link.new.kept ≡ link.old.kept) }
    ensures sends { SendsKept cell.now link.old desk.old link.new desk.new }
{
    let phase = cell.phase_name(answer.unit, answer.phase);
    match report_event(alloc, cell.name_of(answer.unit), phase, answer.word) {
        Ok(Some(event)) => send_event(link, desk, event),
        Ok(None) => link.kept = None,
        Err(_) => {}
    }
}

/// Sends the event, if the ring has a place for it, and keeps nothing then.
fn send_event(link: &mut Link, desk: &mut PortDesk, event: Event)
    ensures left { link.new.left ≡ link.old.left }
    ensures next { link.new.next ≡ link.old.next }
    ensures events { desk.new.events ≡ desk.old.events }
    ensures outs { desk.new.outs ≡ desk.old.outs }
    ensures taken { desk.new.taken ≡ desk.old.taken }
    ensures sent { ((link.new.kept ≡ None) × (desk.new.sent ≡ desk.old.sent ++ event ∷ [])) ⊎ ((link.new.kept ≡ link.old.kept) × (desk.new.sent ≡ desk.old.sent)) }
{
    match desk.send(event) {
        Ok(()) => link.kept = None,
        Err(Full(_)) => {}
    }
}

/// One tick passes at the next unit, and the report that it answers with is kept.
fn tick_next<D: UnitDriver>(link: &mut Link, units: &mut Simulator<D>, cell: &CellUnits)
    requires knows { KnowsUnits cell.now link.old }
    requires none { link.old.kept ≡ None }
    ensures knows { KnowsUnits cell.now link.new }
    ensures left { link.new.left ≡ link.old.left }
    ensures links { (desk : DeskState) → Links D.command_gives D.tick_gives cell.now (linked cell.now link.old desk units.old) (linked cell.now link.new desk units.new) }
{
    let unit = link.next;
    link.kept = tick_unit(units, cell, unit);
    link.next = unit_after(cell, unit);
}

/// One tick passes at the unit. Returns its answer, if that is to be reported.
fn tick_unit<D: UnitDriver>(units: &mut Simulator<D>, cell: &CellUnits, unit: u16) -> Option<Answer>
    requires { unit < length (units_of cell.now) }
    ensures ticks { TicksUnit D.tick_gives cell.now unit units.old result units.new }
    ensures unit { IfSome result (λ kept. kept.unit ≡ unit) }
{
    match units.tick(unit) {
        Some((phase, word)) => report_kept(cell, Answer { unit, phase, word }),
        None => None,
    }
}

/// The answer, if the unit has a phase with that number.
fn report_kept(cell: &CellUnits, answer: Answer) -> Option<Answer>
    requires { answer.unit < length (units_of cell.now) }
    ensures kept { kept_in cell.now result ≡ event_list (report_in cell.now answer.unit (Some (answer.phase, answer.word))) }
    ensures unit { IfSome result (λ kept. kept.unit ≡ answer.unit) }
{
    match cell.phase_name(answer.unit, answer.phase) {
        Some(_) => Some(answer),
        None => None,
    }
}

/// The unit that comes after this one, in turn.
fn unit_after(cell: &CellUnits, unit: u16) -> u16
    requires { unit < length (units_of cell.now) }
    ensures value { result ≡ unit_after (length (units_of cell.now)) unit }
    ensures known { result < length (units_of cell.now) }
{
    if unit + 1 < cell.units() { unit + 1 } else { 0 }
}
