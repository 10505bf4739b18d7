//! Cutting desks, and reporting which are cut.
ghost use Rattle.batch_pipes.specs.Kept.{IsDeskKept};

use crate::fault::{Cut, PipeFault};
use crate::ports::DeskThreads;
use batch_serve::ServedDesk;
use batch_text::Name;
use batch_wire::write_all;
use std::alloc::Global;
use std::io::Write;

/// Cuts a desk whose input or output failed.
#[tactic(auto, using(crate::proofs::DeskChanges::kept_twice))]
pub(crate) fn cut_if_failed(
    desk: &mut ServedDesk,
    own: &mut DeskThreads,
    input: Option<PipeFault>,
    output: Option<PipeFault>,
)
    ensures { IsDeskKept desk.old desk.new }
{
    cut_for(desk, own, input);
    cut_for(desk, own, output);
    if desk.is_cut() {
        own.stop.raise();
    }
}

/// Cuts a desk for a fault, if there is one.
#[tactic(auto, using(crate::proofs::DeskChanges::kept_as_it_is))]
fn cut_for(desk: &mut ServedDesk, own: &mut DeskThreads, fault: Option<PipeFault>)
    ensures { IsDeskKept desk.old desk.new }
{
    if let Some(fault) = fault {
        cut(desk, own, fault);
    }
}

/// Cuts a desk, unless it is cut already.
#[tactic(auto, using(crate::proofs::DeskChanges::kept_as_it_is, crate::proofs::DeskChanges::kept_but_cut))]
fn cut(desk: &mut ServedDesk, own: &mut DeskThreads, fault: PipeFault)
    ensures { IsDeskKept desk.old desk.new }
{
    if desk.is_cut() {
        return;
    }
    desk.waiting.cut();
    own.why = Some(fault);
    own.stop.raise();
}

/// Cuts a desk whose output takes nothing for long, at the end of serving.
#[tactic(auto, using(crate::proofs::DeskChanges::kept_as_it_is))]
pub(crate) fn cut_if_stalled(desk: &mut ServedDesk, own: &mut DeskThreads, ends: bool)
    ensures { IsDeskKept desk.old desk.new }
{
    if ends && own.pace.is_stalled() {
        cut(desk, own, PipeFault::Unread);
    }
}

/// Reports that a desk is cut, if it is and that wasn't reported.
pub(crate) fn report_if_cut<E: Write>(
    alloc: Global,
    desk: &ServedDesk,
    name: Option<&Name>,
    own: &mut DeskThreads,
    errors: &mut E,
) {
    if !desk.is_cut() || own.is_told {
        return;
    }
    own.is_told = true;
    if let Some(name) = name {
        report_cut(alloc, name, why_cut(desk, own), errors);
    }
}

fn why_cut(desk: &ServedDesk, own: &DeskThreads) -> Cut {
    match (own.why, desk.why) {
        (Some(fault), _) => Cut::Pipe(fault),
        (None, Some(reason)) => Cut::Told(reason),
        (None, None) => Cut::Pipe(PipeFault::Over),
    }
}

/// Reports that a desk is cut, and why.
pub(crate) fn report_cut<E: Write>(alloc: Global, name: &Name, why: Cut, errors: &mut E) {
    if let Ok(line) = format!(in alloc; "batchd: desk {name} is cut: {why}\n") {
        let _ = write_all(errors, line.as_bytes());
        let _ = errors.flush();
    }
}
