//! Calls of a hub and of the desks of its ports.
ghost use Rattle.std.specs.Prelude.{◌≡◌};
ghost use Rattle.batch_desk.specs.DeskState.{desk_rings};
ghost use Rattle.batch_desk.specs.HubState.{rings};

use crate::lines::text_of;
use crate::records::event_of;
use crate::words::{event_words, number_of, said, shown, turn_word};
use batch_desk::{Full, Hub, HubFault, PortDesk, PortPlan, Scope, Turned};
use batch_verify::Cleared;
use std::alloc::Global;
use std::test::Fail;

/// A port with all moves in its scope, and so many places in each of its rings.
pub(crate) fn console(places: usize) -> PortPlan {
    PortPlan {
        scope: Scope::All,
        event_places: places,
        out_places: places,
    }
}

/// A port with the scope of a unit: the starts of its phases, and the commands sent to them.
pub(crate) fn link(unit: u16, places: usize) -> PortPlan {
    PortPlan {
        scope: Scope::Unit(unit),
        event_places: places,
        out_places: places,
    }
}

/// The event that came back, if one did.
fn event_back(alloc: Global, sent: &Result<(), Full>) -> Result<String, Fail> {
    match sent {
        Ok(()) => Ok(String::new(alloc)),
        Err(full) => said(alloc, "full", event_words(alloc, &full.0)?.as_str()),
    }
}

/// Sends the event of a line. Returns the event that came back, if one did.
fn send(alloc: Global, desk: &mut PortDesk, line: &str) -> Result<String, Fail>
    ensures { desk_rings desk.new ≡ desk_rings desk.old }
{
    let sent = desk.send(event_of(alloc, line)?);
    event_back(alloc, &sent)
}

/// Takes an out at a desk. Returns its line.
fn next_out(alloc: Global, cleared: &Cleared, desk: &mut PortDesk) -> Result<String, Fail>
    ensures { desk_rings desk.new ≡ desk_rings desk.old }
{
    let out = desk.pop_out();
    text_of(alloc, cleared, out, "nothing\n")
}

/// Sends the event of a line at a desk, or with no line takes an out.
pub(crate) fn at_desk(
    alloc: Global,
    cleared: &Cleared,
    desk: &mut PortDesk,
    line: &str,
) -> Result<String, Fail>
    ensures { desk_rings desk.new ≡ desk_rings desk.old }
{
    match line {
        "" => next_out(alloc, cleared, desk),
        _ => send(alloc, desk, line),
    }
}

/// Makes a call at one of the desks, given as `PORT LINE` or `PORT`. The first of them is the desk of this port.
pub(crate) fn at_desks(
    alloc: Global,
    cleared: &Cleared,
    desks: &mut Vec<PortDesk>,
    first: usize,
    words: &str,
) -> Result<String, Fail> {
    let (port, line) = number_of(words)?;
    match desks.get_mut(usize::from(port).wrapping_sub(first)) {
        Some(desk) => at_desk(alloc, cleared, desk, line),
        None => Err(Fail::from("no such desk")),
    }
}

/// One turn. All that is said of it here is that the rings stay.
fn turn(hub: &mut Hub, port: usize) -> Result<Turned, HubFault>
    ensures { rings hub.new ≡ rings hub.old }
{
    hub.turn(port)
}

/// How a turn ended.
fn turn_told(alloc: Global, turned: Result<Turned, HubFault>) -> Result<String, Fail> {
    match turned {
        Ok(turned) => said(alloc, "turn", turn_word(turned)),
        Err(fault) => shown(alloc, "turn", &fault),
    }
}

/// Makes a call at a port of the hub, or answers a question about it.
fn at_port(alloc: Global, hub: &mut Hub, word: &str, port: usize) -> Result<String, Fail>
    ensures { rings hub.new ≡ rings hub.old }
{
    match word {
        "turn" => turn_told(alloc, turn(hub, port)),
        "cut" => shown(alloc, word, &hub.cut(port)),
        _ => asked(alloc, hub, word, port),
    }
}

/// Makes a call at the hub, or answers a question about it.
pub(crate) fn at_hub(alloc: Global, hub: &mut Hub, word: &str, port: &str) -> Result<String, Fail>
    ensures { rings hub.new ≡ rings hub.old }
{
    let (port, _) = number_of(port)?;
    at_port(alloc, hub, word, usize::from(port))
}

/// Answers a question about a hub: how many outs wait for a port, how many events were taken, and how many outs the record has.
fn asked(alloc: Global, hub: &Hub, word: &str, port: usize) -> Result<String, Fail> {
    match word {
        "waiting" => shown(alloc, word, &hub.waiting(port)),
        "history" => shown(alloc, word, &hub.history().len()),
        "record" => shown(alloc, word, &hub.record().len()),
        _ => Err(Fail::from("no such word")),
    }
}
