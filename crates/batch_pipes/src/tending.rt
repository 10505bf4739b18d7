//! Between turns: desks whose pipes failed are cut, and desks for which lines are queued aren't read.
ghost use Rattle.std.specs.Prelude.{◌≡◌, ◌||◌, true, false, IsTrue};
ghost use Rattle.batch_serve.specs.Rounds.{AreHandedOn, IsHandedOn, IsHandedOver};
ghost use Rattle.batch_pipes.specs.Kept.{AreDone, AreReadersKept, ArePortsOf, IsDone, IsReaderKept};
ghost use Rattle.batch_pipes.specs.OutputEnds.{IsHandedBack};
ghost use Rattle.batch_pipes.specs.Outputs.{AreOutputsKept, AreOutputsOf, IsOutputKept, IsOutputOf};

use crate::cutting::{cut_if_failed, cut_if_stalled, report_if_cut};
use crate::dropping::drop_unseen;
use crate::input_order::InputOrder;
use crate::output::Output;
use crate::pace::lines_left;
use crate::pipes::{Outputs, Pipes};
use crate::ports::{DeskThreads, Ports};
use batch_serve::{DeskServer, Reader, ReaderMessage, ServedDesk, Writer};
use batch_text::Name;
use rtrb::Protocol;
use std::alloc::Global;
use std::io::Write;
use std::thread::Threads;

/// The lines that are still to come, from desks and to them.
#[derive(Clone, Copy)]
pub(crate) struct Outlook {
    /// A desk may send more.
    pub(crate) sends: bool,
    /// Lines are on their way to a desk.
    pub(crate) waits: bool,
    /// Lines are on their way to a desk whose output goes on.
    pub(crate) goes: bool,
}

impl Outlook {
    /// Nothing is still to come.
    pub(crate) fn nothing() -> Outlook {
        Outlook {
            sends: false,
            waits: false,
            goes: false,
        }
    }

    /// Whether nothing is still to come.
    pub(crate) fn is_over(self) -> bool
        ensures { IsTrue result → (self.sends ≡ false) × (self.waits ≡ false) }
    {
        !self.sends && !self.waits
    }

    fn with(self, other: Outlook) -> Outlook
        ensures sends { result.sends ≡ (self.sends || other.sends) }
        ensures waits { result.waits ≡ (self.waits || other.waits) }
    {
        Outlook {
            sends: self.sends || other.sends,
            waits: self.waits || other.waits,
            goes: self.goes || other.goes,
        }
    }
}

/// Cuts the desks whose pipes failed, and at the end those that take nothing, and reports which are cut.
// claim: a round of desks
pub(crate) fn tend_desks<T: Threads, O: Write + Drop, P: Pipes + Outputs<O> + Drop, E: Write>(
    threads: &T,
    alloc: Global,
    server: &mut DeskServer,
    ports: &mut Ports<P>,
    outputs: &mut Vec<Output<O, P>>,
    ends: bool,
    errors: &mut E,
) -> Outlook
    requires ports { ArePortsOf server.old.desks.items ports.old }
    requires outputs { AreOutputsOf (IsHandedBack O.contents P.stands P.hands_back) outputs.old.items ports.old.writers.items }
    ensures ports { ArePortsOf server.new.desks.items ports.new }
    ensures desks { IsHandedOver server.old server.new ports.old.writers.items ports.new.writers.items }
    ensures readers { AreReadersKept ports.old.readers.items ports.new.readers.items }
    ensures outputs { AreOutputsKept (IsHandedBack O.contents P.stands P.hands_back) outputs.old.items outputs.new.items ports.new.writers.items }
    // claim: end of desks
    ensures done { result.sends ≡ false → result.waits ≡ false → AreDone server.new.desks.items ports.new.readers.items }
{
    tend_each(
        threads,
        alloc,
        &server.names,
        &mut server.desks,
        ports,
        outputs,
        ends,
        errors,
    )
}

fn tend_each<T: Threads, O: Write + Drop, P: Pipes + Outputs<O> + Drop, E: Write>(
    threads: &T,
    alloc: Global,
    names: &[Name],
    desks: &mut Vec<ServedDesk>,
    ports: &mut Ports<P>,
    outputs: &mut Vec<Output<O, P>>,
    ends: bool,
    errors: &mut E,
) -> Outlook
    requires ports { ArePortsOf desks.old.items ports.old }
    requires outputs { AreOutputsOf (IsHandedBack O.contents P.stands P.hands_back) outputs.old.items ports.old.writers.items }
    ensures ports { ArePortsOf desks.new.items ports.new }
    ensures desks { AreHandedOn desks.old.items desks.new.items ports.old.writers.items ports.new.writers.items }
    ensures readers { AreReadersKept ports.old.readers.items ports.new.readers.items }
    ensures outputs { AreOutputsKept (IsHandedBack O.contents P.stands P.hands_back) outputs.old.items outputs.new.items ports.new.writers.items }
    ensures done { result.sends ≡ false → result.waits ≡ false → AreDone desks.new.items ports.new.readers.items }
{
    let mut outlook = Outlook::nothing();
    for at in 0..desks.len() {
        let output = &mut outputs[at];
        let own = &mut ports.threads[at];
        let reader = &mut ports.readers[at];
        let writer = &mut ports.writers[at];
        let desk = &mut desks[at];
        let other = tend(threads, desk, own, output, reader, writer, ends);
        report_if_cut(alloc, desk, names.get(at), own, errors);
        outlook = outlook.with(other);
    }
    outlook
}

/// Joins the threads of a desk that are done, cuts the desk if its pipes failed, and returns its outlook. While lines are queued for it, it
/// isn't read, unless its output takes nothing for long.
// claim: desks between turns
fn tend<T: Threads, O: Write + Drop, P: Pipes + Outputs<O> + Drop>(
    threads: &T,
    desk: &mut ServedDesk,
    own: &mut DeskThreads,
    output: &mut Output<O, P>,
    reader: &mut Reader<InputOrder<P>>,
    writer: &mut Writer,
    ends: bool,
) -> Outlook
    requires { IsOutputOf (IsHandedBack O.contents P.stands P.hands_back) output.old writer.old }
    ensures desk { IsHandedOn desk.old desk.new writer.old writer.new }
    ensures reader { IsReaderKept reader.old reader.new }
    ensures output { IsOutputKept (IsHandedBack O.contents P.stands P.hands_back) output.old output.new writer.new }
    ensures done { result.sends ≡ false → result.waits ≡ false → IsDone desk.new reader.new }
{
    drop_unseen(desk, &mut output.unseen, writer);
    let left = lines_left(desk, writer);
    own.pace.record_lines_left(left);
    let fault = own.input.poll(threads, reader);
    output.join_if_done(threads);
    cut_if_failed(desk, own, fault, output.fault());
    cut_if_stalled(desk, own, ends);
    reader.rests = is_to_rest(desk, own);
    outlook_of(desk, own, reader, left)
}

/// Whether a desk isn't to be read for now.
fn is_to_rest(desk: &ServedDesk, own: &DeskThreads) -> bool {
    desk.waiting.len() > 0 && !own.pace.is_stalled()
}

/// The outlook of a desk to which so many lines are on their way.
fn outlook_of<O: Protocol<ReaderMessage>>(
    desk: &ServedDesk,
    own: &DeskThreads,
    reader: &Reader<O>,
    left: usize,
) -> Outlook
    ensures sends { result.sends ≡ false → desk.now.waiting.is_cut ≡ false → reader.now.has_ended ≡ true }
    ensures waits { result.waits ≡ false → desk.now.waiting.is_cut ≡ false → left ≡ 0 }
{
    if desk.is_cut() {
        return Outlook::nothing();
    }
    let waits = left > 0;
    Outlook {
        sends: !reader.has_ended,
        waits,
        goes: waits && !own.pace.is_stalled(),
    }
}
