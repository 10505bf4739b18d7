//! Rounds: lines go from the readers of desks to the next turn, and from the queues of desks to their writers.
ghost use Rattle.std.specs.Prelude.{◌≡◌, ◌<◌, ◌≤◌, ℕ, length, get_or, OnOk};
ghost use Rattle.batch_serve.specs.Rounds.{AreCutIfLate, AreGathered, AreHandedOn, IsCutIfLate, IsGathered, IsHandedOn, IsHandedOver};
ghost use Rattle.batch_serve.specs.Runs.{AreOfDesks, own_text};
ghost use Rattle.batch_serve.specs.Turns.{IsSameBut};
ghost use Rattle.batch_serve.specs.declared.desk.ServedDesk.{ServedDesk as OneDesk};

use crate::desk::ServedDesk;
use crate::desk_server::DeskServer;
use crate::desks_fault::CutReason;
use crate::line::DeskLine;
use rtrb::{Consumer, Producer, Protocol};
use std::alloc::{AllocError, Global};
use std::marker::Model;

/// Whole lines. A contract sees them as the list of their bytes.
#[derive(Drop)]
pub struct Lines {
    text: Vec<u8>,
}

impl Model for Lines {
    ghost use Rattle.std.specs.Prelude.{ℕ, List};

    ghost Value = { List ℕ };

    ghost view = { λ lines. lines.text.items };
}

impl Lines {
    /// The lines of a text.
    pub fn new(text: Vec<u8>) -> Lines
        ensures { result ≡ text.items }
    {
        Lines { text }
    }

    /// The text of the lines.
    pub fn into_text(self) -> Vec<u8>
        ensures { result.items ≡ self }
    {
        self.text
    }

    /// The text of the lines.
    pub fn as_slice(&self) -> &[u8]
        ensures { result.now ≡ self.now }
    {
        &self.text
    }
}

/// A message from the reader of a desk.
#[derive(Drop)]
pub enum ReaderMessage {
    /// The path of the desk's input, if it has one. The maker of the ring sends it first. No code looks at it: by it the ring's
    /// protocol knows the input.
    Path(Option<String>),
    /// Whole lines that the desk sent.
    Lines(Lines),
    /// Nothing more comes.
    End,
}

/// The ring through which a desk's reader sends its messages. Its protocol states their order.
#[derive(Drop)]
pub struct Reader<O: Protocol<ReaderMessage>> {
    /// The ring.
    pub ring: Consumer<ReaderMessage, Global, O>,
    /// Whether the end came.
    pub has_ended: bool,
    /// Whether nothing is to be taken from it for now.
    pub rests: bool,
}

/// The ring through which a desk's writer receives its lines.
#[derive(Drop)]
pub struct Writer {
    /// The ring.
    pub ring: Producer<DeskLine>,
}

impl DeskServer {
    /// Receives the next message, if there is one, from each reader that doesn't rest. The lines of a desk that is cut are dropped.
    ///
    /// The error is that there is no memory for one run more. The message is lost then, and serving must end.
    // claim: lines from readers
    pub fn gather<O: Protocol<ReaderMessage>>(
        &mut self,
        readers: &mut Vec<Reader<O>>,
    ) -> Result<(), AllocError>
        requires { length readers.old.items ≤ length self.old.desks.items }
        ensures same { IsSameBut self.old self.new }
        ensures gathered { OnOk result (AreGathered O.allows self.old.desks.items readers.old.items readers.new.items self.old.group.items self.new.group.items) }
    {
        for desk in 0..readers.len() {
            self.gather_one(desk, &mut readers[desk])?;
        }
        Ok(())
    }

    /// Receives the next message, if there is one, from the reader of a desk, if it doesn't rest.
    #[tactic(auto, using(crate::proofs::DeskLines::lines_gathered, crate::proofs::DeskLines::no_line_gathered, crate::proofs::DeskLines::end_gathered, crate::proofs::DeskLines::nothing_gathered))]
    fn gather_one<O: Protocol<ReaderMessage>>(
        &mut self,
        desk: usize,
        reader: &mut Reader<O>,
    ) -> Result<(), AllocError>
        requires { desk < length self.old.desks.items }
        ensures same { IsSameBut self.old self.new }
        ensures gathered { OnOk result ((other : OneDesk) → IsGathered O.allows desk (get_or self.old.desks.items desk other).waiting.is_cut reader.old reader.new self.old.group.items self.new.group.items) }
        ensures others { (other : ℕ) → (other ≡ desk → ⊥) → own_text other self.new.group.items ≡ own_text other self.old.group.items }
        ensures of_desks { AreOfDesks (length self.old.desks.items) self.old.group.items → AreOfDesks (length self.old.desks.items) self.new.group.items }
    {
        if reader.rests {
            return Ok(());
        }
        match reader.ring.pop() {
            Ok(ReaderMessage::Lines(lines)) => self.push_lines(desk, lines.into_text())?,
            Ok(ReaderMessage::End) => reader.has_ended = true,
            Ok(ReaderMessage::Path(_path)) => {}
            Err(_) => {}
        }
        Ok(())
    }

    /// Moves the lines queued for each desk into its writer's ring, as far as there is place. A desk for which more lines are then
    /// queued than may be is cut.
    pub fn hand_on(&mut self, writers: &mut Vec<Writer>)
        requires { length writers.old.items ≤ length self.old.desks.items }
        // claim: lines to writers
        ensures handed { IsHandedOver self.old self.new writers.old.items writers.new.items }
        // claim: late desks
        ensures late { AreCutIfLate self.old.desks.items self.new.desks.items writers.old.items writers.new.items }
    {
        hand_on_each(&mut self.desks, writers);
    }
}

fn hand_on_each(desks: &mut Vec<ServedDesk>, writers: &mut Vec<Writer>)
    requires { length writers.old.items ≤ length desks.old.items }
    ensures handed { AreHandedOn desks.old.items desks.new.items writers.old.items writers.new.items }
    ensures late { AreCutIfLate desks.old.items desks.new.items writers.old.items writers.new.items }
{
    for desk in 0..writers.len() {
        let writer = &mut writers[desk];
        hand_on(&mut desks[desk], writer);
    }
}

#[tactic(auto, using(crate::proofs::DeskLines::cut_where_late))]
fn hand_on(desk: &mut ServedDesk, writer: &mut Writer)
    ensures handed { IsHandedOn desk.old desk.new writer.old writer.new }
    ensures late { IsCutIfLate desk.old desk.new writer.old writer.new }
{
    desk.waiting.hand_on(&mut writer.ring);
    if desk.waiting.cut_if_late() {
        desk.why = Some(CutReason::Lag);
    }
}
