//! A desk, and the queue of the lines that are due to it and not yet sent.
ghost use Rattle.std.specs.Prelude.{◌≡◌, List, ℕ, [], ◌∷◌, ◌++◌, filter, false};
ghost use Rattle.batch_wire.specs.Transcript.{whole_lines};
ghost use Rattle.batch_serve.specs.Dues.{is_due};
ghost use Rattle.batch_serve.specs.Waits.{IsAccount, nothing_waits};
ghost use Rattle.batch_serve.specs.Told.{AreDesksTold, IsDeskTold};

use crate::desk_queue::DeskQueue;
use crate::desks_fault::CutReason;
use crate::line::DeskLine;
use crate::run::Run;
use crate::sorting::is_due;
use batch_text::Name;
use batch_wire::line_feed;
use std::alloc::Global;

/// A desk, which is a console or the link of a unit, without its paths and its threads.
#[derive(Drop)]
pub struct ServedDesk {
    /// The unit of which it sees the starts and sends. A console, which has none, sees each move.
    pub unit: Option<Name>,
    /// The lines queued for it.
    pub waiting: DeskQueue<DeskLine>,
    /// Why the server cut it, if it did.
    pub why: Option<CutReason>,
}

impl ServedDesk {
    /// A desk with an empty queue. So many lines may be queued for it.
    // claim: new desks
    pub fn new(alloc: Global, unit: Option<Name>, lag: usize) -> ServedDesk
        ensures unit { result.unit ≡ unit }
        ensures waiting { result.waiting ≡ nothing_waits lag }
        ensures why { result.why ≡ None }
    {
        ServedDesk {
            unit,
            waiting: DeskQueue::new(alloc, lag),
            why: None,
        }
    }

    /// Whether it is cut. Then its queue is empty, and the lines that it sends are dropped.
    pub fn is_cut(&self) -> bool
        ensures { result ≡ self.now.waiting.is_cut }
    {
        self.waiting.is_cut()
    }

    /// Queues a line, if it is due. If there is no memory for the line, the desk is cut.
    fn queue_line(&mut self, alloc: Global, line: &[u8], is_own: bool)
        ensures unit { self.new.unit ≡ self.old.unit }
        ensures cut { self.new.waiting.is_cut ≡ false → self.old.waiting.is_cut ≡ false }
        ensures account { (all told : List (List ℕ)) → IsAccount all told self.old.waiting
            → IsAccount (all ++ filter (is_due is_own self.old.unit) (line.now ∷ [])) told self.new.waiting }
    {
        if !is_due(line, is_own, &self.unit) {
            return;
        }
        match DeskLine::new(alloc, line) {
            Ok(copy) => {
                if self.waiting.push(copy).is_err() {
                    self.why = Some(CutReason::Memory);
                }
            }
            Err(_) => {
                self.waiting.cut();
                self.why = Some(CutReason::Memory);
            }
        }
    }

    /// Queues those lines of a text that are due to it. The text answers its own lines or another desk's.
    fn queue_lines(&mut self, alloc: Global, text: &[u8], is_own: bool)
        ensures unit { self.new.unit ≡ self.old.unit }
        ensures cut { self.new.waiting.is_cut ≡ false → self.old.waiting.is_cut ≡ false }
        ensures account { (all told : List (List ℕ)) → IsAccount all told self.old.waiting
            → IsAccount (all ++ filter (is_due is_own self.old.unit) (whole_lines text.now)) told self.new.waiting }
    {
        let mut rest = text;
        while let Some(at) = line_feed(rest) {
            self.queue_line(alloc, &rest[..at], is_own);
            rest = &rest[at + 1..];
        }
    }

    /// Queues those lines of the answers that are due to it, as the desk at this place.
    pub fn queue_answers(&mut self, alloc: Global, answers: &[Run], desk: usize)
        ensures { IsDeskTold desk answers.now self.old self.new }
    {
        for answer in answers {
            let is_own = answer.desk() == desk;
            self.queue_lines(alloc, answer.text(), is_own);
        }
    }
}

/// Queues for each desk those lines of the answers that are due to it.
pub fn queue_for_each(alloc: Global, desks: &mut Vec<ServedDesk>, answers: &[Run])
    ensures { AreDesksTold answers.now desks.old.items desks.new.items }
{
    for desk in 0..desks.len() {
        desks[desk].queue_answers(alloc, answers, desk);
    }
}
