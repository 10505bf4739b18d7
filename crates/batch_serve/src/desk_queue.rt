//! The queue of a desk.
ghost use Rattle.std.specs.Prelude.{◌≡◌, ◌⊎◌, ◌≤◌, ◌↔◌, List, [], ◌∷◌, ◌++◌, length, false, option_to_list, OnOk, OnErr, IsNone, IsTrue, IsFalse};
ghost use Rattle.rtrb.specs.Ring.{sent, known_free, SameProducer};
ghost use Rattle.batch_serve.specs.Waits.{IsAccount, IsLate, cut_off, nothing_waits, pushed};

use rtrb::Producer;
use std::alloc::{AllocError, Global};
use std::collections::VecDeque;
use std::marker::Model;

/// The lines queued for a desk, in order. If more are queued than may be, the desk can be cut: its queue is emptied, and stays empty.
/// So a slow desk takes no more memory than these lines.
#[derive(Drop)]
pub struct DeskQueue<T: Drop> {
    lines: VecDeque<T>,
    lag: usize,
    cut: bool,
}

impl<T: Drop> Model for DeskQueue<T> {
    ghost use Rattle.std.specs.Prelude.{◌≡◌, length, true};
    ghost use Rattle.batch_serve.specs.Waits.{Waits};

    ghost Value = { Waits T };

    ghost view = { λ w. record { lines = w.lines.items; lag = w.lag; is_cut = w.cut } };

    ghost invariant = { λ w. w.cut ≡ true → length w.lines.items ≡ 0 };
}

impl<T: Drop> DeskQueue<T> {
    /// The empty queue of a desk for which so many lines may be queued.
    // claim: new desks
    pub fn new(alloc: Global, lag: usize) -> DeskQueue<T>
        ensures value { result ≡ nothing_waits lag }
        ensures account { IsAccount [] [] result }
    {
        DeskQueue {
            lines: VecDeque::new(alloc),
            lag,
            cut: false,
        }
    }

    /// How many lines are queued.
    pub fn len(&self) -> usize
        ensures { result ≡ length self.now.lines }
    {
        self.lines.len()
    }

    /// Whether the desk is cut. Then the queue is empty.
    pub fn is_cut(&self) -> bool
        ensures { result ≡ self.now.is_cut }
    {
        self.cut
    }

    /// Queues a line. If the desk is cut, the line is dropped.
    ///
    /// The error is that there is no memory for it. The desk is cut then.
    // claim: waiting for a desk
    #[tactic(auto, using(crate::proofs::Accounts::account_pushed, crate::proofs::Accounts::account_lost))]
    pub fn push(&mut self, line: T) -> Result<(), AllocError>
        ensures ok { OnOk result (self.new ≡ pushed line self.old) }
        ensures cut { OnErr result ((self.old.is_cut ≡ false) × (self.new ≡ cut_off self.old)) }
        // For any history of the queue.
        ensures account { (all told : List T) → IsAccount all told self.old → IsAccount (all ++ line ∷ []) told self.new }
    {
        if self.cut {
            return Ok(());
        }
        match self.lines.push_back(line) {
            Ok(()) => Ok(()),
            Err(_) => {
                self.cut();
                Err(AllocError)
            }
        }
    }

    /// Cuts the desk if more lines are queued than may be. Returns whether it did.
    // claim: waiting for a desk
    #[tactic(auto, using(crate::proofs::Accounts::account_cut))]
    pub fn cut_if_late(&mut self) -> bool
        ensures late { IsTrue result ↔ IsLate self.old }
        ensures cut { IsTrue result → self.new ≡ cut_off self.old }
        ensures stays { IsFalse result → self.new ≡ self.old }
        ensures few { length self.new.lines ≤ self.new.lag }
        ensures account { (all told : List T) → IsAccount all told self.old → IsAccount all told self.new }
    {
        if self.lines.len() <= self.lag {
            return false;
        }
        self.cut();
        true
    }

    /// Cuts the desk.
    // claim: waiting for a desk
    #[tactic(auto, using(crate::proofs::Accounts::account_cut))]
    pub fn cut(&mut self)
        ensures value { self.new ≡ cut_off self.old }
        ensures account { (all told : List T) → IsAccount all told self.old → IsAccount all told self.new }
    {
        self.lines.clear();
        self.cut = true;
    }

    /// Removes the line that was queued first, and returns it.
    // claim: waiting for a desk
    #[tactic(auto, using(crate::proofs::Accounts::account_front))]
    pub fn pop(&mut self) -> Option<T>
        ensures lines { self.old.lines ≡ option_to_list result ++ self.new.lines }
        ensures none { IsNone result ↔ (self.old.lines ≡ []) }
        ensures lag { self.new.lag ≡ self.old.lag }
        ensures same_cut { self.new.is_cut ≡ self.old.is_cut }
        ensures account { (all told : List T) → IsAccount all told self.old → IsAccount all (told ++ option_to_list result) self.new }
    {
        self.lines.pop_front()
    }

    /// Puts as many of the lines into the ring as there is place for.
    // claim: waiting for a desk
    #[tactic(auto, using(crate::proofs::Accounts::account_handed))]
    pub fn hand_on(&mut self, ring: &mut Producer<T>)
        ensures ring { SameProducer ring.old ring.new }
        ensures order { sent ring.new ++ self.new.lines ≡ sent ring.old ++ self.old.lines }
        ensures most { (self.new.lines ≡ []) ⊎ (known_free ring.new ≡ 0) }
        ensures lag { self.new.lag ≡ self.old.lag }
        ensures same_cut { self.new.is_cut ≡ self.old.is_cut }
        ensures account { (all : List T) → IsAccount all (sent ring.old) self.old → IsAccount all (sent ring.new) self.new }
    {
        put_waiting(ring, &mut self.lines);
    }
}

/// Puts as many of the lines into the ring as there is place for.
fn put_waiting<T: Drop>(ring: &mut Producer<T>, lines: &mut VecDeque<T>)
    ensures ring { SameProducer ring.old ring.new }
    ensures order { sent ring.new ++ lines.new.items ≡ sent ring.old ++ lines.old.items }
    ensures most { (lines.new.items ≡ []) ⊎ (known_free ring.new ≡ 0) }
    ensures fewer { length lines.new.items ≤ length lines.old.items }
{
    while !lines.is_empty() && !ring.is_full() {
        if let Some(line) = lines.pop_front() {
            ring.push_reserved(line);
        }
    }
}
