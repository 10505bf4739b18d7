//! Whether the output of a desk goes on.
ghost use Rattle.std.specs.Prelude.{◌≡◌, []};
ghost use Rattle.rtrb.specs.Ring.{SameProducer, sent};

use batch_serve::{ServedDesk, Writer};

/// How many rounds serving waits for an output that takes nothing: at its end, and before the output's desk is read on. A round in
/// which lines are on their way takes a pause, of a millisecond.
pub(crate) const PATIENCE: u32 = 10_000;

/// How the output of a desk goes on.
#[derive(Clone, Copy)]
pub(crate) struct Pace {
    // how many lines were on their way after the last round
    left: usize,
    // for how many rounds they haven't become fewer
    stalls: u32,
}

impl Pace {
    pub(crate) fn new() -> Pace {
        Pace { left: 0, stalls: 0 }
    }

    /// Notes that so many lines are on their way.
    pub(crate) fn record_lines_left(&mut self, left: usize) {
        if left == 0 || left < self.left {
            self.stalls = 0;
        } else {
            self.stalls = self.stalls.saturating_add(1);
        }
        self.left = left;
    }

    /// Whether it has taken nothing for long.
    pub(crate) fn is_stalled(&self) -> bool {
        self.stalls >= PATIENCE
    }
}

/// How many lines are on their way to a desk: those queued for it, and those in the ring of its writer.
#[tactic(auto, using(crate::proofs::DeskRings::nothing_left))]
pub(crate) fn lines_left(desk: &ServedDesk, writer: &mut Writer) -> usize
    ensures ring { SameProducer writer.old.ring writer.new.ring }
    ensures went { sent writer.new.ring ≡ sent writer.old.ring }
    ensures none { result ≡ 0 → desk.now.waiting.lines ≡ [] }
{
    let places = writer.ring.capacity();
    let free = writer.ring.slots();
    desk.waiting
        .len()
        .saturating_add(places.saturating_sub(free))
}
