//! The lines of desks that have no output.
ghost use Rattle.batch_serve.specs.Rounds.{IsHandedOn};

use batch_serve::{DeskLine, ServedDesk, Writer};
use rtrb::Consumer;

/// Drops the lines queued for a desk that has no output.
#[tactic(auto, using(crate::proofs::DeskChanges::handed_nothing))]
pub(crate) fn drop_unseen(
    desk: &mut ServedDesk,
    unseen: &mut Option<Consumer<DeskLine>>,
    writer: &mut Writer,
)
    ensures { IsHandedOn desk.old desk.new writer.old writer.new }
{
    if let Some(ring) = unseen {
        drop_all(desk, writer, ring);
    }
}

#[tactic(auto, using(crate::proofs::DeskChanges::handed_nothing))]
fn drop_all(desk: &mut ServedDesk, writer: &mut Writer, ring: &mut Consumer<DeskLine>)
    ensures { IsHandedOn desk.old desk.new writer.old writer.new }
{
    for _ in 0..u64::MAX {
        empty(ring);
        if desk.waiting.len() == 0 {
            return;
        }
        desk.waiting.hand_on(&mut writer.ring);
    }
}

fn empty(ring: &mut Consumer<DeskLine>) {
    for _ in 0..u64::MAX {
        if ring.pop().is_err() {
            return;
        }
    }
}
