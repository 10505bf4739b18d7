//! The forms around a token, the innermost last.
ghost use Rattle.std.specs.Prelude.{◌≡◌, ◌∷◌, [], OnOk, MatchOption};
ghost use Rattle.batch_reader.specs.ChartView.{frame_view, frames_view};

use crate::frame::Frame;
use std::alloc::AllocError;

/// Pushes the frame on the stack.
#[tactic(auto, using(crate::proofs::ChartFrames::frames_view_last))]
pub fn push(stack: &mut Vec<Frame>, frame: Frame) -> Result<(), AllocError>
    ensures { OnOk result (frames_view stack.new.items ≡ frame_view frame ∷ frames_view stack.old.items) }
{
    stack.push(frame)?;
    Ok(())
}

/// Pops the innermost frame from the stack.
#[tactic(auto, using(crate::proofs::ChartFrames::frames_view_last, crate::proofs::ChartFrames::frames_view_nil))]
pub fn pop(stack: &mut Vec<Frame>) -> Option<Frame>
    ensures { MatchOption result (frames_view stack.old.items ≡ []) (λ frame. frames_view stack.old.items ≡ frame_view frame ∷ frames_view stack.new.items) }
{
    stack.pop()
}
