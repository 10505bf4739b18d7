//! A line for a desk.
ghost use Rattle.std.specs.Prelude.{◌≡◌, IfOk};

use std::alloc::{AllocError, Global};
use std::marker::Model;

/// A line without its line feed. A contract sees it as the list of its bytes.
#[derive(Drop)]
pub struct DeskLine {
    text: Vec<u8>,
}

impl Model for DeskLine {
    ghost use Rattle.std.specs.Prelude.{ℕ, List};

    ghost Value = { List ℕ };

    ghost view = { λ line. line.text.items };
}

impl DeskLine {
    /// A copy of a line.
    ///
    /// The error is that there is no memory for it.
    pub fn new(alloc: Global, text: &[u8]) -> Result<DeskLine, AllocError>
        ensures { IfOk result (λ line. line ≡ text.now) }
    {
        Ok(DeskLine {
            text: text.to_vec(alloc)?,
        })
    }

    /// The bytes of the line.
    pub fn as_slice(&self) -> &[u8]
        ensures { result.now ≡ self.now }
    {
        &self.text
    }
}
