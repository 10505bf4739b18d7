//! Room for one line, so that its writer gets it in one piece.
ghost use Rattle.std.specs.Prelude.{◌≡◌, ◌≤◌, [], Some, take};

use std::io::{Result, Write};

/// The most bytes that wait to be written. Few lines are longer.
pub(crate) const FULL: usize = 3456;

/// Room for a line more, and for what is copied beyond its end.
const ROOM: usize = FULL + 640;

/// A writer like any other, whose contents wait to be written. A piece that finds no room is refused.
#[derive(Drop)]
pub(crate) struct LineRoom {
    pub(crate) len: usize,
    pub(crate) bytes: [u8; ROOM],
    ghost few: { len ≤ 3456 },
}

impl LineRoom {
    pub(crate) fn new() -> LineRoom {
        LineRoom {
            len: 0,
            bytes: [0; ROOM],
        }
    }

    /// Empties the room.
    #[inline(always)]
    pub(crate) fn clear(&mut self)
        ensures { take self.new.len self.new.bytes ≡ [] }
    {
        self.len = 0;
    }

    /// The text that was written since it was cleared.
    #[inline(always)]
    pub(crate) fn line(&self) -> &[u8]
        ensures { result.now ≡ take self.now.len self.now.bytes }
    {
        &self.bytes[..self.len]
    }
}

impl Write for LineRoom {
    ghost contents = { λ room. Some (take room.len room.bytes) };

    #[inline(always)]
    fn write(&mut self, piece: &[u8]) -> Result<usize> {
        let start = self.len;
        let end = start + piece.len();
        if end > FULL {
            return Ok(0);
        }
        match piece {
            // One byte needs no call.
            [byte] => self.bytes[start] = *byte,
            _ => self.bytes[start..end].copy_from_slice(piece),
        }
        self.len = end;
        Ok(piece.len())
    }

    fn flush(&mut self) -> Result<()> {
        Ok(())
    }
}
