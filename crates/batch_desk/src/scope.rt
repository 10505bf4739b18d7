//! The moves that are sent to a port.
ghost use Rattle.std.specs.Prelude.{◌≡◌};
ghost use Rattle.batch_desk.specs.Due.{sees};

use batch_engine::Line;

/// The moves that are sent to a port, beside the replies to its own events.
#[derive(Clone, Copy)]
pub enum Scope {
    /// Every move, as for a console.
    All,
    /// The moves on the phases of the unit with this number, as for an equipment link: their starts, and the commands sent to them.
    Unit(u16),
}

impl Scope {
    /// Whether the move is sent to a port of this scope.
    pub(crate) fn sees(self, line: Line) -> bool
        ensures { result ≡ sees self line }
    {
        match self {
            Scope::All => true,
            Scope::Unit(mine) => match line {
                Line::Send { unit, .. } | Line::Start { unit, .. } => mine == unit,
                Line::State { .. }
                | Line::Begin { .. }
                | Line::End { .. }
                | Line::Pass { .. }
                | Line::Claim { .. } => false,
            },
        }
    }
}
