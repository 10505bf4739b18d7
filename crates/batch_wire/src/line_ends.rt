//! The ends of lines.
ghost use Rattle.std.specs.Prelude.{MatchOption};
ghost use Rattle.batch_wire.specs.LineEnds.{EndsLine, HasNoFeed};

use memchr::memchr;

/// The position of the first line feed. None if no line ends in the bytes.
// claim: first line feed
pub fn line_feed(bytes: &[u8]) -> Option<usize>
    ensures { MatchOption result (HasNoFeed bytes.now) (λ at. EndsLine at bytes.now) }
{
    memchr(b'\n', bytes)
}
