//! A writer of a record with comments.
ghost use Rattle.std.specs.Prelude.{◌≡◌, ◌≢◌, true, false, OnOk, IsTrue};
ghost use Rattle.std.specs.List.{list_all};
ghost use Rattle.std.specs.Io.KnownBytes.{Appends, Keeps};
ghost use Rattle.batch_serve.specs.Comments.{IsRemarked, next_spot, spot_behind};
ghost use Rattle.batch_serve.specs.Remarking.{IsCommentPart, is_plain, EndsAtSpot, uncommented};

use crate::held::Start;
use batch_wire::{WriteFault, write_all};
use memchr::memchr;
use std::io;
use std::io::{ErrorKind, Write};
use std::marker::PhantomData;

/// The spot at which a text ends.
#[derive(Clone, Copy)]
pub enum TextSpot {
    /// At the start of a line.
    Start,
    /// In the midst of a line.
    Line,
    /// In a comment.
    Comment,
}

/// A writer of a record with comments between its lines. A contract sees it as a writer of the record without its comments.
///
/// A write to the record fails if its bytes contain a `#`.
// claim: a record without its comments
#[derive(Drop)]
pub struct Remarked<W: Write, C: Start> {
    inner: W,
    spot: TextSpot,
    // a part of a comment failed
    is_cut: bool,
    of: PhantomData<C>,
    ghost stands: { EndsAtSpot C.contents (W.contents inner) spot is_cut },
}

impl<W: Write, C: Start> Remarked<W, C> {
    /// A writer over this one. Comments are left out only behind its present contents.
    // claim: a record without its comments
    pub fn new(inner: W) -> Remarked<W, C>
        requires { C.contents ≡ W.contents inner }
        ensures { uncommented C.contents (W.contents result.inner) ≡ W.contents inner }
    {
        Remarked {
            inner,
            spot: TextSpot::Start,
            is_cut: false,
            of: PhantomData,
        }
    }

    /// The writer.
    // claim: a record without its comments
    pub fn into_inner(self) -> W
        ensures { IsRemarked C.contents (W.contents result) (uncommented C.contents (W.contents self.inner)) }
    {
        self.inner
    }

    /// Writes a part of a comment, which begins at the one spot and ends at the other. It fails if the text doesn't end at the first.
    pub(crate) fn write_part(
        &mut self,
        from: TextSpot,
        part: &[u8],
        to: TextSpot,
    ) -> Result<(), WriteFault>
        requires { IsCommentPart from part.now to }
        ensures kept { Keeps (uncommented C.contents (W.contents self.old.inner)) (uncommented C.contents (W.contents self.new.inner)) }
        ensures written { OnOk result (Appends (W.contents self.old.inner) (W.contents self.new.inner) part.now) }
    {
        if is_ready(self.spot, self.is_cut, from) {
            match write_all(&mut self.inner, part) {
                Ok(()) => {
                    self.spot = to;
                    Ok(())
                }
                Err(fault) => {
                    self.is_cut = true;
                    Err(fault)
                }
            }
        } else {
            Err(WriteFault)
        }
    }
}

impl<W: Write, C: Start> Write for Remarked<W, C> {
    ghost contents = { λ w. uncommented C.contents (W.contents w.inner) };

    fn write(&mut self, bytes: &[u8]) -> io::Result<usize> {
        if may_follow(self.spot, self.is_cut, bytes) {
            let count = self.inner.write(bytes)?;
            self.spot = spot_behind(self.spot, &bytes[..count]);
            Ok(count)
        } else {
            Err(io::Error::from(ErrorKind::InvalidInput))
        }
    }

    fn flush(&mut self) -> io::Result<()> {
        self.inner.flush()
    }
}

/// Whether a text that ends at `spot`, with no part of a comment missing, is ready for a part that begins at `from`.
fn is_ready(spot: TextSpot, is_cut: bool, from: TextSpot) -> bool
    ensures { IsTrue result → (is_cut ≡ false) × (spot ≡ from) }
{
    !is_cut && is_at(spot, from)
}

fn is_at(spot: TextSpot, from: TextSpot) -> bool
    ensures { IsTrue result → spot ≡ from }
{
    match (spot, from) {
        (TextSpot::Start, TextSpot::Start) => true,
        (TextSpot::Line, TextSpot::Line) => true,
        (TextSpot::Comment, TextSpot::Comment) => true,
        _ => false,
    }
}

/// Whether the bytes may follow a record that ends at this spot.
fn may_follow(spot: TextSpot, is_cut: bool, bytes: &[u8]) -> bool
    ensures { IsTrue result → (is_cut ≡ false) × (spot ≢ TextSpot.Comment) × (list_all is_plain bytes.now ≡ true) }
{
    !is_cut && is_outside(spot) && is_plain(bytes)
}

fn is_outside(spot: TextSpot) -> bool
    ensures { IsTrue result → spot ≢ TextSpot.Comment }
{
    match spot {
        TextSpot::Comment => false,
        TextSpot::Start => true,
        TextSpot::Line => true,
    }
}

/// Whether none of the bytes is a `#`, so that they begin no comment at any spot.
fn is_plain(bytes: &[u8]) -> bool
    ensures { IsTrue result → list_all is_plain bytes.now ≡ true }
{
    match memchr(b'#', bytes) {
        Some(_) => false,
        None => true,
    }
}

/// The spot at which a text ends after these bytes.
#[tactic(auto, using(crate::proofs::TextsWithComments::spot_on))]
fn spot_behind(spot: TextSpot, bytes: &[u8]) -> TextSpot
    ensures { result ≡ spot_behind spot bytes.now }
{
    let mut at = spot;
    for byte in bytes {
        at = next_spot(at, *byte);
    }
    at
}

fn next_spot(spot: TextSpot, byte: u8) -> TextSpot
    ensures { result ≡ next_spot spot byte }
{
    match spot {
        TextSpot::Start if byte == b'\n' => TextSpot::Start,
        TextSpot::Start if byte == b'#' => TextSpot::Comment,
        TextSpot::Start => TextSpot::Line,
        TextSpot::Line if byte == b'\n' => TextSpot::Start,
        TextSpot::Line => TextSpot::Line,
        TextSpot::Comment if byte == b'\n' => TextSpot::Start,
        TextSpot::Comment => TextSpot::Comment,
    }
}
