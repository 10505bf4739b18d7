//! Putting a text together from its end.
ghost use Rattle.std.specs.Prelude.{◌≡◌, ◌≤◌, ◌++◌, IfNone, IfSome, drop, length};

/// Puts a piece in front of the text that begins at `end`, and returns the start of the piece.
///
/// If there is no room for the piece, the text stays as it is, and the result is None.
#[inline(always)]
pub fn put_piece(text: &mut [u8], end: usize, piece: &[u8]) -> Option<usize>
    requires { end ≤ length text.old }
    ensures unchanged { IfNone result (text.new ≡ text.old) }
    ensures put { IfSome result (λ start. (start ≤ end) × (drop start text.new ≡ piece.now ++ drop end text.old)) }
{
    let start = end.checked_sub(piece.len())?;
    match piece {
        // Most pieces are a space.
        [byte] => text[start] = *byte,
        _ => text[start..end].copy_from_slice(piece),
    }
    Some(start)
}
