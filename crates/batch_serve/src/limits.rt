//! The limit of serving.
ghost use Rattle.std.specs.Prelude.{◌≡◌};
ghost use Rattle.batch_serve.specs.declared.serving.TheConstants.{PIECE_LEN};

/// One call of the reader may give this many bytes, so that a limit on calls is one on the length of the input as well.
// claim: limit of a piece
pub fn piece_limit_is_fixed()
    ensures { PIECE_LEN ≡ 65536 }
{}
