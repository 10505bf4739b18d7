//! The limits of the files that commands read.
ghost use Rattle.std.specs.Prelude.{◌≡◌};
ghost use Rattle.batch_verdicts.specs.declared.reading.TheConstants.{MAX_DOCUMENT_READS, PIECE_LEN};

/// The limits of reading a file are these numbers.
// claim: limits of files
pub fn file_limits_are_fixed()
    ensures reads { MAX_DOCUMENT_READS ≡ 2000000 }
    ensures piece { PIECE_LEN ≡ 16384 }
{}
