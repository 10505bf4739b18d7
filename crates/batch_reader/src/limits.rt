//! The limits of documents, and of the keys of desks.
ghost use Rattle.std.specs.Prelude.{◌≡◌};
ghost use Rattle.batch_reader.specs.declared.document.TheConstants.{MAX_DOCUMENT_LEN};
ghost use Rattle.batch_reader.specs.declared.keys.TheConstants.{MAX_LAG, MAX_PATH_LEN};

/// The limits are these numbers.
// claim: limits of documents
pub fn document_limits_are_fixed()
    ensures document { MAX_DOCUMENT_LEN ≡ 1048576 }
    ensures path { MAX_PATH_LEN ≡ 4096 }
    ensures lag { MAX_LAG ≡ 65536 }
{}
