//! The limits of desks.
ghost use Rattle.std.specs.Prelude.{◌≡◌};
ghost use Rattle.batch_reader.specs.declared.desk.TheConstants.{USUAL_LAG};
ghost use Rattle.batch_reader.specs.declared.desk_set.TheConstants.{MAX_DESKS};

/// The limits of desks are these numbers.
// claim: limits of desks
pub fn desk_limits_are_fixed()
    ensures desks { MAX_DESKS ≡ 64 }
    ensures usual_lag { USUAL_LAG ≡ 4096 }
{}
