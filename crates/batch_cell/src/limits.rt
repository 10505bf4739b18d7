//! The limits of a cell.
ghost use Rattle.std.specs.Prelude.{◌≡◌};
ghost use Rattle.batch_cell.specs.declared.cell.TheConstants.{MAX_MODULES, MAX_SHARED, MAX_UNITS};
ghost use Rattle.batch_cell.specs.declared.module.TheConstants.{MAX_PHASES};
ghost use Rattle.batch_cell.specs.declared.shared.TheConstants.{MAX_CAPACITY};

/// The limits of a cell are these numbers.
// claim: limits of a cell
pub fn cell_limits_are_fixed()
    ensures units { MAX_UNITS ≡ 64 }
    ensures modules { MAX_MODULES ≡ 256 }
    ensures phases { MAX_PHASES ≡ 32 }
    ensures shared { MAX_SHARED ≡ 64 }
    ensures capacity { MAX_CAPACITY ≡ 1000 }
{}
