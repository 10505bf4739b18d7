//! The limits of the program.
ghost use Rattle.std.specs.Prelude.{◌≡◌};
ghost use Rattle.batch_program.specs.declared.program.TheConstants.{MAX_READS};
ghost use Rattle.batch_program.specs.declared.threads.TheConstants.{TURNS};

/// The limit of reads of standard input. No clause counts the calls of a reader.
// claim: limit of reads
pub fn read_limit_is_fixed()
    ensures { MAX_READS ≡ 1000000000 }
{}

/// Each worker of a plant has at most this many turns.
// claim: limit of turns
pub fn turn_limit_is_fixed()
    ensures { TURNS ≡ 10000000 }
{}
