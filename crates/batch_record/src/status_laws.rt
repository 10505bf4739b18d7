//! Laws of the state that a record gives. Nothing runs here: the contracts are the laws.
ghost use Rattle.batch_model.specs.Runs.{Out};
ghost use Rattle.std.specs.Prelude.{List};
ghost use Rattle.batch_record.specs.Promises.{IsAsModelled, LinesTellTheirOuts};

/// Lines that are the texts of outs, whose names are names, give the same state as these outs. Lines that are passed over may lie
/// between them.
// claim: lines tell their outs
pub fn lines_tell_their_outs()
    ensures { LinesTellTheirOuts }
{}

/// The holders, waiting acts, live phases and states of batches are those in the definitions of a safe record.
// claim: as modelled
pub fn tales_are_modelled()
    ensures { (outs : List Out) → IsAsModelled outs }
{}
