//! Serving the lines of a journal again.
ghost use Rattle.std.specs.Prelude.{◌≡◌, List, ℕ, OnOk};
ghost use Rattle.batch_engine.specs.View.{setup, plant_of};
ghost use Rattle.batch_journal.specs.Journals.{IsJournal, recovered};
ghost use Rattle.batch_journal.specs.Lines.{IsLine};
ghost use Rattle.batch_wire.specs.WrittenTranscript.{WritesTranscript};

use batch_engine::Engine;
use batch_journal::recovered_are_lines;
use batch_serve::{NoRemarks, ServeFault, serve};
use std::alloc::Global;
use std::io::Write;

/// Serves the lines of a recovered journal's groups, by the bytes of its file: its own lines are comments.
///
/// # Errors
///
/// Those of `serve`: the writer failed.
// claim: a journal is replayed
pub fn replay<W: Write>(
    alloc: Global,
    engine: &mut Engine,
    mut text: &[u8],
    documents: &[u8; 64],
    writer: &mut W,
) -> Result<(), ServeFault>
    requires journal { (sum : List ℕ) × IsJournal documents.now text.now sum }
    requires digits { IsLine documents.now }
    ensures cleared { engine.new.cleared ≡ engine.old.cleared }
    ensures served { OnOk result (WritesTranscript (setup engine.old.cleared) (plant_of engine.old) (recovered documents.now text.now) (plant_of engine.new) (W.contents writer.old) (W.contents writer.new)) }
{
    recovered_are_lines();
    serve(alloc, engine, &mut text, writer, &mut NoRemarks, u64::MAX)
}
