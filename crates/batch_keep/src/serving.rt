//! Serving over a journal.
ghost use Rattle.std.specs.Prelude.{◌≡◌, List, ℕ, [], Some, IfSome, OnOk};
ghost use Rattle.batch_engine.specs.View.{setup, plant_of};
ghost use Rattle.batch_journal.specs.Journals.{recovered, sum_text};
ghost use Rattle.batch_journal.specs.Lines.{text_of};
ghost use Rattle.batch_journal.specs.Readers.{IsJournalKept, IsWhole, HasRecalled, IsAccounted};
ghost use Rattle.batch_wire.specs.Transcript.{lines_of};
ghost use Rattle.batch_wire.specs.WrittenTranscript.{WritesTranscript};
ghost use Rattle.batch_keep.specs.Told.{IsJournalAtRest, TellsLinesIfKnown, IsToldAgain, TellsLines};

use batch_engine::Engine;
use batch_journal::{
    Disk, JournalReader, JournalRun, Memory, Sum, lines_begin, recovered_are_lines,
};
use batch_serve::{NoRemarks, Remarks, ServeFault, serve, want_is_not_told};
use std::alloc::Global;
use std::io::{Read, Write};
use std::marker::Brand;
use std::time::Clock;

/// A journal that recovery left, and the clock of its groups.
#[derive(Drop)]
pub struct Journal<D: Disk, K: Clock> {
    /// The disk on which it is kept.
    pub disk: D,
    /// The clock of the times in its groups, of which nothing is claimed.
    pub clock: K,
    /// The sum of its last group.
    pub sum: Sum,
    /// The 64 digits of the SHA-256 of its documents.
    pub documents: [u8; 64],
}

/// Answers the lines of an input, each of which is journalled and synced before the machine is given it.
///
/// The input's lines are as a journal has them (`batch_serve::CleanReader`). However the run ends, the disk is returned.
///
/// # Errors
///
/// Those of `serve`; `Read` also if a call of the disk failed, after which nothing more is written.
pub fn serve_journalled<R: Read + Drop, D: Disk, K: Clock + Drop, W: Write>(
    alloc: Global,
    engine: &mut Engine,
    input: R,
    journal: Journal<D, K>,
    writer: &mut W,
    max_reads: u64,
) -> (Result<(), ServeFault>, D)
    requires { D.is_disk journal.disk → IsJournalAtRest journal.documents (D.durable journal.disk) (D.seen journal.disk) (D.given journal.disk) (sum_text journal.sum) }
    // A crash at any moment leaves the lines from before, and all that the machine had been given by then.
    // claim: given lines are kept
    ensures any_moment { D.is_disk result.1 → HasRecalled journal.documents (text_of (recovered journal.documents (D.seen journal.disk))) (D.moment journal.disk) (D.moment result.1) (D.left_since result.1) }
    ensures cleared { engine.new.cleared ≡ engine.old.cleared }
    // When the input ends, the text of a transcript of all its lines is written.
    // claim: served over a journal
    ensures served { OnOk result.0 (IfSome (R.remaining input) (λ all.
        WritesTranscript (setup engine.old.cleared) (plant_of engine.old) (lines_of all) (plant_of engine.new) (W.contents writer.old) (W.contents writer.new))) }
    // The written answers are to lines that the machine was given.
    // claim: told of given lines
    ensures told { D.is_disk result.1 → TellsLinesIfKnown (setup engine.old.cleared) (plant_of engine.old) (R.remaining input) (D.given result.1) (W.contents writer.old) (W.contents writer.new) }
    // A replay writes them again, behind the answers from before.
    // claim: output is written again
    ensures again { D.is_disk result.1 → (all : List ℕ) → R.remaining input ≡ Some all → IsToldAgain (setup engine.old.cleared) (plant_of engine.old) journal.documents (D.seen journal.disk)
        (D.durable result.1) (D.seen result.1) (D.given result.1) (W.contents writer.old) (W.contents writer.new) }
{
    serve_at::<R, D, K, W, Brand, NoRemarks>(
        alloc,
        engine,
        input,
        journal,
        writer,
        &mut NoRemarks,
        max_reads,
    )
}

/// Serves as [`serve_journalled`] does, over a disk in memory. Its errors are the same.
pub fn serve_in_memory<K: Clock + Drop>(
    alloc: Global,
    engine: &mut Engine,
    input: &[u8],
    journal: Journal<Memory, K>,
    writer: &mut Vec<u8>,
    max_reads: u64,
) -> (Result<(), ServeFault>, Memory)
    requires { IsJournalAtRest journal.documents (⟦<Memory as Disk>⟧.durable journal.disk) (⟦<Memory as Disk>⟧.seen journal.disk) (⟦<Memory as Disk>⟧.given journal.disk) (sum_text journal.sum) }
    // claim: served over a journal
    ensures served { OnOk result.0 (WritesTranscript (setup engine.old.cleared) (plant_of engine.old) (lines_of input.now) (plant_of engine.new) (Some writer.old.items) (Some writer.new.items)) }
    // claim: told of given lines
    ensures told { TellsLines (setup engine.old.cleared) (plant_of engine.old) (⟦<Memory as Disk>⟧.given result.1) (Some writer.old.items) (Some writer.new.items) }
{
    serve_journalled(alloc, engine, input, journal, writer, max_reads)
}

pub(crate) fn serve_at<
    R: Read + Drop,
    D: Disk,
    K: Clock + Drop,
    W: Write,
    C: JournalRun,
    M: Remarks<W>,
>(
    alloc: Global,
    engine: &mut Engine,
    input: R,
    journal: Journal<D, K>,
    writer: &mut W,
    remarks: &mut M,
    max_reads: u64,
) -> (Result<(), ServeFault>, D)
    requires at_rest { D.is_disk journal.disk → IsJournalKept C.documents C.base (D.durable journal.disk) (D.seen journal.disk) (D.given journal.disk) [] (sum_text journal.sum) }
    requires whole { D.is_disk journal.disk → IsWhole (D.given journal.disk) }
    requires recalled { D.is_disk journal.disk → HasRecalled C.documents C.base C.since (D.moment journal.disk) (D.left_since journal.disk) }
    requires input { D.is_disk journal.disk → IsAccounted C.input (D.given journal.disk) (R.remaining input) }
    requires was { D.is_disk journal.disk → C.was }
    ensures any_moment { D.is_disk result.1 → HasRecalled C.documents C.base C.since (D.moment result.1) (D.left_since result.1) }
    ensures stays { D.is_disk result.1 → ∥ C.was ∥₁ }
    ensures cleared { engine.new.cleared ≡ engine.old.cleared }
    ensures served { OnOk result.0 (IfSome (R.remaining input) (λ all.
        WritesTranscript (setup engine.old.cleared) (plant_of engine.old) (lines_of all) (plant_of engine.new) (W.contents writer.old) (W.contents writer.new))) }
    ensures told { D.is_disk result.1 → C.input ≡ R.remaining input → TellsLinesIfKnown (setup engine.old.cleared) (plant_of engine.old) C.input (D.given result.1) (W.contents writer.old) (W.contents writer.new) }
    ensures again { D.is_disk result.1 → C.input ≡ R.remaining input → (all start : List ℕ) → C.input ≡ Some all → C.base ≡ text_of (recovered C.documents start)
        → IsToldAgain (setup engine.old.cleared) (plant_of engine.old) C.documents start (D.durable result.1) (D.seen result.1) (D.given result.1) (W.contents writer.old) (W.contents writer.new) }
{
    recovered_are_lines();
    lines_begin();
    want_is_not_told();
    let mut reader: JournalReader<R, D, K, C> = JournalReader::new(
        input,
        journal.disk,
        journal.clock,
        journal.sum,
    );
    let result = serve(alloc, engine, &mut reader, writer, remarks, max_reads);
    (result, reader.into_disk())
}
