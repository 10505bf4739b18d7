//! Serving over a journal. Want of memory ends the run before an answer that shows it is written.
ghost use Rattle.std.specs.Prelude.{◌≡◌, List, ℕ, [], Some, IfSome, IsFalse, IsOk, IsTrue, OnOk};
ghost use Rattle.batch_engine.specs.View.{setup, plant_of};
ghost use Rattle.batch_journal.specs.Journals.{recovered, sum_text};
ghost use Rattle.batch_journal.specs.Lines.{text_of};
ghost use Rattle.batch_journal.specs.Readers.{IsJournalKept, IsWhole, HasRecalled, IsAccounted};
ghost use Rattle.batch_wire.specs.Transcript.{lines_of};
ghost use Rattle.batch_wire.specs.WrittenTranscript.{WritesTranscript};
ghost use Rattle.batch_keep.specs.Told.{IsJournalAtRest, IsNeverLost};

use crate::serving::{Journal, serve_at};
use batch_engine::Engine;
use batch_journal::{Disk, JournalRun};
use batch_serve::{
    Held, HeldRemarks, NoRemarks, Remarks, ServeFault, Start, transcripts_are_whole,
};
use std::alloc::Global;
use std::io;
use std::io::{Read, Write};
use std::marker::Brand;
use std::time::Clock;
use thiserror::Error;

/// Why a run over a journal stopped before its input ended. The lines that the machine was given are in the journal.
#[derive(Clone, Copy, Debug, PartialEq, Eq, Error)]
pub enum KeepFault {
    /// There was no memory for an event, or for the answers of a group. Of these answers only those are written that come before the group's
    /// last comment.
    #[error("out of memory")]
    Memory,
    /// The input or the journal failed, or the output.
    #[error("{0}")]
    Serve(ServeFault),
}

/// Answers the lines of an input, each of which is journalled and synced before the machine is given it.
///
/// The answers to the lines of one read are written together, once they show no want of memory. However the run ends, the disk and the
/// writer are returned.
///
/// # Errors
///
/// `Memory` if an event or a line was refused for want of memory, or there was none to hold the answers; else those of `serve`,
/// `Read` among them if a call of the disk failed. After each of them nothing more is written.
pub fn serve_holding<R: Read + Drop, D: Disk, K: Clock + Drop, W: Write>(
    alloc: Global,
    engine: &mut Engine,
    input: R,
    journal: Journal<D, K>,
    writer: W,
    max_reads: u64,
) -> (Result<(), KeepFault>, D, W)
    requires { D.is_disk journal.disk → IsJournalAtRest journal.documents (D.durable journal.disk) (D.seen journal.disk) (D.given journal.disk) (sum_text journal.sum) }
    // A crash at any moment leaves the lines from before, and all that the machine had been given by then.
    // claim: given lines are kept
    ensures any_moment { D.is_disk result.1 → HasRecalled journal.documents (text_of (recovered journal.documents (D.seen journal.disk))) (D.moment journal.disk) (D.moment result.1) (D.left_since result.1) }
    ensures cleared { engine.new.cleared ≡ engine.old.cleared }
    // When the input ends, all answers are written.
    // claim: served over a journal
    ensures served { OnOk result.0 (IfSome (R.remaining input) (λ all.
        WritesTranscript (setup engine.old.cleared) (plant_of engine.old) (lines_of all) (plant_of engine.new) (W.contents writer) (W.contents result.2))) }
    // A replay writes all written answers again.
    // claim: output is written again
    ensures never_lost { D.is_disk result.1 → (all : List ℕ) → R.remaining input ≡ Some all → IsNeverLost (setup engine.old.cleared) (plant_of engine.old) journal.documents (D.seen journal.disk)
        (D.durable result.1) (D.seen result.1) (D.given result.1) (W.contents writer) (W.contents result.2) }
{
    serve_started::<R, D, K, W, Brand, NoRemarks>(
        alloc, engine, input, journal, writer, NoRemarks, max_reads,
    )
}

/// Serves as `serve_holding` does, for a run that began at an earlier moment, which the caller names: since then a crash left the
/// journal's lines. The remarks on a line are written behind the answers before it, which are written then.
// claim: an earlier beginning
pub fn serve_started<
    R: Read + Drop,
    D: Disk,
    K: Clock + Drop,
    W: Write,
    C: JournalRun,
    M: Remarks<W> + Drop,
>(
    alloc: Global,
    engine: &mut Engine,
    input: R,
    journal: Journal<D, K>,
    writer: W,
    remarks: M,
    max_reads: u64,
) -> (Result<(), KeepFault>, D, W)
    requires at_rest { D.is_disk journal.disk → IsJournalKept C.documents C.base (D.durable journal.disk) (D.seen journal.disk) (D.given journal.disk) [] (sum_text journal.sum) }
    requires whole { D.is_disk journal.disk → IsWhole (D.given journal.disk) }
    requires recalled { D.is_disk journal.disk → HasRecalled C.documents C.base C.since (D.moment journal.disk) (D.left_since journal.disk) }
    requires accounted { D.is_disk journal.disk → IsAccounted C.input (D.given journal.disk) (R.remaining input) }
    requires was { D.is_disk journal.disk → C.was }
    // A crash since that moment leaves the lines from before, and all that the machine had been given by then.
    ensures any_moment { D.is_disk result.1 → HasRecalled C.documents C.base C.since (D.moment result.1) (D.left_since result.1) }
    ensures stays { D.is_disk result.1 → ∥ C.was ∥₁ }
    ensures cleared { engine.new.cleared ≡ engine.old.cleared }
    ensures served { OnOk result.0 (IfSome (R.remaining input) (λ all.
        WritesTranscript (setup engine.old.cleared) (plant_of engine.old) (lines_of all) (plant_of engine.new) (W.contents writer) (W.contents result.2))) }
    ensures never_lost { D.is_disk result.1 → C.input ≡ R.remaining input → (all start : List ℕ) → C.input ≡ Some all → C.base ≡ text_of (recovered C.documents start)
        → IsNeverLost (setup engine.old.cleared) (plant_of engine.old) C.documents start (D.durable result.1) (D.seen result.1) (D.given result.1) (W.contents writer) (W.contents result.2) }
{
    serve_holding_at::<R, D, K, W, C, Brand, M>(
        alloc, engine, input, journal, writer, remarks, max_reads,
    )
}

fn serve_holding_at<
    R: Read + Drop,
    D: Disk,
    K: Clock + Drop,
    W: Write,
    C: JournalRun,
    S: Start,
    M: Remarks<W> + Drop,
>(
    alloc: Global,
    engine: &mut Engine,
    input: R,
    journal: Journal<D, K>,
    writer: W,
    remarks: M,
    max_reads: u64,
) -> (Result<(), KeepFault>, D, W)
    requires at_rest { D.is_disk journal.disk → IsJournalKept C.documents C.base (D.durable journal.disk) (D.seen journal.disk) (D.given journal.disk) [] (sum_text journal.sum) }
    requires whole { D.is_disk journal.disk → IsWhole (D.given journal.disk) }
    requires recalled { D.is_disk journal.disk → HasRecalled C.documents C.base C.since (D.moment journal.disk) (D.left_since journal.disk) }
    requires accounted { D.is_disk journal.disk → IsAccounted C.input (D.given journal.disk) (R.remaining input) }
    requires was { D.is_disk journal.disk → C.was }
    requires first { S.contents ≡ W.contents writer }
    ensures any_moment { D.is_disk result.1 → HasRecalled C.documents C.base C.since (D.moment result.1) (D.left_since result.1) }
    ensures stays { D.is_disk result.1 → ∥ C.was ∥₁ }
    ensures cleared { engine.new.cleared ≡ engine.old.cleared }
    ensures served { OnOk result.0 (IfSome (R.remaining input) (λ all.
        WritesTranscript (setup engine.old.cleared) (plant_of engine.old) (lines_of all) (plant_of engine.new) S.contents (W.contents result.2))) }
    ensures never_lost { D.is_disk result.1 → C.input ≡ R.remaining input → (all start : List ℕ) → C.input ≡ Some all → C.base ≡ text_of (recovered C.documents start)
        → IsNeverLost (setup engine.old.cleared) (plant_of engine.old) C.documents start (D.durable result.1) (D.seen result.1) (D.given result.1) S.contents (W.contents result.2) }
{
    transcripts_are_whole();
    let mut held: Held<W, S> = Held::new(alloc, writer);
    let (served, disk) = serve_at::<R, D, K, Held<W, S>, C, HeldRemarks<M>>(
        alloc,
        engine,
        input,
        journal,
        &mut held,
        &mut HeldRemarks::new(remarks),
        max_reads,
    );
    match served {
        Ok(()) => {
            // All answers were passed on already, and are written; here that is seen.
            let (told, writer) = held.finish();
            (outcome_of_flush(told), disk, writer)
        }
        Err(fault) => {
            let fault = stop_reason(fault, held.has_want());
            (Err(fault), disk, held.into_inner())
        }
    }
}

/// Why the run stopped: a writer that wanted memory refused the answers.
fn stop_reason(fault: ServeFault, has_want: bool) -> KeepFault
    ensures memory { IsTrue has_want → result ≡ KeepFault.Memory }
    ensures serve { IsFalse has_want → result ≡ KeepFault.Serve fault }
{
    if has_want {
        KeepFault::Memory
    } else {
        KeepFault::Serve(fault)
    }
}

/// The outcome of a run that reached its end, by that of its last flush.
fn outcome_of_flush(told: io::Result<()>) -> Result<(), KeepFault>
    ensures { OnOk result (IsOk told) }
{
    match told {
        Ok(()) => Ok(()),
        Err(_) => Err(KeepFault::Serve(ServeFault::Write)),
    }
}
