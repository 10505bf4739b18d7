//! Serving over a journal with comments in the record.
ghost use Rattle.std.specs.Prelude.{◌≡◌, List, ℕ, Option, [], Some, IfSome, OnOk};
ghost use Rattle.batch_engine.specs.View.{setup, plant_of};
ghost use Rattle.batch_journal.specs.Journals.{recovered, sum_text};
ghost use Rattle.batch_journal.specs.Lines.{text_of};
ghost use Rattle.batch_journal.specs.Readers.{IsJournalKept, IsWhole, HasRecalled, IsAccounted};
ghost use Rattle.batch_keep.specs.Told.{IsNeverLost};
ghost use Rattle.batch_serve.specs.Comments.{IsRemarked};
ghost use Rattle.batch_wire.specs.Transcript.{lines_of};
ghost use Rattle.batch_wire.specs.WrittenTranscript.{WritesTranscript};

use crate::holding::{KeepFault, serve_started};
use crate::serving::Journal;
use batch_engine::Engine;
use batch_journal::{Disk, JournalRun};
use batch_serve::{Remarked, Remarking, Start};
use std::alloc::Global;
use std::io::{Read, Write};
use std::marker::Brand;
use std::time::Clock;

/// Answers the lines of an input as [`serve_started`] does, with comments on them in the record.
///
/// # Errors
///
/// Those of [`serve_started`].
// claim: comments over a journal
pub fn serve_started_remarked<R: Read + Drop, D: Disk, K: Clock + Drop, W: Write, C: JournalRun>(
    alloc: Global,
    engine: &mut Engine,
    input: R,
    journal: Journal<D, K>,
    writer: W,
    remarking: Remarking<K>,
    max_reads: u64,
) -> (Result<(), KeepFault>, D, W)
    requires at_rest { D.is_disk journal.disk → IsJournalKept C.documents C.base (D.durable journal.disk) (D.seen journal.disk) (D.given journal.disk) [] (sum_text journal.sum) }
    requires whole { D.is_disk journal.disk → IsWhole (D.given journal.disk) }
    requires recalled { D.is_disk journal.disk → HasRecalled C.documents C.base C.since (D.moment journal.disk) (D.left_since journal.disk) }
    requires accounted { D.is_disk journal.disk → IsAccounted C.input (D.given journal.disk) (R.remaining input) }
    requires was { D.is_disk journal.disk → C.was }
    ensures any_moment { D.is_disk result.1 → HasRecalled C.documents C.base C.since (D.moment result.1) (D.left_since result.1) }
    ensures stays { D.is_disk result.1 → ∥ C.was ∥₁ }
    ensures cleared { engine.new.cleared ≡ engine.old.cleared }
    // Without its comments the written text is that of a run without comments.
    ensures remarked { (plain : Option (List ℕ)) × IsRemarked (W.contents writer) (W.contents result.2) plain
        × OnOk result.0 (IfSome (R.remaining input) (λ all.
        WritesTranscript (setup engine.old.cleared) (plant_of engine.old) (lines_of all) (plant_of engine.new) (W.contents writer) plain))
        × (D.is_disk result.1 → C.input ≡ R.remaining input → (all start : List ℕ) → C.input ≡ Some all → C.base ≡ text_of (recovered C.documents start)
        → IsNeverLost (setup engine.old.cleared) (plant_of engine.old) C.documents start (D.durable result.1) (D.seen result.1) (D.given result.1) (W.contents writer) plain) }
{
    serve_remarked_at::<R, D, K, W, C, Brand>(
        alloc, engine, input, journal, writer, remarking, max_reads,
    )
}

fn serve_remarked_at<R: Read + Drop, D: Disk, K: Clock + Drop, W: Write, C: JournalRun, S: Start>(
    alloc: Global,
    engine: &mut Engine,
    input: R,
    journal: Journal<D, K>,
    writer: W,
    remarking: Remarking<K>,
    max_reads: u64,
) -> (Result<(), KeepFault>, D, W)
    requires at_rest { D.is_disk journal.disk → IsJournalKept C.documents C.base (D.durable journal.disk) (D.seen journal.disk) (D.given journal.disk) [] (sum_text journal.sum) }
    requires whole { D.is_disk journal.disk → IsWhole (D.given journal.disk) }
    requires recalled { D.is_disk journal.disk → HasRecalled C.documents C.base C.since (D.moment journal.disk) (D.left_since journal.disk) }
    requires accounted { D.is_disk journal.disk → IsAccounted C.input (D.given journal.disk) (R.remaining input) }
    requires was { D.is_disk journal.disk → C.was }
    requires first { S.contents ≡ W.contents writer }
    ensures any_moment { D.is_disk result.1 → HasRecalled C.documents C.base C.since (D.moment result.1) (D.left_since result.1) }
    ensures stays { D.is_disk result.1 → ∥ C.was ∥₁ }
    ensures cleared { engine.new.cleared ≡ engine.old.cleared }
    ensures remarked { (plain : Option (List ℕ)) × IsRemarked S.contents (W.contents result.2) plain
        × OnOk result.0 (IfSome (R.remaining input) (λ all.
        WritesTranscript (setup engine.old.cleared) (plant_of engine.old) (lines_of all) (plant_of engine.new) S.contents plain))
        × (D.is_disk result.1 → C.input ≡ R.remaining input → (all start : List ℕ) → C.input ≡ Some all → C.base ≡ text_of (recovered C.documents start)
        → IsNeverLost (setup engine.old.cleared) (plant_of engine.old) C.documents start (D.durable result.1) (D.seen result.1) (D.given result.1) S.contents plain) }
{
    let remarked: Remarked<W, S> = Remarked::new(writer);
    let (served, disk, remarked) = serve_started::<R, D, K, Remarked<W, S>, C, Remarking<K>>(
        alloc, engine, input, journal, remarked, remarking, max_reads,
    );
    (served, disk, remarked.into_inner())
}
