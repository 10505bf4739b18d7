//! Serving over a journal.
ghost use Rattle.std.specs.Prelude.{◌≡◌, ◌⊎◌, ◌||◌, [], ℕ, List, Option, Some, IfSome, IsOk, OnOk, is_some};
ghost use Rattle.std.specs.Io.KnownBytes.{Keeps};
ghost use Rattle.batch_engine.specs.View.{setup, plant_of};
ghost use Rattle.batch_keep.specs.Told.{IsNeverLost};
ghost use Rattle.batch_wire.specs.Transcript.{lines_of};
ghost use Rattle.batch_wire.specs.Written.{Writes};
ghost use Rattle.batch_wire.specs.WrittenTranscript.{WritesTranscript};
ghost use Rattle.batch_journal.specs.Journals.{recovered, sum_text};
ghost use Rattle.batch_journal.specs.Lines.{text_of};
ghost use Rattle.batch_journal.specs.Readers.{HasRecalled, IsAccounted, IsJournalKept, IsWhole};
ghost use Rattle.batch_verdicts.specs.Running.{fault_status, memory_status, success_status};
ghost use Rattle.batch_program.specs.JournalRuns.{IsJournalRun, IsOverFile, IsShownAs, disks_of};
ghost use Rattle.batch_program.specs.Keeping.{IsToldBehind, cleaned};

use crate::journal_faults::{
    complain_block, complain_stopped, complain_unopened, refuse_start, report_cut_off,
};
use crate::journals::Journals;
use crate::program::{MAX_READS, report_left};
use batch_cli::Comments;
use batch_engine::Engine;
use batch_journal::{Disk, JournalRun};
use batch_keep::{
    Journal, KeepFault, RecoveredPlant, serve_started, serve_started_remarked, start,
};
use batch_pipes::Noted;
use batch_serve::{CleanReader, NoRemarks, Remarking, clean_lines_serve_alike};
use batch_verdicts::{Digested, SUCCESS};
use batch_wire::{WriteFault, write_all};
use std::alloc::Global;
use std::io::{Read, Write};
use std::marker::Brand;
use std::time::Clock;

/// The path of the journal as messages name it, and whether they are of faults alone.
#[derive(Clone, Copy)]
pub(crate) struct Messages<'a> {
    pub(crate) path: &'a str,
    pub(crate) quiet: bool,
}

/// Serves event lines from the input over the set, with a journal of them in the file at the path, and gives the exit status.
///
/// The lines of the journal are replayed first, and their answers aren't written. The recovery block precedes all else on the
/// output; comments in the record follow it. A file that is no journal, or one of other documents, or damaged, is refused by a line
/// on the output.
// claim: served over a file; behind the block; never lost
pub fn serve_over_journal<J: Journals, R: Read, W: Write, E: Write>(
    alloc: Global,
    digested: Digested,
    quiet: bool,
    path: &str,
    comments: Comments,
    journals: &J,
    input: &mut Noted<R>,
    output: Noted<W>,
    errors: &mut E,
) -> (u8, Noted<W>)
    ensures { IsJournalRun (record { disks = disks_of J.File.Disk; opens = J.opens journals.now }) digested.set digested.documents.text path.now (comments.echo || comments.times)
        (record {
          unread = R.remaining input.old.stream;
          left = R.remaining input.new.stream;
          before = W.contents output.stream;
          after = W.contents result.1.stream;
        }) result.0 }
{
    match journals.open_journal(path) {
        Ok(disk) => {
            let clock = journals.clock();
            let remarking = remarking_of(journals.clock(), comments);
            let messages = Messages { path, quiet };
            let (status, _, output) = serve_opened(
                alloc, digested, messages, clock, disk, remarking, input, output, errors,
            );
            (status, output)
        }
        Err(reason) => (complain_unopened(alloc, path, reason, errors), output),
    }
}

/// The writer of comments on the lines of the record. None if no comments are asked for.
fn remarking_of<K: Clock + Drop>(clock: K, comments: Comments) -> Option<Remarking<K>>
    ensures { is_some result ≡ (comments.echo || comments.times) }
{
    if comments.echo || comments.times {
        Some(Remarking::new(clock, comments.echo, comments.times))
    } else {
        None
    }
}

/// Serves over the opened file of the journal, and returns it.
fn serve_opened<D: Disk, K: Clock + Drop, R: Read, W: Write, E: Write>(
    alloc: Global,
    digested: Digested,
    messages: Messages,
    clock: K,
    disk: D,
    remarking: Option<Remarking<K>>,
    input: &mut Noted<R>,
    output: Noted<W>,
    errors: &mut E,
) -> (u8, D, Noted<W>)
    requires fresh { D.is_disk disk → (D.durable disk ≡ D.seen disk) × (D.given disk ≡ []) }
    ensures { IsOverFile (disks_of D.Disk) digested.set digested.documents.text messages.entry.path.now (is_some remarking) disk result.1
        (record {
          unread = R.remaining input.old.stream;
          left = R.remaining input.new.stream;
          before = W.contents output.stream;
          after = W.contents result.2.stream;
        }) result.0 }
{
    serve_file::<D, K, R, W, E, Brand>(
        alloc, digested, messages, clock, disk, remarking, input, output, errors,
    )
}

fn serve_file<D: Disk, K: Clock + Drop, R: Read, W: Write, E: Write, C: JournalRun>(
    alloc: Global,
    digested: Digested,
    messages: Messages,
    clock: K,
    mut disk: D,
    remarking: Option<Remarking<K>>,
    input: &mut Noted<R>,
    mut output: Noted<W>,
    errors: &mut E,
) -> (u8, D, Noted<W>)
    requires fresh { D.is_disk disk → (D.durable disk ≡ D.seen disk) × (D.given disk ≡ []) }
    requires base { C.base ≡ text_of (recovered digested.documents.text (D.seen disk)) }
    requires since { C.since ≡ D.moment disk }
    requires input { C.input ≡ cleaned (R.remaining input.old.stream) }
    ensures { IsOverFile (disks_of D.Disk) digested.set digested.documents.text messages.entry.path.now (is_some remarking) disk result.1
        (record {
          unread = R.remaining input.old.stream;
          left = R.remaining input.new.stream;
          before = W.contents output.stream;
          after = W.contents result.2.stream;
        }) result.0 }
{
    match start(alloc, digested.set, &mut disk, digested.documents) {
        Ok(started) => {
            report_cut_off(alloc, messages.quiet, messages.path, started.cut, errors);
            let RecoveredPlant {
                mut engine,
                sum,
                block,
                ..
            } = started;
            let journal = Journal {
                disk,
                clock,
                sum,
                documents: digested.documents.text(),
            };
            serve_behind::<D, K, R, W, E, Brand>(
                alloc,
                &mut engine,
                &block,
                messages,
                journal,
                remarking,
                input,
                output,
                errors,
            )
        }
        Err(fault) => {
            let status = refuse_start(
                alloc,
                messages.quiet,
                messages.path,
                fault,
                &mut output,
                errors,
            );
            (status, disk, output)
        }
    }
}

/// Writes the recovery block, and serves the input behind it.
fn serve_behind<D: Disk, K: Clock + Drop, R: Read, W: Write, E: Write, C: JournalRun>(
    alloc: Global,
    engine: &mut Engine,
    block: &[u8],
    messages: Messages,
    journal: Journal<D, K>,
    remarking: Option<Remarking<K>>,
    input: &mut Noted<R>,
    mut output: Noted<W>,
    errors: &mut E,
) -> (u8, D, Noted<W>)
    requires at_rest { D.is_disk journal.disk → IsJournalKept C.documents C.base (D.durable journal.disk) (D.seen journal.disk) (D.given journal.disk) [] (sum_text journal.sum) }
    requires whole { D.is_disk journal.disk → IsWhole (D.given journal.disk) }
    requires recalled { D.is_disk journal.disk → HasRecalled C.documents C.base C.since (D.moment journal.disk) (D.left_since journal.disk) }
    requires accounted { D.is_disk journal.disk → IsAccounted C.input (D.given journal.disk) (cleaned (R.remaining input.old.stream)) }
    requires input { C.input ≡ cleaned (R.remaining input.old.stream) }
    requires was { D.is_disk journal.disk → C.was }
    ensures any_moment { D.is_disk result.1 → HasRecalled C.documents C.base C.since (D.moment result.1) (D.left_since result.1) }
    ensures stays { D.is_disk result.1 → ∥ C.was ∥₁ }
    ensures told { IsToldBehind (setup engine.old.cleared) (plant_of engine.old) C.documents C.base (is_some remarking) (D.is_disk result.1)
        (D.durable result.1) (D.seen result.1) (D.given result.1) block.now (R.remaining input.old.stream) (W.contents output.stream) (W.contents result.2.stream) result.0 }
{
    clean_lines_serve_alike();
    if let Err(_) = write_block(&mut output, block) {
        let status = complain_block(output.failure(), errors);
        return (status, journal.disk, output);
    }
    let reader = CleanReader::new(&mut *input);
    let (served, disk, output) = serve_shown::<CleanReader<&mut Noted<R>>, D, K, Noted<W>, C>(
        alloc, engine, reader, journal, output, remarking,
    );
    let status = report_end(
        alloc,
        messages,
        served,
        engine.unfinished(),
        input,
        &output,
        errors,
    );
    (status, disk, output)
}

/// Serves the input, with comments in the record or without them.
fn serve_shown<R: Read + Drop, D: Disk, K: Clock + Drop, W: Write, C: JournalRun>(
    alloc: Global,
    engine: &mut Engine,
    input: R,
    journal: Journal<D, K>,
    output: W,
    remarking: Option<Remarking<K>>,
) -> (Result<(), KeepFault>, D, W)
    requires at_rest { D.is_disk journal.disk → IsJournalKept C.documents C.base (D.durable journal.disk) (D.seen journal.disk) (D.given journal.disk) [] (sum_text journal.sum) }
    requires whole { D.is_disk journal.disk → IsWhole (D.given journal.disk) }
    requires recalled { D.is_disk journal.disk → HasRecalled C.documents C.base C.since (D.moment journal.disk) (D.left_since journal.disk) }
    requires accounted { D.is_disk journal.disk → IsAccounted C.input (D.given journal.disk) (R.remaining input) }
    requires was { D.is_disk journal.disk → C.was }
    ensures any_moment { D.is_disk result.1 → HasRecalled C.documents C.base C.since (D.moment result.1) (D.left_since result.1) }
    ensures stays { D.is_disk result.1 → ∥ C.was ∥₁ }
    ensures shown { (plain : Option (List ℕ)) × IsShownAs (is_some remarking) (W.contents output) (W.contents result.2) plain
        × OnOk result.0 (IfSome (R.remaining input) (λ all.
        WritesTranscript (setup engine.old.cleared) (plant_of engine.old) (lines_of all) (plant_of engine.new) (W.contents output) plain))
        × (D.is_disk result.1 → C.input ≡ R.remaining input → (all start : List ℕ) → C.input ≡ Some all → C.base ≡ text_of (recovered C.documents start)
        → IsNeverLost (setup engine.old.cleared) (plant_of engine.old) C.documents start (D.durable result.1) (D.seen result.1) (D.given result.1) (W.contents output) plain) }
{
    match remarking {
        Some(remarking) => serve_started_remarked::<R, D, K, W, C>(
            alloc, engine, input, journal, output, remarking, MAX_READS,
        ),
        None => serve_started::<R, D, K, W, C, NoRemarks>(
            alloc, engine, input, journal, output, NoRemarks, MAX_READS,
        ),
    }
}

/// Reports how many batches the end of the input left unfinished, or why serving stopped, and gives the exit status.
fn report_end<R: Read, W: Write, E: Write>(
    alloc: Global,
    messages: Messages,
    served: Result<(), KeepFault>,
    left: usize,
    input: &Noted<R>,
    output: &Noted<W>,
    errors: &mut E,
) -> u8
    ensures well { result ≡ success_status → IsOk served }
    ensures ends { (result ≡ success_status) ⊎ (result ≡ fault_status) ⊎ (result ≡ memory_status) }
{
    match served {
        Ok(()) => {
            report_left(alloc, messages.quiet, left, errors);
            SUCCESS
        }
        Err(fault) => complain_stopped(alloc, messages.path, fault, input, output, errors),
    }
}

/// Writes the block, as far as the output accepts it, and flushes the output.
pub(crate) fn write_block<W: Write>(output: &mut W, block: &[u8]) -> Result<(), WriteFault>
    ensures { Writes (W.contents output.old) (W.contents output.new) result block.now }
{
    match write_all(output, block) {
        Ok(()) => flush(output),
        Err(fault) => Err(fault),
    }
}

/// Flushes the output.
fn flush<W: Write>(output: &mut W) -> Result<(), WriteFault>
    ensures { Keeps (W.contents output.old) (W.contents output.new) }
{
    match output.flush() {
        Ok(()) => Ok(()),
        Err(_) => Err(WriteFault),
    }
}
