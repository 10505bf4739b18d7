//! Serving desks over a journal.
ghost use Rattle.std.specs.Prelude.{◌≡◌, ◌⊎◌, [], Some, IsOk};
ghost use Rattle.batch_reader.specs.DeskNames.{desk_names};
ghost use Rattle.batch_engine.specs.View.{plant_of};
ghost use Rattle.batch_journal.specs.Journals.{recovered, sum_text};
ghost use Rattle.batch_journal.specs.Lines.{text_of};
ghost use Rattle.batch_journal.specs.Readers.{HasRecalled, IsJournalKept, IsWhole};
ghost use Rattle.batch_verdicts.specs.Running.{fault_status, memory_status, success_status};
ghost use Rattle.batch_program.specs.DeskRuns.{AreDesksOver, AreDesksRun};
ghost use Rattle.batch_program.specs.JournalRuns.{disks_of};
ghost use Rattle.batch_program.specs.Keeping.{AreDesksToldBehind};

use crate::desk_runner::DeskRunner;
use crate::desk_serving::report_ended;
use crate::journal_faults::{
    complain_block, complain_disk, complain_unopened, refuse_start, report_cut_off,
};
use crate::journals::Journals;
use crate::keeping::{Messages, write_block};
use batch_engine::Engine;
use batch_journal::{Disk, DiskError, Groups, JournalRun};
use batch_keep::{Journal, RecoveredPlant, start_desks};
use batch_pipes::{DesksFault, Noted};
use batch_reader::Desks;
use batch_serve::Lines;
use batch_text::Name;
use batch_verdicts::{DeskSet, NO_MEMORY, OUT_OF_MEMORY, complain};
use std::alloc::{AllocError, Global};
use std::io;
use std::io::Write;
use std::marker::Brand;
use std::time::Clock;

/// Serves the desks over their set with a journal of their lines in the file at the path, and gives the exit status.
///
/// The lines of the journal are replayed first, and their answers aren't written. The recovery block of all lines precedes all
/// else on the output, and that of its own lines on the output of each desk. A refused file is reported as by
/// [`serve_over_journal`](crate::serve_over_journal).
pub(crate) fn serve_desks_over_journal<J: Journals, P: DeskRunner, W: Write, E: Write>(
    alloc: Global,
    runner: &P,
    served: DeskSet,
    quiet: bool,
    path: &str,
    times: bool,
    journals: &J,
    output: &mut Noted<W>,
    errors: &mut E,
) -> u8
    ensures { AreDesksRun (record { disks = disks_of J.File.Disk; opens = J.opens journals.now }) served.digested.set served.digested.documents.text (desk_names served.desks.desks.items) (Some path.now) times
        (record { before = W.contents output.old.stream; after = W.contents output.new.stream }) result }
{
    let Ok(names) = names_of(alloc, &served.desks) else {
        return complain(errors, OUT_OF_MEMORY, NO_MEMORY);
    };
    match journals.open_journal(path) {
        Ok(disk) => {
            let clock = journals.clock();
            let messages = Messages { path, quiet };
            let (status, _) = serve_opened(
                alloc, runner, served, &names, messages, clock, disk, times, output, errors,
            );
            status
        }
        Err(reason) => complain_unopened(alloc, path, reason, errors),
    }
}

/// Copies of the names of the desks.
fn names_of(alloc: Global, desks: &Desks) -> Result<Vec<Name>, AllocError> {
    let mut names = Vec::new(alloc);
    for desk in &desks.desks {
        match desk.name.copy(alloc) {
            Ok(name) => names.push(name)?,
            Err(_) => return Err(AllocError),
        }
    }
    Ok(names)
}

/// Serves the desks over the opened file of the journal, and returns it.
fn serve_opened<D: Disk, K: Clock + Drop, P: DeskRunner, W: Write, E: Write>(
    alloc: Global,
    runner: &P,
    served: DeskSet,
    names: &[Name],
    messages: Messages,
    clock: K,
    disk: D,
    times: bool,
    output: &mut Noted<W>,
    errors: &mut E,
) -> (u8, D)
    requires fresh { D.is_disk disk → (D.durable disk ≡ D.seen disk) × (D.given disk ≡ []) }
    ensures { AreDesksOver (disks_of D.Disk) served.digested.set served.digested.documents.text (desk_names served.desks.desks.items) messages.entry.path.now times disk result.1
        (record { before = W.contents output.old.stream; after = W.contents output.new.stream }) result.0 }
{
    serve_file::<D, K, P, W, E, Brand>(
        alloc, runner, served, names, messages, clock, disk, times, output, errors,
    )
}

fn serve_file<D: Disk, K: Clock + Drop, P: DeskRunner, W: Write, E: Write, C: JournalRun>(
    alloc: Global,
    runner: &P,
    served: DeskSet,
    names: &[Name],
    messages: Messages,
    clock: K,
    mut disk: D,
    times: bool,
    output: &mut Noted<W>,
    errors: &mut E,
) -> (u8, D)
    requires fresh { D.is_disk disk → (D.durable disk ≡ D.seen disk) × (D.given disk ≡ []) }
    requires base { C.base ≡ text_of (recovered served.digested.documents.text (D.seen disk)) }
    requires since { C.since ≡ D.moment disk }
    ensures { AreDesksOver (disks_of D.Disk) served.digested.set served.digested.documents.text (desk_names served.desks.desks.items) messages.entry.path.now times disk result.1
        (record { before = W.contents output.old.stream; after = W.contents output.new.stream }) result.0 }
{
    let DeskSet { desks, digested } = served;
    match start_desks(alloc, digested.set, &mut disk, digested.documents, names) {
        Ok((started, blocks)) => {
            report_cut_off(alloc, messages.quiet, messages.path, started.cut, errors);
            let RecoveredPlant {
                engine,
                sum,
                block,
                ..
            } = started;
            let journal = Journal {
                disk,
                clock,
                sum,
                documents: digested.documents.text(),
            };
            serve_behind::<D, K, P, W, E, Brand>(
                alloc, runner, engine, &block, desks, blocks, messages, journal, times, output,
                errors,
            )
        }
        Err(fault) => {
            let status = refuse_start(alloc, messages.quiet, messages.path, fault, output, errors);
            (status, disk)
        }
    }
}

/// Writes the recovery block, and serves the desks behind it, each of which has a block of its own.
fn serve_behind<D: Disk, K: Clock + Drop, P: DeskRunner, W: Write, E: Write, C: JournalRun>(
    alloc: Global,
    runner: &P,
    engine: Engine,
    block: &[u8],
    desks: Desks,
    blocks: Vec<Lines>,
    messages: Messages,
    journal: Journal<D, K>,
    times: bool,
    output: &mut Noted<W>,
    errors: &mut E,
) -> (u8, D)
    requires at_rest { D.is_disk journal.disk → IsJournalKept C.documents C.base (D.durable journal.disk) (D.seen journal.disk) (D.given journal.disk) [] (sum_text journal.sum) }
    requires whole { D.is_disk journal.disk → IsWhole (D.given journal.disk) }
    requires recalled { D.is_disk journal.disk → HasRecalled C.documents C.base C.since (D.moment journal.disk) (D.left_since journal.disk) }
    requires was { D.is_disk journal.disk → C.was }
    ensures any_moment { D.is_disk result.1 → HasRecalled C.documents C.base C.since (D.moment result.1) (D.left_since result.1) }
    ensures stays { D.is_disk result.1 → ∥ C.was ∥₁ }
    ensures told { AreDesksToldBehind times engine.cleared (desk_names desks.desks.items) (plant_of engine) (D.is_disk result.1) (D.given journal.disk) (D.given result.1) block.now
        (record { before = W.contents output.old.stream; after = W.contents output.new.stream }) result.0 }
{
    if let Err(_) = write_block(output, block) {
        let status = complain_block(output.failure(), errors);
        return (status, journal.disk);
    }
    let mut groups: Groups<D, K, C> = Groups::new(journal.disk, journal.clock, journal.sum);
    let ended = runner.serve_desks(
        alloc,
        engine,
        desks,
        &blocks,
        times,
        &mut groups,
        output,
        errors,
    );
    let status = report_kept(alloc, messages, ended, output.failure(), errors);
    (status, groups.into_disk())
}

/// Reports how many batches are left, or why serving over the journal stopped, and gives the exit status.
fn report_kept<E: Write>(
    alloc: Global,
    messages: Messages,
    ended: Result<usize, DesksFault>,
    reason: Option<io::Error>,
    errors: &mut E,
) -> u8
    ensures well { result ≡ success_status → IsOk ended }
    ensures ends { (result ≡ success_status) ⊎ (result ≡ fault_status) ⊎ (result ≡ memory_status) }
{
    match ended {
        Err(DesksFault::Journal) => { complain_disk(alloc, messages.path, DiskError::File, errors) }
        _ => report_ended(alloc, messages.quiet, ended, reason, errors),
    }
}
