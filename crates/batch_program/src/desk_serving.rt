//! Serving desks, and how that ends.
ghost use Rattle.std.specs.Prelude.{◌≡◌, ℕ, Result, IfOk, option_map, string_bytes};
ghost use Rattle.batch_reader.specs.DeskNames.{desk_names};
ghost use Rattle.batch_pipes.specs.declared.fault.DesksFault as faults;
ghost use Rattle.batch_program.specs.DeskRuns.{AreDesksRun, IsDesksRecord, status_of_desks, status_of_fault};
ghost use Rattle.batch_program.specs.JournalRuns.{disks_of};

use crate::complaints::complain_stream;
use crate::desk_keeping::serve_desks_over_journal;
use crate::desk_runner::DeskRunner;
use crate::journals::Journals;
use crate::program::report_left;
use batch_engine::Engine;
use batch_pipes::{DesksFault, Noted};
use batch_serve::{NoJournal, service_is_safe};
use batch_verdicts::{DeskSet, FILE_FAULT, NO_MEMORY, OUT_OF_MEMORY, SUCCESS, complain};
use std::alloc::Global;
use std::io;
use std::io::Write;

/// Serves the desks over their set, with a journal of their lines in the file at the path if there is one, and gives the exit status.
pub(crate) fn run_desks<J: Journals, P: DeskRunner, W: Write, E: Write>(
    alloc: Global,
    runner: &P,
    served: DeskSet,
    quiet: bool,
    journal: Option<String>,
    times: bool,
    journals: &J,
    output: &mut Noted<W>,
    errors: &mut E,
) -> u8
    ensures { AreDesksRun (record { disks = disks_of J.File.Disk; opens = J.opens journals.now }) served.digested.set served.digested.documents.text (desk_names served.desks.desks.items) (option_map string_bytes journal) times
        (record { before = W.contents output.old.stream; after = W.contents output.new.stream }) result }
{
    match journal {
        Some(path) => serve_desks_over_journal(
            alloc, runner, served, quiet, &path, times, journals, output, errors,
        ),
        None => serve_desk_set(alloc, runner, served, quiet, times, output, errors),
    }
}

/// Serves the desks over their set without a journal.
fn serve_desk_set<P: DeskRunner, W: Write, E: Write>(
    alloc: Global,
    runner: &P,
    served: DeskSet,
    quiet: bool,
    times: bool,
    output: &mut Noted<W>,
    errors: &mut E,
) -> u8
    ensures { (ended : Result ℕ faults.DesksFault) × IfOk ended (λ left. IsDesksRecord times served.digested.set (desk_names served.desks.desks.items)
        (record { before = W.contents output.old.stream; after = W.contents output.new.stream })) × (result ≡ status_of_desks ended) }
{
    let DeskSet { desks, digested } = served;
    service_is_safe(&digested.set);
    let Ok(engine) = Engine::new(alloc, digested.set) else {
        return complain(errors, OUT_OF_MEMORY, NO_MEMORY);
    };
    let ended = runner.serve_desks(
        alloc,
        engine,
        desks,
        &[],
        times,
        &mut NoJournal,
        output,
        errors,
    );
    report_ended(alloc, quiet, ended, output.failure(), errors)
}

/// Reports how many batches are left, or why serving stopped, with the output's reason, and gives the exit status.
pub(crate) fn report_ended<E: Write>(
    alloc: Global,
    quiet: bool,
    ended: Result<usize, DesksFault>,
    reason: Option<io::Error>,
    errors: &mut E,
) -> u8
    ensures { result ≡ status_of_desks ended }
{
    match ended {
        Ok(left) => {
            report_left(alloc, quiet, left, errors);
            SUCCESS
        }
        Err(fault) => {
            let reason = match fault {
                DesksFault::Record => reason,
                _ => None,
            };
            complain_stream(fault, reason, desks_status(fault), errors)
        }
    }
}

/// The exit status after a fault.
fn desks_status(fault: DesksFault) -> u8
    ensures { result ≡ status_of_fault fault }
{
    match fault {
        DesksFault::Memory => NO_MEMORY,
        DesksFault::Thread => NO_MEMORY,
        DesksFault::Journal => FILE_FAULT,
        DesksFault::Record => FILE_FAULT,
        DesksFault::RoundsOut => FILE_FAULT,
    }
}
