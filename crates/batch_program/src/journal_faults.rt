//! Messages on a journal over which nothing can be served, or nothing further.
ghost use Rattle.std.specs.Prelude.{◌≡◌, ◌⊎◌, IfOk, string_bytes};
ghost use Rattle.batch_verdicts.specs.Running.{fault_status, memory_status};
ghost use Rattle.batch_program.specs.JournalRuns.{IsJournalRefused, journal_text};
ghost use Rattle.batch_program.specs.Keeping.{IsStartTold};

use crate::complaints::{complain_file, complain_stream};
use crate::statuses::REFUSED;
use batch_journal::{DiskError, RecoveryFault};
use batch_keep::{BlockFault, KeepFault, StartFault};
use batch_messages::shown;
use batch_pipes::Noted;
use batch_record::StatusFault;
use batch_serve::ServeFault;
use batch_verdicts::{FILE_FAULT, NO_MEMORY, OUT_OF_MEMORY, complain, print, write_and_flush};
use std::alloc::{AllocError, Global};
use std::io;
use std::io::{ErrorKind, Read, Write};

/// Prints why a journal is refused, or reports why it can't be served over, and gives the exit status.
#[tactic(auto, using(crate::proofs::RunsOverJournal::start_told, crate::proofs::RunsOverJournal::start_untold))]
pub(crate) fn refuse_start<W: Write, E: Write>(
    alloc: Global,
    quiet: bool,
    path: &str,
    fault: StartFault,
    output: &mut W,
    errors: &mut E,
) -> u8
    ensures { IsStartTold path.now fault (record { before = W.contents output.old; after = W.contents output.new }) result }
{
    match fault {
        StartFault::Recovery(RecoveryFault::Disk(fault)) => complain_disk(
            alloc, path, fault, errors,
        ),
        StartFault::Recovery(refusal) => refuse(alloc, quiet, path, refusal, output, errors),
        StartFault::Memory
        | StartFault::Block(BlockFault::Memory)
        | StartFault::Block(BlockFault::Status(StatusFault::Memory)) => {
            complain(errors, OUT_OF_MEMORY, NO_MEMORY)
        }
        StartFault::Block(fault) => complain_file(alloc, path, fault, errors),
    }
}

/// Prints the refusal of a journal. Unless quiet is asked for, its meaning goes to the errors.
#[tactic(auto, using(crate::proofs::RunsOverJournal::journal_refused, crate::proofs::RunsOverJournal::journal_starved))]
fn refuse<W: Write, E: Write>(
    alloc: Global,
    quiet: bool,
    path: &str,
    refusal: RecoveryFault,
    output: &mut W,
    errors: &mut E,
) -> u8
    ensures { IsJournalRefused path.now refusal (record { before = W.contents output.old; after = W.contents output.new }) result }
{
    let Ok(text) = refusal_text(alloc, path, refusal) else {
        return complain(errors, OUT_OF_MEMORY, NO_MEMORY);
    };
    let status = print(output, errors, &text, REFUSED);
    if status == REFUSED && !quiet {
        complain_file(alloc, path, refusal, errors);
    }
    status
}

/// The line of the refusal of a journal.
fn refusal_text(alloc: Global, path: &str, refusal: RecoveryFault) -> Result<String, AllocError>
    ensures { IfOk result (λ text. string_bytes text ≡ journal_text path.now refusal) }
{
    let path = shown(alloc, path)?;
    match refusal {
        RecoveryFault::Disk(_) | RecoveryFault::NoJournal => {
            format!(in alloc; "refused J1 {path}\n")
        }
        RecoveryFault::OtherDocuments => format!(in alloc; "refused J2 {path}\n"),
        RecoveryFault::Damaged(line) => format!(in alloc; "refused J3 {path} {line}\n"),
    }
}

/// Reports how many bytes were cut off behind the last whole group, if there were any and quiet isn't asked for.
pub(crate) fn report_cut_off<E: Write>(
    alloc: Global,
    quiet: bool,
    path: &str,
    cut: usize,
    errors: &mut E,
) {
    if quiet || cut == 0 {
        return;
    }
    let Ok(path) = shown(alloc, path) else {
        return;
    };
    if let Ok(line) = cut_text(alloc, &path, cut) {
        write_and_flush(errors, &line);
    }
}

fn cut_text(alloc: Global, path: &str, cut: usize) -> Result<String, AllocError> {
    if cut == 1 {
        format!(in alloc; "batchd: {path}: 1 byte behind the last whole group was cut off\n")
    } else {
        format!(in alloc; "batchd: {path}: {cut} bytes behind the last whole group were cut off\n")
    }
}

/// Reports that the recovery block can't be written.
pub(crate) fn complain_block<E: Write>(reason: Option<io::Error>, errors: &mut E) -> u8
    ensures { result ≡ fault_status }
{
    complain_stream(ServeFault::Write, reason, FILE_FAULT, errors)
}

/// Reports why serving over a journal stopped, and gives the exit status.
pub(crate) fn complain_stopped<R: Read, W: Write, E: Write>(
    alloc: Global,
    path: &str,
    fault: KeepFault,
    input: &Noted<R>,
    output: &Noted<W>,
    errors: &mut E,
) -> u8
    ensures { (result ≡ fault_status) ⊎ (result ≡ memory_status) }
{
    match fault {
        KeepFault::Memory => complain(errors, OUT_OF_MEMORY, NO_MEMORY),
        KeepFault::Serve(ServeFault::Read) => match input.failure() {
            Some(reason) => complain_stream(ServeFault::Read, Some(reason), FILE_FAULT, errors),
            None => complain_disk(alloc, path, DiskError::File, errors),
        },
        KeepFault::Serve(ServeFault::Write) => {
            complain_stream(ServeFault::Write, output.failure(), FILE_FAULT, errors)
        }
        KeepFault::Serve(fault) => complain_stream(fault, None, FILE_FAULT, errors),
    }
}

/// Reports why the journal at the path can't be opened.
pub(crate) fn complain_unopened<E: Write>(
    alloc: Global,
    path: &str,
    reason: io::Error,
    errors: &mut E,
) -> u8
    ensures { (result ≡ fault_status) ⊎ (result ≡ memory_status) }
{
    if reason.kind() == ErrorKind::WouldBlock {
        return complain_file(alloc, path, "another process has it", errors);
    }
    complain_file(alloc, path, reason, errors)
}

/// Reports why a call of the journal's disk failed, and gives the exit status.
pub(crate) fn complain_disk<E: Write>(
    alloc: Global,
    path: &str,
    fault: DiskError,
    errors: &mut E,
) -> u8
    ensures { (result ≡ fault_status) ⊎ (result ≡ memory_status) }
{
    match fault {
        DiskError::File => complain_file(alloc, path, fault, errors),
        DiskError::Memory => complain(errors, OUT_OF_MEMORY, NO_MEMORY),
    }
}
