//! The program over any documents and streams.
ghost use Rattle.std.specs.Prelude.{◌≡◌, IfOk, map, string_bytes};
ghost use Rattle.batch_program.specs.JournalRuns.{disks_of};
ghost use Rattle.batch_program.specs.Programs.{IsLeftTold, IsProgramRun, IsSetServed, IsServedRemarked, left_text, status_of_serving};

use crate::complaints::complain_stream;
use crate::desk_runner::DeskRunner;
use crate::desk_serving::run_desks;
use crate::file_writing::write_file;
use crate::journals::Journals;
use crate::keeping::serve_over_journal;
use crate::plant::report_of_plant;
use crate::plant_runner::PlantRunner;
use crate::record_audit::audit_record;
use crate::record_drawing::draw_record_at;
use crate::record_status::print_record_state;
use crate::records::Records;
use crate::statuses::serving_status;
use batch_cli::Comments;
use batch_pipes::Noted;
use batch_serve::{NoRemarks, Remarking, ServeFault, SetFault, serve_remarked, serve_set};
use batch_verdicts::{Course, Documents, run_words, write_and_flush};
use batch_verify::Cleared;
use std::alloc::{AllocError, Global};
use std::io;
use std::io::{Read, Write};

/// How often standard input or a record may be read, interrupted calls among them. No clause counts them; tests do, with other limits.
pub const MAX_READS: u64 = 1_000_000_000;

/// Carries out the command of the words, and gives the exit status.
///
/// A command
/// - judges documents, and prints the verdict or writes it into a file;
/// - serves event lines, of the input or of desks, over the set that the words name, with a journal or without one;
/// - prints the state to which a record leads;
/// - draws a record;
/// - prints whether a record is that of the lines that were sent;
/// - has a plant of a set run;
/// - or explains codes.
///
/// Verdicts, help, the record, the state, the picture or the finding of one, and the lines of a plant go to the output; all else
/// goes, in a free text, to the errors. Refused events are part of the record and don't change the status. If the input ends while
/// batches are neither complete, stopped nor aborted, one line on the errors says how many, unless quiet is asked for; if none is,
/// nothing is written there.
///
/// The time in comments of the record, if they are asked for, is that of the journals' clock. The output is returned.
// claim: serves; serves with comments; tells instead; record told; record drawn; record audited; served over a file; behind the block
// claim: never lost; desks served; desks over a file; plants run; batches left; limit of reads; file written
pub fn run_program<
    D: Documents + Records + Journals,
    P: PlantRunner + DeskRunner,
    R: Read,
    W: Write,
    E: Write,
>(
    alloc: Global,
    words: &[String],
    documents: &D,
    plants: &P,
    input: &mut Noted<R>,
    mut output: Noted<W>,
    errors: &mut E,
) -> (u8, Noted<W>)
    ensures { IsProgramRun (D.gives documents.now) (D.holds documents.now)
        (record { disks = disks_of D.File.Disk; opens = D.opens documents.now })
        (map string_bytes words.now)
        (record {
          unread = R.remaining input.old.stream;
          left = R.remaining input.new.stream;
          before = W.contents output.stream;
          after = W.contents result.1.stream;
        })
        (record { before = E.contents errors.old; after = E.contents errors.new }) result.0 }
{
    match run_words(alloc, words, documents, &mut output, errors) {
        Course::Ends(status) => (status, output),
        Course::Writes { path, text } => {
            (
                write_file(alloc, words, &path, &text, documents, errors),
                output,
            )
        }
        Course::Serves { set, quiet } => serve_plainly(alloc, set, quiet, input, output, errors),
        Course::Remarks {
            set,
            quiet,
            comments,
        } => serve_with_comments(
            alloc, set, quiet, comments, documents, input, output, errors,
        ),
        Course::Keeps {
            digested,
            quiet,
            path,
            comments,
        } => serve_over_journal(
            alloc, digested, quiet, &path, comments, documents, input, output, errors,
        ),
        Course::ServesDesks {
            served,
            quiet,
            journal,
            times,
        } => {
            let status = run_desks(
                alloc,
                plants,
                served,
                quiet,
                journal,
                times,
                documents,
                &mut output,
                errors,
            );
            (status, output)
        }
        Course::Reads { path } => {
            let status = print_record_state(alloc, path, documents, input, &mut output, errors);
            (status, output)
        }
        Course::Draws { path } => {
            let status = draw_record_at(alloc, path, documents, input, &mut output, errors);
            (status, output)
        }
        Course::Audits { set, audit } => {
            let status = audit_record(alloc, set, &audit, documents, input, &mut output, errors);
            (status, output)
        }
        Course::Plants { set, options } => {
            let end = plants.run_plant(alloc, set, options);
            let status = report_of_plant(alloc, options.batches, &end, &mut output, errors);
            (status, output)
        }
    }
}

/// Serves event lines over the set, and gives the exit status.
fn serve_plainly<R: Read, W: Write, E: Write>(
    alloc: Global,
    set: Cleared,
    quiet: bool,
    input: &mut Noted<R>,
    mut output: Noted<W>,
    errors: &mut E,
) -> (u8, Noted<W>)
    ensures { IsSetServed quiet set
        (record {
          unread = R.remaining input.old.stream;
          left = R.remaining input.new.stream;
          before = W.contents output.stream;
          after = W.contents result.1.stream;
        })
        (record { before = E.contents errors.old; after = E.contents errors.new }) result.0 }
{
    let served = serve_set(alloc, set, input, &mut output, &mut NoRemarks, MAX_READS);
    let reason = reason_of(served, input, &output);
    (report_served(alloc, quiet, served, reason, errors), output)
}

/// Serves with comments in the record. Their time is that of the journals' clock.
fn serve_with_comments<J: Journals, R: Read, W: Write, E: Write>(
    alloc: Global,
    set: Cleared,
    quiet: bool,
    comments: Comments,
    journals: &J,
    input: &mut Noted<R>,
    output: Noted<W>,
    errors: &mut E,
) -> (u8, Noted<W>)
    ensures { IsServedRemarked quiet set
        (record {
          unread = R.remaining input.old.stream;
          left = R.remaining input.new.stream;
          before = W.contents output.stream;
          after = W.contents result.1.stream;
        })
        (record { before = E.contents errors.old; after = E.contents errors.new }) result.0 }
{
    let remarking = Remarking::new(journals.clock(), comments.echo, comments.times);
    let (served, output) = serve_remarked(alloc, set, input, output, remarking, MAX_READS);
    let reason = reason_of(served, input, &output);
    (report_served(alloc, quiet, served, reason, errors), output)
}

/// The reason of the stream that stopped serving. A writer that accepts nothing gives none.
fn reason_of<R, W>(
    served: Result<usize, SetFault>,
    input: &Noted<R>,
    output: &Noted<W>,
) -> Option<io::Error> {
    match served {
        Err(SetFault::Stopped(ServeFault::Read)) => input.failure(),
        Err(SetFault::Stopped(ServeFault::Write)) => output.failure(),
        _ => None,
    }
}

/// Reports why serving stopped, or how many batches the end of the input left unfinished, and gives the exit status.
// claim: status of serving
fn report_served<E: Write>(
    alloc: Global,
    quiet: bool,
    served: Result<usize, SetFault>,
    reason: Option<io::Error>,
    errors: &mut E,
) -> u8
    ensures status { result ≡ status_of_serving served }
    ensures told { IfOk served (IsLeftTold quiet (record { before = E.contents errors.old; after = E.contents errors.new })) }
{
    let status = serving_status(served);
    match served {
        Ok(left) => report_left(alloc, quiet, left, errors),
        Err(fault) => return complain_stream(fault, reason, status, errors),
    }
    status
}

/// Reports how many batches are neither complete, stopped nor aborted, if there are any and quiet isn't asked for.
pub(crate) fn report_left<E: Write>(alloc: Global, quiet: bool, left: usize, errors: &mut E)
    ensures { IsLeftTold quiet (record { before = E.contents errors.old; after = E.contents errors.new }) left }
{
    if quiet || left == 0 {
        return;
    }
    if let Ok(line) = left_text(alloc, left) {
        write_and_flush(errors, &line);
    }
}

/// The line on so many batches that are neither complete, stopped nor aborted.
fn left_text(alloc: Global, left: usize) -> Result<String, AllocError>
    ensures { IfOk result (λ line. string_bytes line ≡ left_text left) }
{
    if left == 1 {
        format!(in alloc;
            "batchd: the input ended before 1 batch was complete, stopped or aborted\n"
        )
    } else {
        format!(in alloc;
            "batchd: the input ended before {left} batches were complete, stopped or aborted\n"
        )
    }
}
