//! Running the program's commands.
ghost use Rattle.std.specs.Prelude.{◌≡◌, Bool, IfErr, IfOk, OnOk, map, string_bytes};
ghost use Rattle.batch_cli.specs.CommandLine.{judgement_of, request_of, source_of};
ghost use Rattle.std.specs.Io.KnownBytes.{Appends};
ghost use Rattle.batch_verdicts.specs.Courses.{IsCourse, IsSilentCourse};
ghost use Rattle.batch_verdicts.specs.Requests.{HaltsDemo, HaltsJudgement, HaltsSource, IsDemoSet, IsSetOf, IsVerdictText};
ghost use Rattle.std.specs.List.{flat_map, list_any};
ghost use Rattle.batch_verdicts.specs.Judging.{is_for_memory};
ghost use Rattle.batch_verdicts.specs.Running.{AreRefused, IsAnnounced, IsDone, IsExplained, IsPrinted, IsRefused, IsRun, fault_status, status_of_every};
ghost use Rattle.batch_verdicts.specs.Saying.{IsWarned};

use crate::course::Course;
use crate::demo::{CELL_PATH, CERTIFICATE_PATH, Demo, RECIPE_PATH};
use crate::desks::clear_desks;
use crate::digested::clear_digested;
use crate::documents::{Documents, clear_documents, show_documents, verify_documents};
use crate::every::{check_asked, draw_asked};
use crate::refusal::{DocumentRefusal, Halt};
use crate::saying::write_sentences;
use batch_cli::{
    AuditWords, CommandFault, CommandWords, DeskWords, Judgement, PlantOptions, SetSource,
    Subcommand, parse,
};
use batch_messages::explain;
use batch_verify::Cleared;
use std::alloc::{AllocError, Global};
use std::fmt::Display;
use std::io::Write;
use std::{io, slice};
use thiserror::Error;

/// The exit status if the requested text is printed.
pub const SUCCESS: u8 = 0;

/// The exit status if something is refused.
const REFUSED: u8 = 1;

/// The exit status if the words are no command.
pub const USAGE: u8 = 2;

/// The exit status if a file or the input can't be read, or the output can't be written.
pub const FILE_FAULT: u8 = 3;

/// The exit status if memory ran out.
pub const NO_MEMORY: u8 = 4;

/// The message if memory ran out.
pub const OUT_OF_MEMORY: &str = "out of memory";

/// The message if texts have no code.
const UNKNOWN_CODE: &str =
    "there is no such code; a code stands behind `refused`, a letter and a number, as D5, E11 or V4, and `batchd explain` lists all";

/// The output can't be written, for this reason.
#[derive(Debug, Error, Drop)]
#[error("the output can't be written: {0}")]
struct FailedWrite(io::Error);

/// Runs the request of the words. It judges documents and prints the verdict, or returns the text that a file is to hold. Or it clears
/// the set that is to be served, over which a record is to be audited or of which a plant is to be run. Or it names the record that
/// is to be read.
///
/// Verdicts, explanations and help go to the output, and all else to the errors: the sentence of a refusal, in one line, unless the
/// words ask for quiet, and the cause of a failure, in a free text. If that can't be written, the exit status is the same. Without
/// words the set is that of the demo.
// claim: verdict written; everything told; sentences on the errors; warnings; explained code; verdict's status; failed write; help
// claim: no command; unread file; no memory; set to be served; nothing written yet; demo's set
pub fn run_words<D: Documents, O: Write, E: Write>(
    alloc: Global,
    words: &[String],
    documents: &D,
    output: &mut O,
    errors: &mut E,
) -> Course
    ensures { IsRun (D.gives documents.now) (map string_bytes words.now)
        (record { before = O.contents output.old; after = O.contents output.new })
        (record { before = E.contents errors.old; after = E.contents errors.new }) result }
{
    match parse(alloc, words) {
        Ok(words) => run_command(alloc, words, documents, output, errors),
        Err(CommandFault::Help(text)) => Course::Ends(print(output, errors, &text, SUCCESS)),
        Err(CommandFault::Usage(text)) => Course::Ends(complain(errors, text.trim_end(), USAGE)),
        Err(CommandFault::Memory) => Course::Ends(complain(errors, OUT_OF_MEMORY, NO_MEMORY)),
    }
}

fn run_command<D: Documents, O: Write, E: Write>(
    alloc: Global,
    words: CommandWords,
    documents: &D,
    output: &mut O,
    errors: &mut E,
) -> Course
    ensures { IsDone (D.gives documents.now) (request_of words.command) words.quiet
        (record { before = O.contents output.old; after = O.contents output.new })
        (record { before = E.contents errors.old; after = E.contents errors.new }) result }
{
    let quiet = words.quiet;
    match course_of(alloc, words.command, quiet, documents, output, errors) {
        Ok(course) => course,
        Err(halt) => Course::Ends(announce(alloc, quiet, &halt, output, errors)),
    }
}

/// The course of the command.
fn course_of<D: Documents, O: Write, E: Write>(
    alloc: Global,
    command: Subcommand,
    quiet: bool,
    documents: &D,
    output: &mut O,
    errors: &mut E,
) -> Result<Course, Halt>
    ensures { IsCourse (D.gives documents.now) (request_of command) quiet
        (record { before = O.contents output.old; after = O.contents output.new })
        (record { before = E.contents errors.old; after = E.contents errors.new }) result }
{
    match command {
        Subcommand::Judge(judgement) => {
            let text = run_judgement(alloc, documents, &judgement, quiet, errors)?;
            Ok(Course::Ends(print(output, errors, &text, SUCCESS)))
        }
        Subcommand::Write { path, judgement } => {
            let text = run_judgement(alloc, documents, &judgement, quiet, errors)?;
            Ok(Course::Writes { path, text })
        }
        Subcommand::Serve(source) => {
            let set = clear_source(alloc, documents, &source)?;
            Ok(Course::Serves { set, quiet })
        }
        Subcommand::Remark { source, comments } => Ok(Course::Remarks {
            set: clear_source(alloc, documents, &source)?,
            quiet,
            comments,
        }),
        Subcommand::Keep {
            journal: path,
            cell,
            certificate,
            recipes,
            comments,
        } => Ok(Course::Keeps {
            digested: clear_digested(alloc, documents, &cell, &certificate, &recipes)?,
            quiet,
            path,
            comments,
        }),
        Subcommand::ServeDesks(words) => serve_desks(alloc, documents, words, quiet),
        Subcommand::Status { path } => Ok(Course::Reads { path }),
        Subcommand::Picture { path } => Ok(Course::Draws { path }),
        Subcommand::Audit(words) => audit(alloc, documents, words),
        Subcommand::Plant { source, options } => plant(alloc, documents, &source, options),
        Subcommand::Explain { texts } => {
            Ok(Course::Ends(print_codes(alloc, &texts, output, errors)))
        }
    }
}

/// Clears the set over which desks are to be served.
fn serve_desks<D: Documents>(
    alloc: Global,
    documents: &D,
    words: DeskWords,
    quiet: bool,
) -> Result<Course, Halt>
    ensures { IsSilentCourse (D.gives documents.now) (request_of (Subcommand.ServeDesks words)) quiet result }
{
    let served = clear_desks(
        alloc,
        documents,
        &words.desks,
        &words.cell,
        &words.certificate,
        &words.recipes,
    )?;
    Ok(Course::ServesDesks {
        served,
        quiet,
        journal: words.journal,
        times: words.times,
    })
}

/// Clears the set over which a record is to be audited.
fn audit<D: Documents>(alloc: Global, documents: &D, words: AuditWords) -> Result<Course, Halt>
    ensures { (quiet : Bool) → IsSilentCourse (D.gives documents.now) (request_of (Subcommand.Audit words)) quiet result }
{
    let set = clear_source(alloc, documents, &words.source)?;
    Ok(Course::Audits { set, audit: words })
}

/// Clears the set whose plant is to be run.
fn plant<D: Documents>(
    alloc: Global,
    documents: &D,
    source: &SetSource,
    options: PlantOptions,
) -> Result<Course, Halt>
    ensures { (quiet : Bool) → IsSilentCourse (D.gives documents.now) (request_of (Subcommand.Plant source.now options)) quiet result }
{
    let set = clear_source(alloc, documents, source)?;
    Ok(Course::Plants { set, options })
}
/// The output of a judgement. It warns of its documents unless quiet is asked for.
fn run_judgement<D: Documents, E: Write>(
    alloc: Global,
    documents: &D,
    judgement: &Judgement,
    quiet: bool,
    errors: &mut E,
) -> Result<String, Halt>
    ensures verdict { IfOk result (λ text. IsVerdictText (D.gives documents.now) (IsWarned quiet (E.contents errors.old) (E.contents errors.new))
        (judgement_of judgement.now) (string_bytes text)) }
    ensures halted { IfErr result (HaltsJudgement (D.gives documents.now) (IsWarned quiet (E.contents errors.old) (E.contents errors.new))
        (judgement_of judgement.now)) }
{
    match judgement {
        Judgement::Check { all, cell, recipes } => {
            check_asked(alloc, documents, *all, cell, recipes, quiet, errors)
        }
        Judgement::Draw { all, cell, recipes } => {
            draw_asked(alloc, documents, *all, cell, recipes, quiet, errors)
        }
        Judgement::Verify {
            cell,
            certificate,
            recipes,
        } => verify_documents(alloc, documents, cell, certificate, recipes, quiet, errors),
        Judgement::Show { cell, recipes } => show_documents(alloc, documents, cell, recipes),
    }
}

/// The set that is to be served, or over which a record is to be audited, or whose plant is to be run.
fn clear_source<D: Documents>(
    alloc: Global,
    documents: &D,
    source: &SetSource,
) -> Result<Cleared, Halt>
    ensures set { IfOk result (IsSetOf (D.gives documents.now) (source_of source.now)) }
    ensures halted { IfErr result (HaltsSource (D.gives documents.now) (source_of source.now)) }
{
    match source {
        SetSource::Demo => clear_demo(alloc),
        SetSource::Documents {
            cell,
            certificate,
            recipes,
        } => clear_documents(alloc, documents, cell, certificate, recipes),
    }
}

/// The set of the demo, read and cleared as any other.
fn clear_demo(alloc: Global) -> Result<Cleared, Halt>
    ensures set { IfOk result IsDemoSet }
    ensures halted { IfErr result HaltsDemo }
{
    let recipes = [String::from_str(alloc, RECIPE_PATH)?];
    clear_documents(alloc, &Demo, CELL_PATH, CERTIFICATE_PATH, &recipes)
}

/// Writes the reason why a command ends so, and returns the exit status.
fn announce<O: Write, E: Write>(
    alloc: Global,
    quiet: bool,
    halt: &Halt,
    output: &mut O,
    errors: &mut E,
) -> u8
    ensures { IsAnnounced quiet (record { before = O.contents output.old; after = O.contents output.new })
        (record { before = E.contents errors.old; after = E.contents errors.new }) halt.now result }
{
    match halt {
        Halt::Refused(refusal) => refuse(alloc, quiet, refusal, output, errors),
        Halt::Every(refusals) => refuse_every(alloc, quiet, refusals, output, errors),
        Halt::Unread(text) => complain(errors, text.as_str(), FILE_FAULT),
        Halt::Memory => complain(errors, OUT_OF_MEMORY, NO_MEMORY),
    }
}

/// Prints the refusal, writes its sentence, and returns its exit status, or that of a write that fails.
fn refuse<O: Write, E: Write>(
    alloc: Global,
    quiet: bool,
    refusal: &DocumentRefusal,
    output: &mut O,
    errors: &mut E,
) -> u8
    ensures { IsRefused quiet (record { before = O.contents output.old; after = O.contents output.new })
        (record { before = E.contents errors.old; after = E.contents errors.new }) refusal.now result }
{
    match write_out(output, refusal.text.as_bytes()) {
        Ok(()) => {
            write_sentences(alloc, quiet, slice::from_ref(refusal), errors);
            refusal.kind.status()
        }
        Err(error) => unwritten(errors, error),
    }
}

/// Prints the refusals, writes their sentences, and returns their exit status, or that of a write that fails, or of want of memory.
fn refuse_every<O: Write, E: Write>(
    alloc: Global,
    quiet: bool,
    refusals: &[DocumentRefusal],
    output: &mut O,
    errors: &mut E,
) -> u8
    ensures { AreRefused quiet (record { before = O.contents output.old; after = O.contents output.new })
        (record { before = E.contents errors.old; after = E.contents errors.new }) refusals.now result }
{
    let Ok(text) = refusals_text(alloc, refusals) else {
        return complain(errors, OUT_OF_MEMORY, NO_MEMORY);
    };
    match write_out(output, text.as_bytes()) {
        Ok(()) => {
            write_sentences(alloc, quiet, refusals, errors);
            status_of_every(refusals)
        }
        Err(error) => unwritten(errors, error),
    }
}

/// The lines of the refusals.
fn refusals_text(alloc: Global, refusals: &[DocumentRefusal]) -> Result<String, AllocError>
    ensures { IfOk result (λ text. string_bytes text ≡ flat_map (λ r. string_bytes r.text) refusals.now) }
{
    let mut text = String::new(alloc);
    for refusal in refusals {
        text.push_str(&refusal.text)?;
    }
    Ok(text)
}

/// The exit status of the refusals.
fn status_of_every(refusals: &[DocumentRefusal]) -> u8
    ensures { result ≡ status_of_every refusals.now }
{
    if is_one_for_memory(refusals) {
        NO_MEMORY
    } else {
        REFUSED
    }
}

/// Whether one of the refusals is for want of memory.
fn is_one_for_memory(refusals: &[DocumentRefusal]) -> bool
    ensures { result ≡ list_any (λ r. is_for_memory r.kind) refusals.now }
{
    refusals.iter().any(|refusal| refusal.kind.is_for_memory())
}

/// Prints the explanation of the first code in the texts, or without texts the meaning of each code.
fn print_codes<O: Write, E: Write>(
    alloc: Global,
    texts: &[String],
    output: &mut O,
    errors: &mut E,
) -> u8
    ensures { IsExplained (map string_bytes texts.now) (record { before = O.contents output.old; after = O.contents output.new })
        (record { before = E.contents errors.old; after = E.contents errors.new }) result }
{
    match explain(alloc, texts) {
        Ok(Some(text)) => print(output, errors, &text, SUCCESS),
        Ok(None) => complain(errors, UNKNOWN_CODE, USAGE),
        Err(_) => complain(errors, OUT_OF_MEMORY, NO_MEMORY),
    }
}

/// Prints the text, and returns the wanted exit status, or that of a write that fails.
pub fn print<O: Write, E: Write>(output: &mut O, errors: &mut E, text: &str, wanted: u8) -> u8
    ensures { IsPrinted (record { before = O.contents output.old; after = O.contents output.new })
        (record { before = E.contents errors.old; after = E.contents errors.new }) text.now wanted result }
{
    print_bytes(output, errors, text.as_bytes(), wanted)
}

/// Prints these bytes, and returns the wanted exit status, or that of a write that fails.
pub fn print_bytes<O: Write, E: Write>(
    output: &mut O,
    errors: &mut E,
    bytes: &[u8],
    wanted: u8,
) -> u8
    ensures { IsPrinted (record { before = O.contents output.old; after = O.contents output.new })
        (record { before = E.contents errors.old; after = E.contents errors.new }) bytes.now wanted result }
{
    match write_out(output, bytes) {
        Ok(()) => wanted,
        Err(error) => unwritten(errors, error),
    }
}

/// Writes the reason why the output can't be written, and returns the exit status of that.
fn unwritten<E: Write>(errors: &mut E, error: io::Error) -> u8
    ensures { result ≡ fault_status }
{
    complain(errors, FailedWrite(error), FILE_FAULT)
}

/// Writes the bytes and flushes them.
fn write_out<O: Write>(output: &mut O, bytes: &[u8]) -> io::Result<()>
    ensures { OnOk result (Appends (O.contents output.old) (O.contents output.new) bytes.now) }
{
    output.write_all(bytes)?;
    output.flush()
}

/// Writes the fault if it can, behind the program's name and with a line feed at its end, and returns the exit status in any case.
pub fn complain<E: Write, D: Display + Drop>(errors: &mut E, fault: D, status: u8) -> u8
    ensures { result ≡ status }
{
    let _ = writeln!(errors, "batchd: {fault}");
    let _ = errors.flush();
    status
}
