//! The words of the command line.
ghost use Rattle.std.specs.Prelude.{◌≡◌, ◌≤◌, ◌⊎◌, IfOk, IfErr, is_some, MatchOption, map, option_map, string_bytes, codes, []};
ghost use Rattle.std.specs.Str.Parse.{digits_value, without_leading_plus};
ghost use Rattle.clap.specs.Words.{FailsBy, IsUnsignedIn, fault_of, first_of, found_of, kind_of, rows_of, subcommand_of, subcommand_rows_of};
ghost use Rattle.clap.specs.declared.error.kind.ErrorKind.TheVariants.{MissingRequiredArgument};
ghost use Rattle.batch_cli.specs.CommandLine.{AreWordsOf, HasOptionsOf, IsFaultOf, IsFaultOfKind, audited_by, certified_by, checked_by, desks_by, is_given, named_by, number_given, program_app, request_of, word_of, words_of, judged_by, judgement_of, faults_of, lacks_recipe, plant_source, run_by, serve_by, source_of};

use crate::command::{
    AuditWords, CommandFault, CommandWords, DeskWords, Judgement, SetSource, Subcommand,
};
use crate::comments::Comments;
use crate::line::program;
use crate::plant_options::PlantOptions;
use clap::error::ErrorKind;
use clap::{ArgMatches, Error};
use std::alloc::{AllocError, Global};

/// The message on a plant that lacks a recipe.
const MISSING_RECIPE: &str = "\
error: beside a CELL a plant needs its CERT and at least one RECIPE

Usage: batchd plant [OPTIONS] [CELL] [CERT] [RECIPE]...

For more information, try '--help'.
";

/// Parses the words that follow the program's name. Without words the program is to serve.
///
/// The error is [`CommandFault::Help`] if clap's fault is that help or the version is asked for. At any other fault, and if a plant of
/// a cell lacks a recipe, it is [`CommandFault::Usage`]. If memory ran out, be it for the text of one of these, it is
/// [`CommandFault::Memory`].
// claim: command named (words, taken)
pub fn parse(alloc: Global, words: &[String]) -> Result<CommandWords, CommandFault>
    // claim: options of a plant
    ensures words { IfOk result (AreWordsOf (subcommand_of program_app (map string_bytes words.now))) }
    ensures taken { IfOk result (λ _. faults_of (map string_bytes words.now) ≡ []) }
    // claim: help asked for
    ensures fault { IfErr result (IsFaultOf (faults_of (map string_bytes words.now))) }
{
    match matches_of(alloc, words) {
        Ok(matches) => {
            if lacks_recipe(&matches) {
                return Err(missing_recipe(alloc));
            }
            Ok(words_of(alloc, &matches)?)
        }
        Err(error) => Err(fault_from(alloc, &error)),
    }
}

fn matches_of<'a>(alloc: Global, words: &'a [String]) -> Result<ArgMatches<'a>, Error>
    ensures entered { IfOk result (λ matches. subcommand_rows_of matches ≡ subcommand_of program_app (map string_bytes words.entry.now)) }
    ensures kinds { FailsBy (fault_of program_app (map string_bytes words.entry.now)) result }
{
    program(alloc)?.try_get_matches_from(words)
}

/// Whether the words ask for a plant of a cell without a recipe. `clap` isn't told that the two belong together, since its clauses
/// leave out arguments that do.
fn lacks_recipe(matches: &ArgMatches<'_>) -> bool
    ensures { result ≡ lacks_recipe (subcommand_rows_of matches.now) }
{
    match matches.subcommand() {
        Some((name, words)) => {
            name == "plant" && has_word(words, "CELL") && !has_word(words, "RECIPE")
        }
        None => false,
    }
}

/// The fault of a plant that lacks a recipe.
fn missing_recipe(alloc: Global) -> CommandFault
    ensures { IsFaultOfKind MissingRequiredArgument result }
{
    match String::from_str(alloc, MISSING_RECIPE) {
        Ok(text) => CommandFault::Usage(text),
        Err(_) => CommandFault::Memory,
    }
}

fn words_of(alloc: Global, matches: &ArgMatches<'_>) -> Result<CommandWords, AllocError>
    ensures { IfOk result (AreWordsOf (subcommand_rows_of matches.now)) }
{
    let Some((name, words)) = matches.subcommand() else {
        return Ok(CommandWords {
            quiet: false,
            command: Subcommand::Serve(SetSource::Demo),
        });
    };
    Ok(CommandWords {
        quiet: flag(words, "quiet"),
        command: command_of(alloc, name, words)?,
    })
}

fn command_of(alloc: Global, name: &str, words: &ArgMatches<'_>) -> Result<Subcommand, AllocError>
    ensures { IfOk result (λ command. request_of command ≡ named_by name.now (rows_of (found_of words.now))) }
{
    match name {
        "explain" => Ok(Subcommand::Explain {
            texts: several(alloc, words, "CODE")?,
        }),
        "plant" => Ok(Subcommand::Plant {
            source: plant_source(alloc, words)?,
            options: plant_options(words),
        }),
        "status" => Ok(Subcommand::Status {
            path: optional(alloc, words, "RECORD")?,
        }),
        "draw" => Ok(Subcommand::Picture {
            path: optional(alloc, words, "RECORD")?,
        }),
        "audit" => audit_command(alloc, words),
        "serve" => desks_command(alloc, words),
        "check" => check_command(alloc, words),
        "show" => Ok(Subcommand::Judge(Judgement::Show {
            cell: word(alloc, words, "CELL")?,
            recipes: several(alloc, words, "RECIPE")?,
        })),
        _ => certified_command(alloc, name, words),
    }
}

/// `audit`, of a record that has to be whole or of one that may end too soon.
fn audit_command(alloc: Global, words: &ArgMatches<'_>) -> Result<Subcommand, AllocError>
    ensures { IfOk result (λ command. request_of command ≡ audited_by (rows_of (found_of words.now))) }
{
    Ok(Subcommand::Audit(AuditWords {
        beginning: flag(words, "beginning"),
        path: word(alloc, words, "RECORD")?,
        source: SetSource::Documents {
            cell: word(alloc, words, "CELL")?,
            certificate: word(alloc, words, "CERT")?,
            recipes: several(alloc, words, "RECIPE")?,
        },
    }))
}

/// `serve`, which has a document of desks, with a journal or without one.
fn desks_command(alloc: Global, words: &ArgMatches<'_>) -> Result<Subcommand, AllocError>
    ensures { IfOk result (λ command. request_of command ≡ desks_by (rows_of (found_of words.now))) }
{
    let times = flag(words, "times");
    Ok(Subcommand::ServeDesks(DeskWords {
        desks: word(alloc, words, "DESKS")?,
        cell: word(alloc, words, "CELL")?,
        certificate: word(alloc, words, "CERT")?,
        recipes: several(alloc, words, "RECIPE")?,
        journal: optional(alloc, words, "journal")?,
        times,
    }))
}

/// `check`, which prints, or writes a file.
fn check_command(alloc: Global, words: &ArgMatches<'_>) -> Result<Subcommand, AllocError>
    ensures { IfOk result (λ command. request_of command ≡ checked_by (rows_of (found_of words.now))) }
{
    let judgement = check_judgement(alloc, words)?;
    match optional(alloc, words, "write")? {
        Some(path) => Ok(Subcommand::Write { path, judgement }),
        None => Ok(Subcommand::Judge(judgement)),
    }
}

/// `check`, with a drawing or without one.
fn check_judgement(alloc: Global, words: &ArgMatches<'_>) -> Result<Judgement, AllocError>
    ensures { IfOk result (λ judgement. judgement_of judgement ≡ judged_by (rows_of (found_of words.now))) }
{
    let cell = word(alloc, words, "CELL")?;
    let recipes = several(alloc, words, "RECIPE")?;
    let all = flag(words, "all");
    Ok(if flag(words, "dot") {
        Judgement::Draw { all, cell, recipes }
    } else {
        Judgement::Check { all, cell, recipes }
    })
}

/// `verify` or `run`, which have a certificate.
fn certified_command(
    alloc: Global,
    name: &str,
    words: &ArgMatches<'_>,
) -> Result<Subcommand, AllocError>
    ensures { IfOk result (λ command. request_of command ≡ certified_by name.now (rows_of (found_of words.now))) }
{
    let cell = word(alloc, words, "CELL")?;
    let certificate = word(alloc, words, "CERT")?;
    let recipes = several(alloc, words, "RECIPE")?;
    if name == "verify" {
        return Ok(Subcommand::Judge(Judgement::Verify {
            cell,
            certificate,
            recipes,
        }));
    }
    Ok(match optional(alloc, words, "journal")? {
        Some(journal) => Subcommand::Keep {
            journal,
            cell,
            certificate,
            recipes,
            comments: comments_of(words),
        },
        None => serve_command(
            words,
            SetSource::Documents {
                cell,
                certificate,
                recipes,
            },
        ),
    })
}

/// `run` without a journal, with comments in the record or without them.
fn serve_command(words: &ArgMatches<'_>, source: SetSource) -> Subcommand
    ensures { request_of result ≡ serve_by (source_of source) (rows_of (found_of words.now)) }
{
    let comments = comments_of(words);
    if comments.echo || comments.times {
        Subcommand::Remark { source, comments }
    } else {
        Subcommand::Serve(source)
    }
}

/// The comments in the record that the words ask for.
fn comments_of(words: &ArgMatches<'_>) -> Comments
    ensures { (result.echo ≡ is_given (codes "echo") (rows_of (found_of words.now))) × (result.times ≡ is_given (codes "times") (rows_of (found_of words.now))) }
{
    Comments {
        echo: flag(words, "echo"),
        times: flag(words, "times"),
    }
}

/// The documents of a plant, or the demo's if no cell is given.
fn plant_source(alloc: Global, words: &ArgMatches<'_>) -> Result<SetSource, AllocError>
    ensures { IfOk result (λ source. source_of source ≡ plant_source (first_of (codes "CELL") (rows_of (found_of words.now))) (rows_of (found_of words.now))) }
{
    let Some(cell) = optional(alloc, words, "CELL")? else {
        return Ok(SetSource::Demo);
    };
    Ok(SetSource::Documents {
        cell,
        certificate: word(alloc, words, "CERT")?,
        recipes: several(alloc, words, "RECIPE")?,
    })
}

fn plant_options(words: &ArgMatches<'_>) -> PlantOptions
    ensures { HasOptionsOf (rows_of (found_of words.now)) result }
{
    PlantOptions {
        batches: number(words, "batches", 1, 100, 3),
        ticks: number(words, "ticks", 0, 1_000, 5),
        ring: number(words, "ring", 1, 64, 1),
    }
}

/// The number of this range that was given, or the usual one. clap refuses a word that gives none in the range.
fn number(words: &ArgMatches<'_>, name: &str, least: u64, most: u64, usual: u64) -> u64
    requires { (least ≤ usual) × (usual ≤ most) }
    ensures number { result ≡ number_given least most usual (first_of name.now (rows_of (found_of words.now))) }
    ensures within { (least ≤ result) × (result ≤ most) }
{
    match words.get_str(name) {
        Some(text) => number_in(text, least, most).unwrap_or(usual),
        None => usual,
    }
}

/// The number that the text gives, if it lies in the range.
fn number_in(text: &str, least: u64, most: u64) -> Option<u64>
    ensures { MatchOption result (IsUnsignedIn least most text.now → ⊥) (λ number. IsUnsignedIn least most text.now
        × (number ≡ digits_value 10 (without_leading_plus text.now))) }
{
    match text.parse::<u64>() {
        Ok(number) if least <= number && number <= most => Some(number),
        _ => None,
    }
}

/// Whether the flag was given. If it wasn't, clap has the text `false` for it.
fn flag(words: &ArgMatches<'_>, name: &str) -> bool
    ensures { result ≡ is_given name.now (rows_of (found_of words.now)) }
{
    match words.get_str(name) {
        Some(text) => text == "true",
        None => false,
    }
}

/// Whether a word was given for the argument.
fn has_word(words: &ArgMatches<'_>, name: &str) -> bool
    ensures { result ≡ is_some (first_of name.now (rows_of (found_of words.now))) }
{
    words.get_str(name).is_some()
}

/// The word that was given for the argument, or an empty one if none was.
fn word(alloc: Global, words: &ArgMatches<'_>, name: &str) -> Result<String, AllocError>
    ensures { IfOk result (λ word. string_bytes word ≡ word_of name.now (rows_of (found_of words.now))) }
{
    match words.get_str(name) {
        Some(word) => String::from_str(alloc, word),
        None => Ok(String::new(alloc)),
    }
}

/// The word that was given for the argument, if one was.
fn optional(alloc: Global, words: &ArgMatches<'_>, name: &str) -> Result<Option<String>, AllocError>
    ensures { IfOk result (λ given. option_map string_bytes given ≡ first_of name.now (rows_of (found_of words.now))) }
{
    match words.get_str(name) {
        Some(word) => Ok(Some(String::from_str(alloc, word)?)),
        None => Ok(None),
    }
}

/// The words that were given for the argument, of which there may be none.
fn several(alloc: Global, words: &ArgMatches<'_>, name: &str) -> Result<Vec<String>, AllocError>
    ensures { IfOk result (λ several. map string_bytes several.items ≡ words_of name.now (rows_of (found_of words.now))) }
{
    match words.get_strs(name) {
        Some(given) => copies(alloc, given),
        None => Ok(Vec::new(alloc)),
    }
}

fn copies(alloc: Global, texts: &[&str]) -> Result<Vec<String>, AllocError>
    ensures { IfOk result (λ copies. map string_bytes copies.items ≡ map (λ text. text.now) texts.now) }
{
    let mut copies = Vec::new(alloc);
    for text in texts {
        copies.push(String::from_str(alloc, text)?)?;
    }
    Ok(copies)
}

/// The fault for clap's error. Help and the version go to the user who asked for them.
fn fault_from(alloc: Global, error: &Error) -> CommandFault
    ensures { IsFaultOfKind (kind_of error.now) result }
{
    let kind = error.kind();
    if kind == ErrorKind::OutOfMemory {
        return CommandFault::Memory;
    }
    match error.to_string(alloc) {
        Ok(text) if kind == ErrorKind::DisplayHelp || kind == ErrorKind::DisplayVersion => {
            CommandFault::Help(text)
        }
        Ok(text) => CommandFault::Usage(text),
        Err(_) => CommandFault::Memory,
    }
}
