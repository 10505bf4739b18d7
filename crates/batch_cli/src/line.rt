//! The command line of the program, built for `clap`.
ghost use Rattle.std.specs.Prelude.{◌≡◌, IfOk};
ghost use Rattle.clap.specs.Words.{app_of};
ghost use Rattle.batch_cli.specs.CommandLine.{bare_app, program_app};
ghost use Rattle.batch_cli.specs.Table.{HasApp, text_app};

use crate::table::{CommandText, commands};
use clap::Command;
use std::alloc::{AllocError, Global};

/// The version number of the program.
pub const VERSION: &str = "0.2.0";

const ABOUT: &str =
    "A batch server for one process cell; without a command it serves event lines from standard input over a demo cell";

const AFTER_HELP: &str = "\
An example, in examples/paint_plant:
  batchd check cell.toml primer.toml rinse-mended.toml > certificate.new
  batchd verify cell.toml certificate.new primer.toml rinse-mended.toml
  batchd run cell.toml certificate.new primer.toml rinse-mended.toml

The demo, without a command; type these lines:
  create A 1000
  start 1
  report R1 ADD done

Exit status:
  0  accepted, or the input ran to its end, or the plant's batches are complete, or the text that was asked for is printed
  1  refused: a line on standard output, and of documents, a certificate or a journal its meaning on standard error
  2  the words are no command
  3  a file, the input or the output failed
  4  no memory, or a thread can't be started
";

/// The whole command line.
pub(crate) fn program<'a>(alloc: Global) -> Result<Command<'a>, AllocError>
    ensures { IfOk result (λ program. app_of program ≡ program_app) }
{
    let mut program = bare(alloc)?;
    let texts = commands();
    for text in texts {
        let added = command(alloc, text)?;
        program = program.subcommand(added)?;
    }
    Ok(program)
}

/// The program without its commands.
fn bare<'a>(alloc: Global) -> Result<Command<'a>, AllocError>
    ensures { IfOk result (λ bare. app_of bare ≡ bare_app) }
{
    Command::new(alloc, "batchd")
        .about(ABOUT)
        .after_help(AFTER_HELP)
        .version(VERSION)
        .no_binary_name(true)
        .bin_name("batchd")
}

/// The command of this text.
fn command<'a>(alloc: Global, text: &CommandText<'a>) -> Result<Command<'a>, AllocError>
    ensures { IfOk result (HasApp (text_app text.now)) }
{
    let mut command = Command::new(alloc, text.name)
        .about(text.about)
        .after_help(text.example);
    for argument in text.arguments {
        command = command.arg(argument.to_arg(alloc))?;
    }
    Ok(command)
}
