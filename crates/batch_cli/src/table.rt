//! The table of the program's commands, with their help texts.
ghost use Rattle.std.specs.Prelude.{◌≡◌};
ghost use Rattle.batch_cli.specs.CommandLine.{bare_app, program_app};
ghost use Rattle.batch_cli.specs.Table.{with_commands};

use crate::argument::{Argument, Form};

/// A command: its name, its description, an example of it, and its arguments.
pub(crate) struct CommandText<'a> {
    pub(crate) name: &'a str,
    pub(crate) about: &'a str,
    pub(crate) example: &'a str,
    pub(crate) arguments: &'a [Argument<'a>],
}

/// The commands, in the order in which help lists them.
pub(crate) fn commands() -> &'static [CommandText<'static>]
    ensures { with_commands bare_app result.now ≡ program_app }
{
    &COMMANDS
}

static COMMANDS: [CommandText<'static>; 10] = [
    CommandText {
        name: "check",
        about: "Prints a certificate for the recipes, or why there is none",
        example: CHECK_HELP,
        arguments: &[
            CELL,
            RECIPES,
            Argument(
                "dot",
                Form::Flag,
                "Draws which resource is asked for after which, for Graphviz, and circles in red",
            ),
            Argument(
                "write",
                Form::Path,
                "Writes the certificate, or with --dot the drawing, into this file in place of printing it; where there is none, the file stays as it was",
            ),
            Argument(
                "all",
                Form::Flag,
                "Tells every document that is refused, or else every recipe that breaks a rule, and not the first alone",
            ),
            QUIET,
        ],
    },
    CommandText {
        name: "verify",
        about: "Prints whether the certificate clears the recipes for the cell",
        example: VERIFY_HELP,
        arguments: &[CELL, CERTIFICATE, RECIPES, QUIET],
    },
    CommandText {
        name: "show",
        about: "Prints the nodes of the recipes, each with its place, as records name it",
        example: SHOW_HELP,
        arguments: &[CELL, RECIPES, QUIET],
    },
    CommandText {
        name: "run",
        about: "Serves event lines from standard input over the recipes that the certificate clears",
        example: RUN_HELP,
        arguments: &[
            CELL,
            CERTIFICATE,
            RECIPES,
            QUIET,
            JOURNAL,
            Argument(
                "echo",
                Form::Flag,
                "Writes each line as a comment, `# > LINE`, before its answer",
            ),
            Argument(
                "times",
                Form::Flag,
                "Writes `# at MILLISECONDS` before the answers to the lines of one read",
            ),
        ],
    },
    CommandText {
        name: "serve",
        about: "Serves several consoles and equipment links at once, each over its own pipes",
        example: SERVE_HELP,
        arguments: &[
            Argument("DESKS", Form::Word, "The document of the desks"),
            CELL,
            CERTIFICATE,
            RECIPES,
            JOURNAL,
            Argument(
                "times",
                Form::Flag,
                "Writes `# at MILLISECONDS` before the answers to the desks' lines of a turn",
            ),
            QUIET,
        ],
    },
    CommandText {
        name: "status",
        about: "Prints the state at the end of a record: batches, who holds, who waits, and live phases",
        example: STATUS_HELP,
        arguments: &[WRITTEN_RECORD],
    },
    CommandText {
        name: "draw",
        about: "Draws a record as SVG: who held which resource when, and who waited for it",
        example: DRAW_HELP,
        arguments: &[WRITTEN_RECORD],
    },
    CommandText {
        name: "audit",
        about: "Compares a record with that of the event lines from standard input",
        example: AUDIT_HELP,
        arguments: &[
            Argument("RECORD", Form::Word, "The record"),
            CELL,
            CERTIFICATE,
            RECIPES,
            Argument(
                "beginning",
                Form::Flag,
                "Accepts a record that ends too soon, or in the midst of a line",
            ),
            QUIET,
        ],
    },
    CommandText {
        name: "plant",
        about: "Runs a plant, the demo's or that of documents: its console and its link to the units in threads beside the hub's",
        example: PLANT_HELP,
        arguments: &[
            Argument(
                "CELL",
                Form::Optional,
                "The cell document [default: the demo's]",
            ),
            Argument(
                "CERT",
                Form::Optional,
                "The certificate, where a cell is given",
            ),
            Argument(
                "RECIPE",
                Form::Several,
                "The master recipes, of which the first is made",
            ),
            Argument(
                "batches",
                Form::Number(1, 100),
                "How many batches are created and started, 1 to 100 [default: 3]",
            ),
            Argument(
                "ticks",
                Form::Number(0, 1_000),
                "For how many ticks a phase runs, 0 to 1000 [default: 5]",
            ),
            Argument(
                "ring",
                Form::Number(1, 64),
                "How many places each ring has, 1 to 64 [default: 1]",
            ),
        ],
    },
    CommandText {
        name: "explain",
        about: "Prints the meaning of a refusal's code and its remedy; without a code, the meanings of all",
        example: EXPLAIN_HELP,
        arguments: &[Argument(
            "CODE",
            Form::Several,
            "A code, as D5 or e3, or a text that has one, as a line that was printed",
        )],
    },
];

const CELL: Argument<'static> = Argument("CELL", Form::Word, "The cell document");

const CERTIFICATE: Argument<'static> = Argument("CERT", Form::Word, "The certificate");

const RECIPES: Argument<'static> = Argument("RECIPE", Form::Several, "The master recipes");

const JOURNAL: Argument<'static> = Argument(
    "journal",
    Form::Path,
    "Writes each event line to this file before it is answered, and begins where the file ends",
);

const QUIET: Argument<'static> = Argument(
    "quiet",
    Form::Flag,
    "Says nothing in words on standard error of a refusal",
);

const WRITTEN_RECORD: Argument<'static> = Argument(
    "RECORD",
    Form::Optional,
    "The record, which may still be written [default: standard input]",
);

const CHECK_HELP: &str = "\
An example, in examples/paint_plant:
  batchd check cell.toml primer.toml rinse-mended.toml > certificate.new
  batchd check --write certificate.new cell.toml primer.toml rinse-mended.toml
  batchd check --all cell.toml primer.toml rinse.toml topcoat.toml
  batchd check --dot cell.toml topcoat.toml rinse.toml | dot -Tsvg > circle.svg
";

const VERIFY_HELP: &str = "\
An example, in examples/paint_plant:
  batchd verify cell.toml certificate.txt primer.toml rinse-mended.toml
";

const SHOW_HELP: &str = "\
An example, in examples/paint_plant:
  batchd show cell.toml primer.toml
";

const RUN_HELP: &str = "\
An example, in examples/paint_plant; type the lines below it:
  batchd run cell.toml certificate.txt primer.toml rinse-mended.toml
  create PRIMER 1000
  start 1
  report MIXER1 CHARGE done

The same with a journal, from which the next start brings the plant back:
  batchd run --journal day.journal cell.toml certificate.txt primer.toml rinse-mended.toml

The same with each line and its time as comments in the record, with a journal or without one:
  batchd run --echo --times cell.toml certificate.txt primer.toml rinse-mended.toml
";

const SERVE_HELP: &str = "\
An example; mkfifo makes the pipes that desks.toml names:
  batchd serve desks.toml cell.toml certificate.txt topcoat.toml > day.record

The same with a journal, from which the next start brings the plant back:
  batchd serve --journal day.journal desks.toml cell.toml certificate.txt topcoat.toml > day.record
";

const STATUS_HELP: &str = "\
An example, of a server whose record is written to day.record:
  batchd status day.record
";

const DRAW_HELP: &str = "\
An example, of a server whose record is written to day.record:
  batchd draw day.record > day.svg
";

const AUDIT_HELP: &str = "\
An example, of a server whose input was kept in day.lines, and its record in day.record:
  batchd audit day.record cell.toml certificate.txt primer.toml < day.lines
  batchd audit --beginning day.record cell.toml certificate.txt primer.toml < day.lines
";

const PLANT_HELP: &str = "\
An example:
  batchd plant --batches 10 --ticks 20

The same over documents, in examples/paint_plant:
  batchd plant --batches 10 --ticks 20 cell.toml certificate.txt primer.toml rinse-mended.toml
";

const EXPLAIN_HELP: &str = "\
Examples:
  batchd explain                      all codes, each with its meaning
  batchd explain c1
  batchd explain refused E3 running   a line as it was printed
";
