//! The table of explanations. docs/FORMATS.md has the same meanings, which `tools/codes/run` compares.
ghost use Rattle.std.specs.Prelude.{◌≡◌, map};
ghost use Rattle.batch_messages.specs.Explaining.{refusal_codes};

use crate::explanation::Explanation;

/// The explanations of all codes of refusals, in order of letter and number.
// claim: codes explained
pub fn explanations() -> [Explanation; 52]
    ensures { map (λ explanation. explanation.code.now) result ≡ refusal_codes }
{
    // By a reference, so that the proof holds one place and not each of its texts.
    let table = &EXPLANATIONS;
    *table
}

static EXPLANATIONS: [Explanation; 52] = [
    Explanation {
        code: "A1",
        meaning: "the line with this number is the first of the record that differs from the record of the lines that were sent",
        remedy: "look at that line, which may have been left out, doubled, moved or changed; or give the lines, the documents and the certificate of this record",
    },
    Explanation {
        code: "A2",
        meaning: "the record ends before the line with this number, or in the midst of it",
        remedy: "give the record whole; `batchd audit --beginning` accepts one that ends so",
    },
    Explanation {
        code: "C1",
        meaning: "the recipes can bring batches into a circle of waiting",
        remedy: "change the recipe of one of the edges, best of one without which the set would be cleared, as the words on the circle tell: let it ask for the two resources the other way round, or no more for the later one while it holds the earlier one",
    },
    Explanation {
        code: "D1",
        meaning: "the document is not TOML in UTF-8",
        remedy: "mend the document at the line that standard error names",
    },
    Explanation {
        code: "D2",
        meaning: "a key that the table needs is missing, a unit procedure has neither unit nor role, a desk has neither input nor output, or there is no procedure",
        remedy: "add the key; docs/FORMATS.md lists the keys of each table",
    },
    Explanation {
        code: "D3",
        meaning: "a value is of another kind than its key has, is no name, or declares a word of charts",
        remedy: "write a value of that kind; a name has 1 to 32 letters, digits, `_` and `-`, and begins with a letter",
    },
    Explanation {
        code: "D4",
        meaning: "the table has a key that tables of its kind don't have, or a unit procedure has a unit and a role",
        remedy: "take the key away, or write it as docs/FORMATS.md does",
    },
    Explanation {
        code: "D5",
        meaning: "a label, a unit, a role, a value, an output or a unit procedure is named that the document doesn't declare, or a desk's unit is none of the cell's",
        remedy: "declare it, or use a declared name; capitals count",
    },
    Explanation {
        code: "D6",
        meaning: "a name is declared twice, a phase is offered twice by one unit, a phase reports an output twice, or an act reserves a unit procedure twice",
        remedy: "give one of the two another name",
    },
    Explanation {
        code: "D7",
        meaning: "a number, a length or a count is out of its limits, or `min` is above `max`",
        remedy: "keep to the limits that docs/FORMATS.md gives",
    },
    Explanation {
        code: "D8",
        meaning: "the text is no chart from that byte on, or has a `par` in a unit procedure",
        remedy: "mend the chart at the byte that is told, counted from 0",
    },
    Explanation {
        code: "D9",
        meaning: "there is no memory to read the document",
        remedy: "give the program more memory",
    },
    Explanation {
        code: "E1",
        meaning: "there is no recipe of that name",
        remedy: "name a recipe of the set that is served; capitals count",
    },
    Explanation {
        code: "E2",
        meaning: "there is no batch of that number",
        remedy: "name a batch that was created and not removed",
    },
    Explanation {
        code: "E3",
        meaning: "the batch's state doesn't accept the command",
        remedy: "the state is told behind the code: `start` leads on from `idle`, `resume` from `paused`, `restart` from `held`, and `reset` from `complete`, `stopped` and `aborted`; wait until any other state ends",
    },
    Explanation {
        code: "E4",
        meaning: "no phase of that name is live on that unit",
        remedy: "report a phase that has started and not ended, by the names of its `start` line",
    },
    Explanation {
        code: "E5",
        meaning: "the phase's state doesn't accept the report",
        remedy: "report the answer to the command that the phase was sent last, or `done`; the state of the phase is told behind the code",
    },
    Explanation {
        code: "E6",
        meaning: "the report sets a name that is no output, one output twice, or a value above 10^12",
        remedy: "set outputs that the recipe declares, each once",
    },
    Explanation {
        code: "E7",
        meaning: "the size is out of range; or the value of that name would be outside its range",
        remedy: "create the batch in another size; F1 or F2 behind the code tells which",
    },
    Explanation {
        code: "E8",
        meaning: "4,096 batches exist, or the number 10^12 was given",
        remedy: "remove batches that are idle",
    },
    Explanation {
        code: "E9",
        meaning: "the batch to be removed isn't idle",
        remedy: "reset it once it is complete, stopped or aborted, and remove it then",
    },
    Explanation {
        code: "E10",
        meaning: "moves are pending",
        remedy: "nothing: the program makes all moves before it reads the next line",
    },
    Explanation {
        code: "E11",
        meaning: "there is no memory for a new batch",
        remedy: "remove idle batches, or give the program more memory",
    },
    Explanation {
        code: "E12",
        meaning: "a role isn't bound or is bound twice, a name that is bound is no role, or a unit isn't of its role's class",
        remedy: "bind each role of the recipe once, as ROLE=UNIT, to a unit of its class; `batchd show` prints the roles of a recipe, as `on ROLE of CLASS`",
    },
    Explanation {
        code: "E13",
        meaning: "the phase is done, and the report leaves out an output that it has to report",
        remedy: "report `done` with a value for each output of the phase's `reports`; the name behind the code is the first left out",
    },
    Explanation {
        code: "F1",
        meaning: "the size is out of range",
        remedy: "create the batch in a size of 1 to 1,000,000,000",
    },
    Explanation {
        code: "F2",
        meaning: "the value of that name would be outside its range",
        remedy: "create the batch in a size that keeps the value between its `min` and `max`",
    },
    Explanation {
        code: "J1",
        meaning: "the file is no journal",
        remedy: "name the journal of this plant, or a file that isn't there yet; the file that was named stays as it is",
    },
    Explanation {
        code: "J2",
        meaning: "it is a journal of other documents",
        remedy: "start with the cell and the recipes that the journal was begun with, byte for byte and in their order; for other ones, once no batch exists, name a new file",
    },
    Explanation {
        code: "J3",
        meaning: "the group that this line (from 1) closes is damaged",
        remedy: "put a copy that has all its groups in its place; an older copy leads to another plant than the one that was told",
    },
    Explanation {
        code: "K1",
        meaning: "the line is no rank line",
        remedy: "write `rank`, a name and a number of 1 to 1,000,000, with one space between",
    },
    Explanation {
        code: "K2",
        meaning: "the line's name comes before that of the line above",
        remedy: "put the lines into the order of their names' bytes, or let `batchd check` print them",
    },
    Explanation {
        code: "K3",
        meaning: "there is a 385th line, or the file is longer than 32,768 bytes",
        remedy: "give the file that `batchd check` printed",
    },
    Explanation {
        code: "K4",
        meaning: "there is no memory to read the certificate",
        remedy: "give the program more memory",
    },
    Explanation {
        code: "R1",
        meaning: "the line with this number is no line of a record",
        remedy: "give `status` or `draw` a record as `run`, `serve` or `batchd` alone wrote it, without other lines in it",
    },
    Explanation {
        code: "V1",
        meaning: "a resource has no rank",
        remedy: "let `batchd check` make a certificate for this cell",
    },
    Explanation {
        code: "V2",
        meaning: "the certificate ranks a name twice",
        remedy: "take one of the two lines away",
    },
    Explanation {
        code: "V3",
        meaning: "a line of the certificate names no resource; or a need is no resource of the cell, a unit procedure's unit is no unit, or its role has a class that no unit is of",
        remedy: "use a name that the cell document declares, capitals count; or give a unit the class",
    },
    Explanation {
        code: "V4",
        meaning: "along the path to this step ranks don't rise",
        remedy: "ask for resources in the order of their ranks, or let `batchd check` make a new certificate",
    },
    Explanation {
        code: "V5",
        meaning: "the unit, or one that may take the role, doesn't offer the phase",
        remedy: "let a module of the unit offer the phase, or name one that it offers",
    },
    Explanation {
        code: "V6",
        meaning: "two branches of this `par`, in an operation, run the same phase",
        remedy: "put the two steps one after the other, as a unit runs a phase once at a time",
    },
    Explanation {
        code: "V7",
        meaning: "there is a way through this loop's body that runs no phase",
        remedy: "let every branch of the body run a phase",
    },
    Explanation {
        code: "V8",
        meaning: "there is no memory to judge the recipes",
        remedy: "give the program more memory",
    },
    Explanation {
        code: "V9",
        meaning: "a need is of more units than the resource has",
        remedy: "ask for fewer units, or give the resource more capacity",
    },
    Explanation {
        code: "V10",
        meaning: "two recipes have one name, or there are more than 256",
        remedy: "give at most 256 recipes, each once, with its own name",
    },
    Explanation {
        code: "V11",
        meaning: "a unit procedure that a step reserves doesn't follow it",
        remedy: "reserve the unit procedure that is next once the step has ended, with no `sel`, `skip`, end of a branch of a `par` or turn of a `loop` between",
    },
    Explanation {
        code: "W1",
        meaning: "the first word is unknown",
        remedy: "begin the line with `create`, `report`, `remove`, `start`, `pause`, `resume`, `hold`, `restart`, `stop`, `abort` or `reset`, in small letters",
    },
    Explanation {
        code: "W2",
        meaning: "an argument is missing",
        remedy: "write all arguments of the line; docs/FORMATS.md lists them",
    },
    Explanation {
        code: "W3",
        meaning: "there is an argument too many",
        remedy: "leave out the words behind the arguments of the line",
    },
    Explanation {
        code: "W4",
        meaning: "an argument is no name, no number, no word of a report, or no pair",
        remedy: "write names as they are declared, whole numbers in digits alone, and pairs as NAME=VALUE without spaces; docs/FORMATS.md says what each argument is",
    },
    Explanation {
        code: "W5",
        meaning: "the line is longer than 1,024 bytes",
        remedy: "write a shorter line",
    },
    Explanation {
        code: "W6",
        meaning: "there is no memory for the event",
        remedy: "give the program more memory",
    },
];
