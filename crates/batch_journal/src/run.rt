//! The facts that are known of a run over a journal.

use std::marker::Brand;

/// A run over a journal, as a type: facts known of it at its start stay known while code runs that knows only of a reader.
pub trait JournalRun {
    ghost use Rattle.std.specs.Prelude.{ℕ, List, Option};

    /// The digits of its documents.
    ghost documents: { List ℕ };

    /// The text of the lines that the journal had then.
    ghost base: { List ℕ };

    /// A moment from which on a crash left these lines.
    ghost since: { ℕ };

    /// The bytes of the input, where they are known.
    ghost input: { Option (List ℕ) };

    /// A fact of the disk over which it began, as that it had behaved as one.
    ghost was: { Type 0 };
}

impl JournalRun for Brand {
    ghost use Rattle.std.specs.Prelude.{[], None, ⊤};

    ghost documents = { [] };

    ghost base = { [] };

    ghost since = { 0 };

    ghost input = { None };

    ghost was = { ⊤ };
}
