//! Refusals, and why a command ends without a verdict that accepts.
ghost use Rattle.std.specs.Prelude.{◌≡◌};
ghost use Rattle.batch_verdicts.specs.Judging.{is_for_memory, status_of};
ghost use Rattle.batch_verdicts.specs.declared.refusal.Halt.TheVariants.{Memory};

use batch_messages::Sentence;
use std::alloc::{AllocError, AllocFailed};

/// The kind of a refusal.
#[derive(Clone, Copy)]
pub enum RefusalKind {
    /// A document, a certificate or the recipes have a fault.
    Fault,
    /// Memory for the judgement ran out, which says nothing of the documents.
    OutOfMemory,
}

impl RefusalKind {
    /// The exit status of the program.
    // claim: statuses of refusals
    pub fn status(self) -> u8
        ensures { result ≡ status_of self }
    {
        match self {
            RefusalKind::Fault => 1,
            RefusalKind::OutOfMemory => 4,
        }
    }

    /// Whether memory ran out.
    pub(crate) fn is_for_memory(self) -> bool
        ensures { result ≡ is_for_memory self }
    {
        match self {
            RefusalKind::Fault => false,
            RefusalKind::OutOfMemory => true,
        }
    }
}

/// A refusal: the text that the program prints, the way in which it then ends, and a sentence.
#[derive(Drop)]
pub struct DocumentRefusal {
    /// The lines for standard output, each with its line feed.
    pub text: String,
    /// The kind, by which the program ends once the text is written.
    pub kind: RefusalKind,
    /// The meaning of the refusal, for standard error.
    pub sentence: Sentence,
}

/// The reason why a command ends without the text that it was to print, or the set that it was to serve.
#[derive(Drop)]
pub enum Halt {
    /// Something is refused, or there was no memory to judge it, which its refusal says.
    Refused(DocumentRefusal),
    /// All these refusals, in this order.
    Every(Vec<DocumentRefusal>),
    /// A document can't be read, with a text for the user that goes to standard error.
    Unread(String),
    /// There was no memory to read the documents, or for the text of a verdict.
    Memory,
}

impl From<AllocError> for Halt {
    ghost from_gives = { λ _ halt. halt ≡ Memory };

    fn from(_error: AllocError) -> Halt {
        Halt::Memory
    }
}

impl<T: Drop> From<AllocFailed<T>> for Halt {
    ghost from_gives = { λ _ halt. halt ≡ Memory };

    fn from(_error: AllocFailed<T>) -> Halt {
        Halt::Memory
    }
}
