//! Refusals of documents.
ghost use Rattle.std.specs.Prelude.{◌≡◌, ◌++◌, ◌∷◌, [], IfOk, codes, string_bytes};
ghost use Rattle.batch_reader.specs.Words.{spot_text};
ghost use Rattle.batch_verdicts.specs.VerdictTexts.{code_of, document_text, offset_words, refused};

use batch_messages::shown;
use batch_reader::{DocFault, EntryFault, Spot};
use std::alloc::{AllocError, Global};

/// The line that refuses the document at this path.
// claim: texts shown; texts of documents
pub fn document_text(alloc: Global, path: &str, fault: DocFault) -> Result<String, AllocError>
    ensures { IfOk result (λ text. string_bytes text ≡ document_text path.now fault) }
{
    let path = shown(alloc, path)?;
    match fault {
        DocFault::NotToml => format!(in alloc; "refused D1 {path}\n"),
        DocFault::Entry(spot, fault) => entry_text(alloc, &path, spot, fault),
        DocFault::Memory => format!(in alloc; "refused D9 {path}\n"),
    }
}

/// The line of a fault in a table, behind the path as it is shown.
fn entry_text(
    alloc: Global,
    path: &str,
    spot: Spot,
    fault: EntryFault,
) -> Result<String, AllocError>
    ensures { IfOk result (λ text. string_bytes text ≡ refused (code_of fault ∷ path.now ∷ spot_text spot ∷ offset_words fault)) }
{
    let code = code_of(fault);
    match fault {
        EntryFault::Chart(offset) => format!(in alloc; "refused {code} {path} {spot} {offset}\n"),
        _ => format!(in alloc; "refused {code} {path} {spot}\n"),
    }
}

fn code_of(fault: EntryFault) -> &'static str
    ensures { result.now ≡ code_of fault }
{
    match fault {
        EntryFault::MissingKey(_) => "D2",
        EntryFault::WrongKind(_) | EntryFault::NoNeed(_) => "D3",
        EntryFault::UnknownKey => "D4",
        EntryFault::Undeclared(_) => "D5",
        EntryFault::Duplicate(_) => "D6",
        EntryFault::OutOfLimit(_)
        | EntryFault::NeedOutOfLimit(_)
        | EntryFault::NumberOutOfLimit(_) => "D7",
        EntryFault::Chart(_) => "D8",
    }
}
