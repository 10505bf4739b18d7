//! Writing the text of a verdict into a file.
ghost use Rattle.std.specs.Prelude.{◌≡◌, ◌⊎◌};
ghost use Rattle.batch_verdicts.specs.Running.{fault_status, memory_status};
ghost use Rattle.batch_program.specs.FileWriting.{IsWritten};

use crate::record_audit::complain_unread;
use crate::records::Records;
use batch_messages::shown;
use batch_verdicts::{FILE_FAULT, NO_MEMORY, OUT_OF_MEMORY, SUCCESS, complain};
use std::alloc::Global;
use std::io::Write;
use thiserror::Error;

/// Why nothing is written over the file at this path.
#[derive(Debug, Error, Drop)]
#[error("{path} is one of the documents, so nothing is written over it")]
struct OwnDocument {
    path: String,
}

/// Replaces the file at the path by one with the text, and gives the exit status. If that fails, the file stays as it was, and the
/// errors report the reason. None of the documents that the words name is written over.
// claim: file written
pub fn write_file<D: Records, E: Write>(
    alloc: Global,
    words: &[String],
    path: &str,
    text: &str,
    records: &D,
    errors: &mut E,
) -> u8
    ensures { IsWritten (D.holds records.now) path.now text.now (record { before = E.contents errors.old; after = E.contents errors.new }) result }
{
    if names_document(words, path) {
        return complain_document(alloc, path, errors);
    }
    match records.replace(alloc, path, text.as_bytes()) {
        Ok(()) => SUCCESS,
        Err(reason) => complain_unread(alloc, path, reason, errors),
    }
}

/// Whether the words have the path once more than as that of the file that is to be written, which may be a word of its own.
fn names_document(words: &[String], path: &str) -> bool {
    let named = words.iter().filter(|word| word.as_str() == path).count();
    let has_own_word = words.iter().any(|word| word.as_str() == "--write");
    named > usize::from(has_own_word)
}

/// Reports that the file is a document, and gives the exit status.
fn complain_document<E: Write>(alloc: Global, path: &str, errors: &mut E) -> u8
    ensures { (result ≡ fault_status) ⊎ (result ≡ memory_status) }
{
    match shown(alloc, path) {
        Ok(path) => complain(errors, OwnDocument { path }, FILE_FAULT),
        Err(_) => complain(errors, OUT_OF_MEMORY, NO_MEMORY),
    }
}
