//! The faults of a certificate, in words.
use crate::sentence::Sentence;
use batch_verify::{CertFault, MAX_CERTIFICATE_LEN, MAX_LINES, MAX_RANK};
use std::alloc::{AllocError, Global};

/// The meaning of the fault of the certificate at this path. If the text begins as a TOML document does, the sentence says that another
/// document is in the certificate's place.
pub fn certificate_sentence(
    alloc: Global,
    path: &str,
    text: &[u8],
    fault: CertFault,
) -> Result<Sentence, AllocError> {
    let said = fault_said(alloc, text, fault)?;
    Sentence::at(alloc, path, said.as_str())
}

fn fault_said(alloc: Global, text: &[u8], fault: CertFault) -> Result<String, AllocError> {
    match fault {
        CertFault::NotARank(line) => no_rank_said(alloc, text, line),
        CertFault::NotInOrder(line) => format!(in alloc;
            "the name in line {line} comes before that of the line above it, by the order of bytes"
        ),
        CertFault::TooManyLines => {
            format!(in alloc;
                "a certificate has at most {MAX_LINES} lines, and {MAX_CERTIFICATE_LEN} bytes"
            )
        }
        CertFault::Memory => String::from_str(alloc, "there is no memory to read it"),
    }
}

/// Says that this line gives no rank.
fn no_rank_said(alloc: Global, text: &[u8], line: usize) -> Result<String, AllocError> {
    if line == 1 && is_toml(text) {
        String::from_str(
            alloc,
            "this looks like a document of a cell or a recipe, and the certificate is to stand here: CELL CERT RECIPE..",
        )
    } else {
        format!(in alloc;
            "line {line} is no line `rank NAME NUMBER` with a number of 1 to {MAX_RANK}"
        )
    }
}

/// Whether the text begins as a document does.
fn is_toml(text: &[u8]) -> bool {
    text.starts_with(b"cell") || text.starts_with(b"recipe") || text.starts_with(b"#")
}
