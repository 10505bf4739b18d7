//! Reading the documents of a set of which a journal is kept.
ghost use Rattle.std.specs.Prelude.{map, IfOk, IfErr, string_bytes};
ghost use Rattle.batch_verdicts.specs.Digested.{AreDigested};
ghost use Rattle.batch_verdicts.specs.Halting.{HaltsClearing};

use crate::documents::{Documents, clear_behind, read_cell};
use crate::refusal::Halt;
use batch_journal::{Digits, DocumentsDigest};
use batch_verify::Cleared;
use std::alloc::Global;

/// A cleared set, and the digits that name its documents in a journal.
#[derive(Drop)]
pub struct Digested {
    pub set: Cleared,
    /// The digits of the SHA-256 of the cell and the recipes, by the bytes that were read.
    pub documents: Digits,
}

/// The set that the documents at these paths make, cleared by the certificate among them, with the digest of the cell and the
/// recipes. Its errors are those of [`clear_documents`](crate::clear_documents).
// claim: the documents' digits
pub fn clear_digested<D: Documents>(
    alloc: Global,
    documents: &D,
    cell: &str,
    certificate: &str,
    recipes: &[String],
) -> Result<Digested, Halt>
    ensures digested { IfOk result (λ digested. AreDigested (D.gives documents.now) cell.now certificate.now (map string_bytes recipes.now) digested.set digested.documents.text) }
    ensures halted { IfErr result (HaltsClearing (D.gives documents.now) cell.now certificate.now (map string_bytes recipes.now)) }
{
    let mut digest = DocumentsDigest::new();
    let cell = read_cell(alloc, documents, cell, &mut digest)?;
    let set = clear_behind(alloc, documents, cell, certificate, recipes, &mut digest)?;
    Ok(Digested {
        set,
        documents: digest.digits(),
    })
}
