//! Judging documents, over their bytes.
ghost use Rattle.std.specs.Prelude.{◌≡◌, ◌≤◌, ◌<◌, ℕ, List, length, IfOk, IfErr, OnOk, string_bytes};
ghost use Rattle.batch_reader.specs.CellDocument.{IsCellDocument};
ghost use Rattle.batch_reader.specs.RecipeDocument.{IsRecipeDocument};
ghost use Rattle.batch_verify.specs.CertificateText.{IsCertificateText};
ghost use Rattle.batch_verdicts.specs.VerdictTexts.{certificate_refused, document_text, refusal_text};
ghost use Rattle.batch_verdicts.specs.Judging.{HaltsWith, IsChecked, IsClearedBy, RefusesCell, RefusesCertificate, RefusesCheck, RefusesRecipe, RefusesSet, certificate_kind, document_kind, fault_kind, set_kind};

use crate::refusal::{DocumentRefusal, Halt, RefusalKind};
use crate::texts::{
    certificate_refused, certificate_text, document_text, fault_text, refusal_text,
};
use batch_cell::Cell;
use batch_check::{CheckFault, check};
use batch_messages::{
    Asked, RecipeSource, Sentence, certificate_sentence, document_sentence, fault_sentence,
    refusal_sentence,
};
use batch_reader::{DocFault, read_cell, read_recipe};
use batch_recipe::Recipe;
use batch_verify::{
    CertFault, Certificate, Cleared, MAX_CERTIFICATE_LEN, Rejected, SetRefusal, read_certificate,
    verify,
};
use std::alloc::{AllocError, Global};

/// The cell of the document at the path. Only a refusal names the path.
///
/// A document with a fault is refused by the first that the reader meets, and want of memory for the judgement is refused as
/// well. If there is no memory for the text of the refusal, the error is [`Halt::Memory`].
// claim: cell judged
pub fn parse_cell(alloc: Global, path: &str, bytes: &[u8]) -> Result<Cell, Halt>
    ensures ok { IfOk result (IsCellDocument bytes.now) }
    // claim: how refused
    ensures refused { IfErr result (RefusesCell path.now bytes.now) }
{
    match read_cell(alloc, bytes) {
        Ok(cell) => Ok(cell),
        Err(fault) => Err(document_halt(alloc, Asked::Cell, path, bytes, fault)),
    }
}

/// The recipe of the document at the path. Its names are looked up in no cell. Its errors are those of [`parse_cell`].
// claim: recipe judged
pub fn parse_recipe(alloc: Global, path: &str, bytes: &[u8]) -> Result<Recipe, Halt>
    ensures ok { IfOk result (IsRecipeDocument bytes.now) }
    // claim: how refused
    ensures refused { IfErr result (RefusesRecipe path.now bytes.now) }
{
    match read_recipe(alloc, bytes) {
        Ok(recipe) => Ok(recipe),
        Err(fault) => Err(document_halt(alloc, Asked::Recipe, path, bytes, fault)),
    }
}

pub(crate) fn document_halt(
    alloc: Global,
    asked: Asked,
    path: &str,
    bytes: &[u8],
    fault: DocFault,
) -> Halt
    ensures { HaltsWith (document_text path.now fault) (document_kind fault) result }
{
    let kind = match fault {
        DocFault::Memory => RefusalKind::OutOfMemory,
        _ => RefusalKind::Fault,
    };
    let text = document_text(alloc, path, fault);
    let sentence = document_sentence(alloc, asked, path, bytes, fault);
    refused(text, kind, sentence)
}

/// The refusal, unless there was no memory for its text or its sentence.
fn refused(
    text: Result<String, AllocError>,
    kind: RefusalKind,
    sentence: Result<Sentence, AllocError>,
) -> Halt
    ensures { (wanted : List ℕ) → IfOk text (λ text. string_bytes text ≡ wanted) → HaltsWith wanted kind result }
{
    match (text, sentence) {
        (Ok(text), Ok(sentence)) => Halt::Refused(DocumentRefusal {
            text,
            kind,
            sentence,
        }),
        _ => Halt::Memory,
    }
}

/// The certificate of the file.
///
/// A text with a fault is refused by its first line with one, and a file longer than [`MAX_CERTIFICATE_LEN`] as one of too many
/// lines, whatever its content. Want of memory is refused as well. If there is none for the text of the refusal, the error is
/// [`Halt::Memory`]. Only the sentence names the path.
// claim: certificate judged
pub fn parse_certificate(alloc: Global, path: &str, text: &[u8]) -> Result<Certificate, Halt>
    ensures ok { IfOk result (λ certificate. IsCertificateText text.now certificate.ranks.items) }
    ensures short { OnOk result (length text.now ≤ MAX_CERTIFICATE_LEN) }
    ensures refused { IfErr result (RefusesCertificate text.now) }
{
    if text.len() > MAX_CERTIFICATE_LEN {
        return Err(certificate_halt(alloc, path, text, CertFault::TooManyLines));
    }
    match read_certificate(alloc, text) {
        Ok(certificate) => Ok(certificate),
        Err(fault) => Err(certificate_halt(alloc, path, text, fault)),
    }
}

fn certificate_halt(alloc: Global, path: &str, bytes: &[u8], fault: CertFault) -> Halt
    ensures { HaltsWith (certificate_refused fault) (certificate_kind fault) result }
{
    let kind = match fault {
        CertFault::Memory => RefusalKind::OutOfMemory,
        _ => RefusalKind::Fault,
    };
    let text = certificate_refused(alloc, fault);
    let sentence = certificate_sentence(alloc, path, bytes, fault);
    refused(text, kind, sentence)
}

/// The output of `check` on the recipes: their least ranks, or the reason why there are none. Only the sentence of a refusal uses the
/// sources.
pub fn check_recipes(
    alloc: Global,
    cell: &Cell,
    recipes: &[Recipe],
    sources: &[RecipeSource],
) -> Result<String, Halt>
    // claim: certificate text; certificate's length
    ensures checked { IfOk result (λ text. IsChecked cell.now recipes.now (string_bytes text)) }
    // claim: refusal text
    ensures refused { IfErr result (RefusesCheck cell.now recipes.now) }
{
    match check(alloc, cell, recipes) {
        Ok(certificate) => Ok(certificate_text(alloc, &certificate)?),
        Err(fault) => {
            let text = fault_text(alloc, cell, recipes, &fault);
            Err(fault_halt(alloc, cell, recipes, sources, text, &fault))
        }
    }
}

/// The refusal of the recipes by the fault, with this text.
pub(crate) fn fault_halt(
    alloc: Global,
    cell: &Cell,
    recipes: &[Recipe],
    sources: &[RecipeSource],
    text: Result<String, AllocError>,
    fault: &CheckFault,
) -> Halt
    ensures { (wanted : List ℕ) → IfOk text (λ text. string_bytes text ≡ wanted) → HaltsWith wanted (fault_kind fault.now) result }
{
    let kind = match fault {
        CheckFault::Memory => RefusalKind::OutOfMemory,
        _ => RefusalKind::Fault,
    };
    let sentence = fault_sentence(alloc, cell, recipes, sources, fault);
    refused(text, kind, sentence)
}

/// The cell and the recipes, cleared by the certificate.
///
/// Recipes that it doesn't clear are refused by the first rule that they break, and want of memory for the judgement is
/// refused as well. If there is no memory for the text of the refusal, the error is [`Halt::Memory`].
// claim: set of documents (set, cleared)
pub fn clear_recipes(
    alloc: Global,
    cell: Cell,
    recipes: Vec<Recipe>,
    sources: &[RecipeSource],
    certificate: &Certificate,
) -> Result<Cleared, Halt>
    ensures set { IfOk result (λ cleared. (cleared.cell ≡ cell) × (cleared.recipes ≡ recipes.items)) }
    ensures cleared { OnOk result (IsClearedBy cell recipes.items certificate.now.ranks.items) }
    // claim: refusal text; no set
    ensures refused { IfErr result (RefusesSet cell recipes.items certificate.now.ranks.items) }
{
    match verify(alloc, cell, recipes, certificate) {
        Ok(cleared) => Ok(cleared),
        Err(rejected) => Err(set_halt(alloc, sources, certificate, &rejected)),
    }
}

fn set_halt(
    alloc: Global,
    sources: &[RecipeSource],
    certificate: &Certificate,
    rejected: &Rejected,
) -> Halt
    ensures { HaltsWith (refusal_text rejected.now.cell rejected.now.recipes.items certificate.now.ranks.items rejected.now.fault)
        (set_kind rejected.now.fault) result }
{
    let kind = set_kind(rejected.fault);
    let (cell, recipes) = (&rejected.cell, &rejected.recipes);
    let text = refusal_text(alloc, cell, recipes, certificate, rejected.fault);
    let sentence = refusal_sentence(alloc, cell, recipes, sources, certificate, rejected.fault);
    refused(text, kind, sentence)
}

/// The kind of a set's refusal.
fn set_kind(refusal: SetRefusal) -> RefusalKind
    ensures { result ≡ set_kind refusal }
{
    match refusal {
        SetRefusal::Memory => RefusalKind::OutOfMemory,
        _ => RefusalKind::Fault,
    }
}
