//! Reading and judging documents, each before the next.
ghost use Rattle.std.specs.Prelude.{◌≡◌, ◌++◌, ◌∷◌, ℕ, List, [], Option, map, IfOk, IfErr, string_bytes};
ghost use Rattle.batch_verdicts.specs.Digested.{ReadsCellText, ReadsRecipeText};
ghost use Rattle.batch_verdicts.specs.Halting.{HaltsAtCell, HaltsAtCertificate, HaltsAtDocuments, HaltsAtRecipe, HaltsAtRecipes, HaltsClearing, HaltsVerifying};
ghost use Rattle.batch_verdicts.specs.Looking.{AreAllRead};
ghost use Rattle.batch_verdicts.specs.Reading.{AreCleared, IsUnread, ReadsCell, ReadsCertificate, VerifiesDocuments, ShowsDocuments};
ghost use Rattle.batch_verdicts.specs.Saying.{IsWarned};
ghost use Rattle.batch_verdicts.specs.Taking.{AreTaken, ClearsBehind};

use crate::gathering::{ReadRecipe, ReadRecipes, Wanted};
use crate::judging::{clear_recipes, parse_cell, parse_certificate, parse_recipe};
use crate::refusal::Halt;
use crate::taking::{NoTaker, TextTaker};
use crate::warnings::warn;
use batch_cell::Cell;
use batch_outline::show_recipes;
use batch_reader::MAX_DOCUMENT_LEN;
use batch_verify::{Certificate, Cleared, MAX_CERTIFICATE_LEN};
use std::alloc::Global;
use std::io::Write;

/// A source of documents.
pub trait Documents {
    // The possible results of reading a path: these bytes, or at None that nothing can be read there.
    ghost gives: { Self → List ℕ → Option (List ℕ) → Type 0 };

    /// The bytes at the path, but no more than one beyond the limit.
    fn read(&self, alloc: Global, path: &str, limit: usize) -> Result<Vec<u8>, Halt>
        ensures given { IfOk result (λ bytes. gives self.now path.now (Some bytes.items)) }
        ensures unread { IfErr result (IsUnread (gives self.now) path.now) };
}

/// The contents of the documents of a cell and of its recipes.
#[derive(Drop)]
pub(crate) struct CellDocuments {
    pub(crate) cell: Cell,
    pub(crate) recipes: ReadRecipes,
}

/// Reads the documents. The first that can't be read or is refused ends it. It keeps the sentences that are wanted.
pub(crate) fn read_each<D: Documents>(
    alloc: Global,
    documents: &D,
    cell: &str,
    recipes: &[String],
    wanted: Wanted,
) -> Result<CellDocuments, Halt>
    ensures read { IfOk result (λ read. AreAllRead (D.gives documents.now) cell.now (map string_bytes recipes.now) read.cell read.recipes) }
    ensures halted { IfErr result (HaltsAtDocuments (D.gives documents.now) cell.now (map string_bytes recipes.now)) }
{
    let cell = read_cell(alloc, documents, cell, &mut NoTaker)?;
    let recipes = read_recipes(alloc, documents, recipes, wanted, &mut NoTaker)?;
    Ok(CellDocuments { cell, recipes })
}

/// The output of `verify` on the documents at these paths: it accepts the set that [`clear_documents`] gives, and its errors
/// are those of that call. It warns as [`crate::check_asked`] does.
pub fn verify_documents<D: Documents, E: Write>(
    alloc: Global,
    documents: &D,
    cell: &str,
    certificate: &str,
    recipes: &[String],
    quiet: bool,
    errors: &mut E,
) -> Result<String, Halt>
    // claim: accepted text; verdict on documents
    ensures verdict { IfOk result (λ text. VerifiesDocuments (D.gives documents.now) (IsWarned quiet (E.contents errors.old) (E.contents errors.new))
        cell.now certificate.now (map string_bytes recipes.now) (string_bytes text)) }
    // claim: end of a command; path of a refusal
    ensures halted { IfErr result (HaltsVerifying (D.gives documents.now) (IsWarned quiet (E.contents errors.old) (E.contents errors.new))
        cell.now certificate.now (map string_bytes recipes.now)) }
{
    let (path, paths) = (cell, recipes);
    let cell = read_cell(alloc, documents, path, &mut NoTaker)?;
    let certificate = read_certificate(alloc, documents, certificate)?;
    let read = read_recipes(alloc, documents, paths, Wanted::unless(quiet), &mut NoTaker)?;
    warn(alloc, quiet, path, &cell, &read.lines, errors);
    clear_recipes(alloc, cell, read.recipes, read.sources.kept(), &certificate)?;
    Ok(String::from_str(alloc, "accepted\n")?)
}

/// The output of `show` on the documents at these paths: the nodes of the recipes, whether they can be cleared or not. The first
/// document that can't be read or is refused ends it, as [`crate::check_asked`].
// claim: nodes shown
pub fn show_documents<D: Documents>(
    alloc: Global,
    documents: &D,
    cell: &str,
    recipes: &[String],
) -> Result<String, Halt>
    ensures verdict { IfOk result (λ text. ShowsDocuments (D.gives documents.now) cell.now (map string_bytes recipes.now) (string_bytes text)) }
    ensures halted { IfErr result (HaltsAtDocuments (D.gives documents.now) cell.now (map string_bytes recipes.now)) }
{
    let read = read_each(alloc, documents, cell, recipes, Wanted::Nothing)?;
    Ok(show_recipes(alloc, &read.recipes.recipes)?)
}

/// The set that the documents at these paths make, cleared by the certificate among them: the one way from documents to a set
/// that may be served.
///
/// The first document that can't be read or is refused ends it, and then recipes that aren't cleared.
pub fn clear_documents<D: Documents>(
    alloc: Global,
    documents: &D,
    cell: &str,
    certificate: &str,
    recipes: &[String],
) -> Result<Cleared, Halt>
    // claim: set of documents
    ensures cleared { IfOk result (AreCleared (D.gives documents.now) cell.now certificate.now (map string_bytes recipes.now)) }
    // claim: no set
    ensures halted { IfErr result (HaltsClearing (D.gives documents.now) cell.now certificate.now (map string_bytes recipes.now)) }
{
    let cell = read_cell(alloc, documents, cell, &mut NoTaker)?;
    clear_behind(alloc, documents, cell, certificate, recipes, &mut NoTaker)
}

/// Clears the recipes for a cell that is read already. The taker takes their texts.
pub(crate) fn clear_behind<D: Documents, T: TextTaker>(
    alloc: Global,
    documents: &D,
    cell: Cell,
    certificate: &str,
    recipes: &[String],
    taker: &mut T,
) -> Result<Cleared, Halt>
    ensures cleared { IfOk result (λ set. ClearsBehind T.has_taken (D.gives documents.now) certificate.now (map string_bytes recipes.now) cell set
        taker.old taker.new) }
    ensures halted { IfErr result (λ halt. (path : List ℕ) → ReadsCell (D.gives documents.now) path cell
        → HaltsClearing (D.gives documents.now) path certificate.now (map string_bytes recipes.now) halt) }
{
    let certificate = read_certificate(alloc, documents, certificate)?;
    let read = read_recipes(alloc, documents, recipes, Wanted::Refusals, taker)?;
    clear_recipes(alloc, cell, read.recipes, read.sources.kept(), &certificate)
}

/// The cell of the document at the path, whose text the taker takes.
pub(crate) fn read_cell<D: Documents, T: TextTaker>(
    alloc: Global,
    documents: &D,
    path: &str,
    taker: &mut T,
) -> Result<Cell, Halt>
    ensures read { IfOk result (λ cell. (text : List ℕ) × ReadsCellText (D.gives documents.now) path.now text cell
        × ((texts : List (List ℕ)) → T.has_taken taker.old texts → T.has_taken taker.new (texts ++ text ∷ []))) }
    ensures halted { IfErr result (HaltsAtCell (D.gives documents.now) path.now) }
{
    let bytes = documents.read(alloc, path, MAX_DOCUMENT_LEN)?;
    let cell = parse_cell(alloc, path, &bytes)?;
    taker.take_text(&bytes);
    Ok(cell)
}

pub(crate) fn read_certificate<D: Documents>(
    alloc: Global,
    documents: &D,
    path: &str,
) -> Result<Certificate, Halt>
    ensures read { IfOk result (λ certificate. ReadsCertificate (D.gives documents.now) path.now certificate.ranks.items) }
    ensures halted { IfErr result (HaltsAtCertificate (D.gives documents.now) path.now) }
{
    let text = documents.read(alloc, path, MAX_CERTIFICATE_LEN)?;
    parse_certificate(alloc, path, &text)
}

/// The recipe of the document at the path, whose text the taker takes.
pub(crate) fn read_recipe<D: Documents, T: TextTaker>(
    alloc: Global,
    documents: &D,
    path: &str,
    taker: &mut T,
) -> Result<ReadRecipe, Halt>
    ensures read { IfOk result (λ read. ReadsRecipeText (D.gives documents.now) path.now read.text.items read.recipe) }
    ensures taken { IfOk result (λ read. (texts : List (List ℕ)) → T.has_taken taker.old texts → T.has_taken taker.new (texts ++ read.text.items ∷ [])) }
    ensures halted { IfErr result (HaltsAtRecipe (D.gives documents.now) path.now) }
{
    let text = documents.read(alloc, path, MAX_DOCUMENT_LEN)?;
    let recipe = parse_recipe(alloc, path, &text)?;
    taker.take_text(&text);
    Ok(ReadRecipe { text, recipe })
}

/// The recipes of the documents at these paths, with the sentences that are wanted.
pub(crate) fn read_recipes<D: Documents, T: TextTaker>(
    alloc: Global,
    documents: &D,
    paths: &[String],
    wanted: Wanted,
    taker: &mut T,
) -> Result<ReadRecipes, Halt>
    ensures read { IfOk result (λ read. AreTaken T.has_taken (D.gives documents.now) (map string_bytes paths.now) read taker.old taker.new) }
    ensures halted { IfErr result (HaltsAtRecipes (D.gives documents.now) (map string_bytes paths.now)) }
{
    let mut read = ReadRecipes::new(alloc, wanted);
    for path in paths {
        let path = path.as_str();
        let own = read_recipe(alloc, documents, path, taker)?;
        read.add(alloc, path, own)?;
    }
    Ok(read)
}
