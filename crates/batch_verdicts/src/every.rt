//! Judging all documents, and reporting all refusals of them.
ghost use Rattle.std.specs.Prelude.{◌≡◌, ◌≤◌, ℕ, List, OnOk, IfOk, IfErr, length, map, string_bytes};
ghost use Rattle.batch_model.specs.declared.limits.TheConstants.{MAX_RECIPES};
ghost use Rattle.batch_verdicts.specs.Every.{AreRulesKept, AreRulesRefused, HaltsAtAll, HaltsBefore, HaltsChecking, HaltsDrawing, IsOneUnread, RefusesRules};
ghost use Rattle.batch_verdicts.specs.Judging.{fault_kind};
ghost use Rattle.batch_verdicts.specs.Looking.{AreAllRead, IsCellLooked, IsLooked, IsReadAsked, LooksOn};
ghost use Rattle.batch_verdicts.specs.Reading.{ChecksDocuments, DrawsDocuments, IsUnread};
ghost use Rattle.batch_verdicts.specs.Saying.{IsWarned};
ghost use Rattle.batch_verdicts.specs.VerdictTexts.{fault_text};
ghost use Rattle.batch_verdicts.specs.declared.refusal.Halt.TheVariants.{Memory};

use crate::documents::{CellDocuments, Documents, read_cell, read_each, read_recipe};
use crate::drawing::draw_recipes;
use crate::gathering::{ReadRecipes, Wanted};
use crate::judging::{check_recipes, fault_halt};
use crate::refusal::{DocumentRefusal, Halt};
use crate::taking::NoTaker;
use crate::texts::fault_text;
use crate::warnings::warn;
use batch_cell::Cell;
use batch_check::CheckFault;
use batch_messages::RecipeSource;
use batch_recipe::Recipe;
use batch_set::LinkedSet;
use batch_verify::{first_broken, is_recipe_set};
use std::alloc::Global;
use std::io::Write;

/// The output of `check` on the documents at these paths. The first document that can't be read or is refused ends it. Once all are
/// read, it warns of them on the errors, unless quiet is asked for. With `all` it judges all documents and reports all their refusals;
/// if there are none, it reports each recipe that breaks a rule, by the first that it breaks.
// claim: everything told
pub fn check_asked<D: Documents, E: Write>(
    alloc: Global,
    documents: &D,
    all: bool,
    cell: &str,
    recipes: &[String],
    quiet: bool,
    errors: &mut E,
) -> Result<String, Halt>
    // claim: verdict on documents
    ensures verdict { IfOk result (λ text. ChecksDocuments (D.gives documents.now) (IsWarned quiet (E.contents errors.old) (E.contents errors.new))
        cell.now (map string_bytes recipes.now) (string_bytes text)) }
    // claim: end of a command; path of a refusal
    ensures halted { IfErr result (HaltsChecking all (D.gives documents.now) (IsWarned quiet (E.contents errors.old) (E.contents errors.new))
        cell.now (map string_bytes recipes.now)) }
{
    let read = read_asked(alloc, documents, all, cell, recipes, quiet, errors)?;
    let recipes = &read.recipes;
    check_recipes(alloc, &read.cell, &recipes.recipes, recipes.sources.kept())
}

/// The drawing that `check --dot` makes of the documents at these paths. It ends and warns as [`check_asked`] does, and draws a circle.
// claim: everything told
pub fn draw_asked<D: Documents, E: Write>(
    alloc: Global,
    documents: &D,
    all: bool,
    cell: &str,
    recipes: &[String],
    quiet: bool,
    errors: &mut E,
) -> Result<String, Halt>
    ensures verdict { IfOk result (λ text. DrawsDocuments (D.gives documents.now) (IsWarned quiet (E.contents errors.old) (E.contents errors.new))
        cell.now (map string_bytes recipes.now) (string_bytes text)) }
    ensures halted { IfErr result (HaltsDrawing all (D.gives documents.now) (IsWarned quiet (E.contents errors.old) (E.contents errors.new))
        cell.now (map string_bytes recipes.now)) }
{
    let read = read_asked(alloc, documents, all, cell, recipes, quiet, errors)?;
    let recipes = &read.recipes;
    draw_recipes(alloc, &read.cell, &recipes.recipes, recipes.sources.kept())
}

/// Reads the documents, and warns of them. With `all` it reads all of them, and searches for rules that the recipes break.
fn read_asked<D: Documents, E: Write>(
    alloc: Global,
    documents: &D,
    all: bool,
    cell: &str,
    recipes: &[String],
    quiet: bool,
    errors: &mut E,
) -> Result<CellDocuments, Halt>
    ensures read { IfOk result (λ read. IsReadAsked all (D.gives documents.now) (IsWarned quiet (E.contents errors.old) (E.contents errors.new))
        cell.now (map string_bytes recipes.now) read.cell read.recipes.recipes.items) }
    ensures halted { IfErr result (HaltsBefore all (D.gives documents.now) (IsWarned quiet (E.contents errors.old) (E.contents errors.new))
        cell.now (map string_bytes recipes.now)) }
{
    let wanted = Wanted::unless(quiet);
    let read = if all {
        read_all(alloc, documents, cell, recipes, wanted)?
    } else {
        read_each(alloc, documents, cell, recipes, wanted)?
    };
    let gathered = &read.recipes;
    warn(alloc, quiet, cell, &read.cell, &gathered.lines, errors);
    if all {
        find_broken_rules(
            alloc,
            &read.cell,
            &gathered.recipes,
            gathered.sources.kept(),
        )?;
    }
    Ok(read)
}

/// Reads all documents, and reports their refusals together. It keeps the sentences that are wanted.
fn read_all<D: Documents>(
    alloc: Global,
    documents: &D,
    cell: &str,
    recipes: &[String],
    wanted: Wanted,
) -> Result<CellDocuments, Halt>
    ensures read { IfOk result (λ read. AreAllRead (D.gives documents.now) cell.now (map string_bytes recipes.now) read.cell read.recipes) }
    ensures halted { IfErr result (HaltsAtAll (D.gives documents.now) cell.now (map string_bytes recipes.now)) }
{
    let mut refusals = Vec::new(alloc);
    let cell = cell_or_refusal(alloc, documents, cell, &mut refusals)?;
    let looked = recipes_or_refusals(alloc, documents, recipes, wanted, refusals)?;
    let Some(cell) = cell else {
        return Err(Halt::Every(looked.refusals));
    };
    if !looked.refusals.is_empty() {
        return Err(Halt::Every(looked.refusals));
    }
    Ok(CellDocuments {
        cell,
        recipes: looked.recipes,
    })
}

/// The cell of the document at the path. If that is refused, its refusal is appended to the others.
#[tactic(auto, using(crate::proofs::DocumentRefusals::cell_unread))]
fn cell_or_refusal<D: Documents>(
    alloc: Global,
    documents: &D,
    path: &str,
    refusals: &mut Vec<DocumentRefusal>,
) -> Result<Option<Cell>, Halt>
    ensures looked { IfOk result (λ cell. IsCellLooked (D.gives documents.now) path.now refusals.old.items cell refusals.new.items) }
    ensures halted { IfErr result (IsUnread (D.gives documents.now) path.now) }
{
    match read_cell(alloc, documents, path, &mut NoTaker) {
        Ok(cell) => Ok(Some(cell)),
        Err(Halt::Refused(refusal)) => {
            refusals.push(refusal)?;
            Ok(None)
        }
        Err(Halt::Unread(text)) => Err(Halt::Unread(text)),
        Err(_) => Err(Halt::Memory),
    }
}

/// The outcome of reading the documents of recipes.
#[derive(Drop)]
struct Looked {
    recipes: ReadRecipes,
    refusals: Vec<DocumentRefusal>,
}

/// The recipes of the documents at these paths that aren't refused, with the sentences that are wanted. The refusals of the others are
/// appended to those before.
fn recipes_or_refusals<D: Documents>(
    alloc: Global,
    documents: &D,
    paths: &[String],
    wanted: Wanted,
    refusals: Vec<DocumentRefusal>,
) -> Result<Looked, Halt>
    ensures looked { IfOk result (λ looked. LooksOn (D.gives documents.now) (map string_bytes paths.now) refusals.items looked.recipes
        looked.refusals.items) }
    ensures halted { IfErr result (IsOneUnread (D.gives documents.now) (map string_bytes paths.now)) }
{
    let mut looked = Looked {
        recipes: ReadRecipes::new(alloc, wanted),
        refusals,
    };
    for path in paths {
        add_recipe(alloc, documents, path.as_str(), &mut looked)?;
    }
    Ok(looked)
}

/// Reads one more document.
#[tactic(auto, using(crate::proofs::DocumentRefusals::recipe_unread))]
fn add_recipe<D: Documents>(
    alloc: Global,
    documents: &D,
    path: &str,
    looked: &mut Looked,
) -> Result<(), Halt>
    ensures looked { OnOk result (IsLooked (D.gives documents.now) path.now looked.old.recipes looked.old.refusals.items
        looked.new.recipes looked.new.refusals.items) }
    ensures halted { IfErr result (IsUnread (D.gives documents.now) path.now) }
{
    match read_recipe(alloc, documents, path, &mut NoTaker) {
        Ok(read) => looked.recipes.add(alloc, path, read)?,
        Err(Halt::Refused(refusal)) => looked.refusals.push(refusal)?,
        Err(Halt::Unread(text)) => return Err(Halt::Unread(text)),
        Err(_) => return Err(Halt::Memory),
    }
    Ok(())
}

/// Searches for rules that the recipes of a set break. All recipes that break one are reported, each by the first that it breaks.
fn find_broken_rules(
    alloc: Global,
    cell: &Cell,
    recipes: &[Recipe],
    sources: &[RecipeSource],
) -> Result<(), Halt>
    ensures kept { OnOk result (AreRulesKept cell.now recipes.now) }
    ensures broken { IfErr result (RefusesRules cell.now recipes.now) }
{
    if !is_recipe_set(recipes) {
        return Ok(());
    }
    let refusals = rule_refusals(alloc, cell, recipes, sources)?;
    if refusals.is_empty() {
        return Ok(());
    }
    Err(Halt::Every(refusals))
}

/// The refusals of the recipes that break a rule.
fn rule_refusals(
    alloc: Global,
    cell: &Cell,
    recipes: &[Recipe],
    sources: &[RecipeSource],
) -> Result<Vec<DocumentRefusal>, Halt>
    requires { length recipes.now ≤ MAX_RECIPES }
    ensures refused { IfOk result (λ refusals. AreRulesRefused cell.now recipes.now 0 recipes.now refusals.items) }
    ensures memory { IfErr result (λ halt. halt ≡ Memory) }
{
    let linked = LinkedSet::new(alloc, cell, recipes)?;
    let mut refusals = Vec::new(alloc);
    for (number, recipe) in recipes.iter().enumerate() {
        let own = &linked.recipes[number];
        if let Some(broken) = first_broken(alloc, cell, recipe, None, own)? {
            let recipe = number as u16;
            let fault = CheckFault::Recipe { recipe, broken };
            let refusal = rule_refusal(alloc, cell, recipes, sources, &fault)?;
            refusals.push(refusal)?;
        }
    }
    Ok(refusals)
}

/// The refusal of the recipes by the fault.
fn rule_refusal(
    alloc: Global,
    cell: &Cell,
    recipes: &[Recipe],
    sources: &[RecipeSource],
    fault: &CheckFault,
) -> Result<DocumentRefusal, Halt>
    ensures text { IfOk result (λ refusal. string_bytes refusal.text ≡ fault_text cell.now recipes.now fault.now) }
    ensures kind { IfOk result (λ refusal. refusal.kind ≡ fault_kind fault.now) }
    ensures memory { IfErr result (λ halt. halt ≡ Memory) }
{
    let text = fault_text(alloc, cell, recipes, fault);
    match fault_halt(alloc, cell, recipes, sources, text, fault) {
        Halt::Refused(refusal) => Ok(refusal),
        _ => Err(Halt::Memory),
    }
}
