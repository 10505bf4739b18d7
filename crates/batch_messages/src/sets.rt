//! The faults of a set of recipes, in words.
ghost use Rattle.std.specs.Prelude.{◌≡◌, ◌++◌, ℕ, List, IfOk, string_bytes};
ghost use Rattle.batch_messages.specs.CircleSentence.{IsCircleTold, IsEdgeTold, SaysCircle};

use crate::circles::{advice_said, asker_said, holder_said};
use crate::names::{act_name, recipe_name, resource_name};
use crate::sentence::Sentence;
use crate::set::Set;
use crate::sources::{RecipeSource, origin_said};
use crate::subject::Subject;
use batch_cell::Cell;
use batch_check::{CheckFault, Edge};
use batch_model::MAX_RECIPES;
use batch_recipe::Recipe;
use batch_text::Name;
use batch_verify::{Broken, Certificate, SetRefusal};
use std::alloc::{AllocError, Global};

const NO_MEMORY: &str = "there is no memory to judge the recipes";

/// The meaning of the refusal of the recipes by the certificate. Sources are those of the recipes, in order. A recipe without a source
/// is named without its file.
pub fn refusal_sentence(
    alloc: Global,
    cell: &Cell,
    recipes: &[Recipe],
    sources: &[RecipeSource],
    certificate: &Certificate,
    refusal: SetRefusal,
) -> Result<Sentence, AllocError> {
    let set = Set {
        alloc,
        cell,
        recipes,
        sources,
    };
    let said = match refusal {
        SetRefusal::Unranked(resource) => {
            let name = resource_name(cell, resource);
            format!(in alloc;
                "the certificate has no line for {name}, a resource of the cell {}",
                cell.name
            )
        }
        SetRefusal::RankedTwice(entry) => {
            let name = entry_name(certificate, entry);
            format!(in alloc; "the certificate has two lines for {name}")
        }
        SetRefusal::UnknownEntry(entry) => {
            let name = entry_name(certificate, entry);
            format!(in alloc;
                "the certificate ranks {name}, which is no resource of the cell {}; it may be that of another cell",
                cell.name
            )
        }
        SetRefusal::Recipe { recipe, broken } => {
            recipe_said(set, recipe, Some(certificate), broken)
        }
        SetRefusal::Memory => String::from_str(alloc, NO_MEMORY),
        SetRefusal::Recipes => no_set_said(set),
    };
    Sentence::of(alloc, said?.as_str())
}

fn entry_name(certificate: &Certificate, entry: usize) -> &str {
    match certificate.ranks.get(entry) {
        Some((name, _)) => name.text(),
        None => "",
    }
}

/// Says which rule the recipe of this number breaks.
fn recipe_said(
    set: Set<'_>,
    number: u16,
    certificate: Option<&Certificate>,
    broken: Broken,
) -> Result<String, AllocError> {
    let alloc = set.alloc;
    let Some(recipe) = set.recipe(number) else {
        return Ok(String::new(alloc));
    };
    let subject = Subject {
        alloc,
        cell: set.cell,
        recipe,
        certificate,
    };
    let origin = origin_said(alloc, set.source(number), recipe, broken.node)?;
    let said = subject.broken_said(broken)?;
    format!(in alloc; "{origin}{said}")
}

/// Says which two of the recipes have one name, or that there are too many.
fn no_set_said(set: Set<'_>) -> Result<String, AllocError> {
    let alloc = set.alloc;
    let Some((name, first, later)) = namesakes(set.recipes) else {
        return format!(in alloc; "there are more than {MAX_RECIPES} recipes");
    };
    let files = match (set.sources.get(first), set.sources.get(later)) {
        (Some(first), Some(later)) => {
            format!(in alloc; ", {} and {},", first.path(), later.path())?
        }
        _ => String::new(alloc),
    };
    let first = first.saturating_add(1);
    let later = later.saturating_add(1);
    format!(in alloc; "the recipes number {first} and {later}{files} are both named {name}")
}

/// The first name that two of the recipes have, and the numbers of the two, counted from 0.
fn namesakes(recipes: &[Recipe]) -> Option<(&Name, usize, usize)> {
    recipes.iter().enumerate().find_map(|(first, recipe)| {
        let name = &recipe.acts.procedure.name;
        let mut others = recipes.iter().enumerate();
        let (later, _) = others.find(|(later, other)| {
            first < *later && other.acts.procedure.name == *name
        })?;
        Some((name, first, later))
    })
}

/// The reason why the recipes have no certificate, in words. Sources are as in [`refusal_sentence`].
// claim: circle in words
pub fn fault_sentence(
    alloc: Global,
    cell: &Cell,
    recipes: &[Recipe],
    sources: &[RecipeSource],
    fault: &CheckFault,
) -> Result<Sentence, AllocError>
    ensures { IfOk result (λ sentence. SaysCircle cell.now recipes.now fault.now (string_bytes sentence.text)) }
{
    let set = Set {
        alloc,
        cell,
        recipes,
        sources,
    };
    let said = match fault {
        CheckFault::Recipe { recipe, broken } => recipe_said(set, *recipe, None, *broken),
        CheckFault::Recipes => no_set_said(set),
        CheckFault::Circle(edges) => mended_said(set, edges),
        CheckFault::Memory => String::from_str(alloc, NO_MEMORY),
    };
    Sentence::of(alloc, said?.as_str())
}

/// The circle, and the advice on it.
fn mended_said(set: Set<'_>, edges: &[Edge]) -> Result<String, AllocError>
    ensures { IfOk result (λ said. (words : List ℕ) × (more : List ℕ)
        × IsCircleTold set.entry.cell.now set.entry.recipes.now edges.now words × (string_bytes said ≡ words ++ more)) }
{
    let mut said = circle_said(set, edges)?;
    let more = advice_said(set, edges)?;
    said.push_str(&more)?;
    Ok(said)
}

fn circle_said(set: Set<'_>, edges: &[Edge]) -> Result<String, AllocError>
    ensures { IfOk result (λ said. IsCircleTold set.entry.cell.now set.entry.recipes.now edges.now (string_bytes said)) }
{
    let mut said = String::from_str(set.alloc, "batches can wait in a circle")?;
    for edge in edges {
        let words = edge_said(set, *edge)?;
        said.push_str(&words)?;
    }
    Ok(said)
}

fn edge_said(set: Set<'_>, edge: Edge) -> Result<String, AllocError>
    ensures { IfOk result (λ said. IsEdgeTold set.entry.cell.now set.entry.recipes.now edge (string_bytes said)) }
{
    let name = recipe_name(set.recipes, edge.recipe);
    let earlier = resource_name(set.cell, edge.earlier);
    let later = resource_name(set.cell, edge.later);
    let act = act_name(set.recipes, edge.recipe, edge.node);
    let holder = holder_said(set, edge)?;
    let asker = asker_said(set, edge)?;
    format!(in set.alloc; "; {name} holds {earlier}{holder} and asks for {later} in {act}{asker}")
}
