//! Graphs in the language of Graphviz.
ghost use Rattle.std.specs.Prelude.{◌≡◌, IfOk, string_bytes};
ghost use Rattle.std.specs.List.{flat_map};
ghost use Rattle.batch_check.specs.Edges.{has_pair};
ghost use Rattle.batch_messages.specs.CircleSentence.{act_name};
ghost use Rattle.batch_verdicts.specs.GraphTexts.{arrows_text, colour_of, graph_text, module_text, resources_text, shared_text, unit_box_text};

use crate::texts::nodes::{node_text, resource_name};
use batch_cell::{Cell, Module, Shared, Unit};
use batch_check::Edge;
use batch_messages::act_name;
use batch_recipe::Recipe;
use std::alloc::{AllocError, Global};

/// The meaning of the graph's shapes and colours, as its title.
pub const LEGEND: &str =
    "  label=\"An arrow leads from a resource that is held to one that is asked for then; it names a step that asks so. Red: on a circle.\\nBox: a unit. Hexagon: a free module. Ellipse: a shared resource.\";\n";

/// The graph of the edges, with all resources of the cell. Each edge has an arrow, which is red if one of the red edges leads from the
/// same resource to the same.
// claim: drawing's text
pub fn graph_text(
    alloc: Global,
    cell: &Cell,
    recipes: &[Recipe],
    edges: &[Edge],
    red: &[Edge],
) -> Result<String, AllocError>
    ensures { IfOk result (λ text. string_bytes text ≡ graph_text (act_name recipes.now) cell.now recipes.now edges.now red.now) }
{
    let name = &cell.name;
    let resources = resources_text(alloc, cell)?;
    let arrows = arrows_text(alloc, cell, recipes, edges, red)?;
    format!(in alloc; "digraph \"{name}\" {{\n{LEGEND}{resources}{arrows}}}\n")
}

/// The resources of the cell, in the shape of their kind.
fn resources_text(alloc: Global, cell: &Cell) -> Result<String, AllocError>
    ensures { IfOk result (λ text. string_bytes text ≡ resources_text cell.now) }
{
    let units = units_text(alloc, &cell.units)?;
    let modules = modules_text(alloc, &cell.modules)?;
    let shared = all_shared_text(alloc, &cell.shared)?;
    format!(in alloc; "{units}{modules}{shared}")
}

fn units_text(alloc: Global, units: &[Unit]) -> Result<String, AllocError>
    ensures { IfOk result (λ text. string_bytes text ≡ flat_map unit_box_text units.now) }
{
    let mut text = String::new(alloc);
    for unit in units {
        writeln!(text, "  \"{}\" [shape=box];", unit.name)?;
    }
    Ok(text)
}

fn modules_text(alloc: Global, modules: &[Module]) -> Result<String, AllocError>
    ensures { IfOk result (λ text. string_bytes text ≡ flat_map module_text modules.now) }
{
    let mut text = String::new(alloc);
    for one in modules {
        let more = module_text(alloc, one)?;
        text.push_str(&more)?;
    }
    Ok(text)
}

fn module_text(alloc: Global, one: &Module) -> Result<String, AllocError>
    ensures { IfOk result (λ text. string_bytes text ≡ module_text one.now) }
{
    match &one.unit {
        Some(_) => Ok(String::new(alloc)),
        None => format!(in alloc; "  \"{}\" [shape=hexagon];\n", one.name),
    }
}

fn all_shared_text(alloc: Global, shared: &[Shared]) -> Result<String, AllocError>
    ensures { IfOk result (λ text. string_bytes text ≡ flat_map shared_text shared.now) }
{
    let mut text = String::new(alloc);
    for one in shared {
        let Shared { name, capacity } = one;
        writeln!(text, "  \"{name}\" [label=\"{name}\\nunits: {capacity}\"];")?;
    }
    Ok(text)
}

fn arrows_text(
    alloc: Global,
    cell: &Cell,
    recipes: &[Recipe],
    edges: &[Edge],
    red: &[Edge],
) -> Result<String, AllocError>
    ensures { IfOk result (λ text. string_bytes text ≡ arrows_text (act_name recipes.now) cell.now recipes.now red.now edges.now) }
{
    let mut text = String::new(alloc);
    for edge in edges {
        let earlier = resource_name(cell, edge.earlier);
        let later = resource_name(cell, edge.later);
        let node = node_text(alloc, recipes, edge.recipe, edge.node)?;
        let act = act_name(recipes, edge.recipe, edge.node);
        let colour = colour_of(red, *edge);
        writeln!(
            text,
            "  \"{earlier}\" -> \"{later}\" [label=\"{node}\\n{act}\"{colour}];"
        )?;
    }
    Ok(text)
}

/// The mark of an edge that is red.
fn colour_of(red: &[Edge], edge: Edge) -> &'static str
    ensures { result.now ≡ colour_of red.now edge }
{
    if is_on(red, edge) { ", color=red" } else { "" }
}

fn is_on(red: &[Edge], edge: Edge) -> bool
    ensures { result ≡ has_pair red.now edge.earlier edge.later }
{
    red.iter()
        .any(|on| on.earlier == edge.earlier && on.later == edge.later)
}
