//! Drawings of the orders in which recipes ask for resources.
ghost use Rattle.std.specs.Prelude.{[], IfErr, IfOk, string_bytes};
ghost use Rattle.std.specs.List.{All};
ghost use Rattle.batch_check.specs.Checking.{IsFault};
ghost use Rattle.batch_check.specs.Edges.{EdgeStands};
ghost use Rattle.batch_verdicts.specs.Drawing.{IsDrawingOf, IsDrawn, IsFaultDrawn, RefusesDrawing};

use crate::judging::fault_halt;
use crate::refusal::Halt;
use crate::rings::red_edges;
use crate::texts::{fault_text, graph_text};
use batch_cell::Cell;
use batch_check::{CheckFault, Edge, check, graph_of};
use batch_messages::RecipeSource;
use batch_recipe::Recipe;
use std::alloc::{AllocError, Global};

/// The output of `check --dot` on the recipes: in place of a certificate, or of a circle, the graph of the edges, for Graphviz. Only
/// the sentence of a refusal uses the sources.
// claim: drawing
pub fn draw_recipes(
    alloc: Global,
    cell: &Cell,
    recipes: &[Recipe],
    sources: &[RecipeSource],
) -> Result<String, Halt>
    ensures drawn { IfOk result (λ text. IsDrawn cell.now recipes.now (string_bytes text)) }
    // claim: refusal text
    ensures refused { IfErr result (RefusesDrawing cell.now recipes.now) }
{
    match check(alloc, cell, recipes) {
        Ok(_) => Ok(drawing(alloc, cell, recipes, &[])?),
        Err(fault) => {
            let text = fault_drawing(alloc, cell, recipes, &fault)?;
            Err(fault_halt(alloc, cell, recipes, sources, Ok(text), &fault))
        }
    }
}

/// The graph with the circle that the fault is, or the text of `check` on another fault.
fn fault_drawing(
    alloc: Global,
    cell: &Cell,
    recipes: &[Recipe],
    fault: &CheckFault,
) -> Result<String, AllocError>
    requires { IsFault cell.now recipes.now fault.now }
    ensures { IfOk result (λ text. IsFaultDrawn cell.now recipes.now fault.now (string_bytes text)) }
{
    match fault {
        CheckFault::Circle(circle) => drawing(alloc, cell, recipes, circle),
        CheckFault::Recipe { .. } | CheckFault::Recipes | CheckFault::Memory => {
            fault_text(alloc, cell, recipes, fault)
        }
    }
}

/// The graph of the recipes, in which each edge on a circle is red. The given circle has edges of the recipes alone, or none.
fn drawing(
    alloc: Global,
    cell: &Cell,
    recipes: &[Recipe],
    circle: &[Edge],
) -> Result<String, AllocError>
    requires { All (EdgeStands cell.now recipes.now) circle.now }
    ensures { IfOk result (λ text. IsDrawingOf cell.now recipes.now circle.now (string_bytes text)) }
{
    match graph_of(alloc, cell, recipes, circle) {
        Ok(edges) => {
            let red = red_edges(alloc, cell.resources(), &edges, circle)?;
            graph_text(alloc, cell, recipes, &edges, &red)
        }
        // `check` found the recipes to be a set, so that memory alone can be wanting.
        Err(_) => Err(AllocError),
    }
}
