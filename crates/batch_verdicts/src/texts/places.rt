//! Places of nodes.
ghost use Rattle.std.specs.Prelude.{◌≡◌, ◌++◌, IfOk, OnOk, string_bytes, decimal};
ghost use Rattle.batch_recipe.specs.Texts.{dot_text};
ghost use Rattle.batch_verdicts.specs.VerdictTexts.{place_text_at};

use batch_recipe::{MAX_NODES, Recipe, place_number};
use std::alloc::{AllocError, Global};

/// The place of the node with this number; of a number that is no node's it is empty.
pub(crate) fn place_text(alloc: Global, recipe: &Recipe, node: u16) -> Result<String, AllocError>
    ensures { IfOk result (λ text. string_bytes text ≡ place_text_at recipe.now node) }
{
    let mut text = String::new(alloc);
    // No place has more numbers than there are nodes.
    for depth in 0..MAX_NODES {
        match place_number(recipe, node, depth) {
            Some(number) => push_number(&mut text, depth, number)?,
            None => break,
        }
    }
    Ok(text)
}

fn push_number(text: &mut String, depth: u16, number: u16) -> Result<(), AllocError>
    ensures { OnOk result (string_bytes text.new ≡ string_bytes text.old ++ (dot_text depth ++ decimal number)) }
{
    if depth > 0 {
        write!(text, ".{number}")
    } else {
        write!(text, "{number}")
    }
}
