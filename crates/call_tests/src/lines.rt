//! Recipes cleared for the demo cell, and lines of outs.
use crate::documents::CELL1;
use crate::records::cleared_of;
use batch_engine::Out;
use batch_verify::Cleared;
use batch_wire::write_out;
use std::alloc::Global;
use std::test::Fail;

/// The recipe, cleared for the demo cell by the certificate that `check` gives.
pub(crate) fn demo_set_of(alloc: Global, recipe: &str) -> Result<Cleared, Fail> {
    cleared_of(alloc, CELL1, &[recipe])
}

/// The line of an out, or this text if there is none.
pub(crate) fn text_of(
    alloc: Global,
    cleared: &Cleared,
    out: Option<Out>,
    none: &str,
) -> Result<String, Fail> {
    let mut text = Vec::new(alloc);
    match out {
        Some(out) => write_out(&out, cleared, &mut text)?,
        None => text.extend_from_slice(none.as_bytes())?,
    }
    Ok(String::from_utf8(text)?)
}
