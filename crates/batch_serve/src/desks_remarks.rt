//! The text of runs, in which comments say whose they are.
ghost use Rattle.std.specs.Prelude.{◌≡◌, [], ◌++◌, get_or, IfOk, OnOk};
ghost use Rattle.batch_serve.specs.Runs.{from_text, is_same, last_of, runs_text};

use crate::run::Run;
use batch_text::Name;
use std::alloc::{AllocError, Global};

/// The text of the runs, behind those of the desk at a place or of none. Where the desk changes, a comment names it.
///
/// The error is that there is no memory for it.
// claim: text of runs
pub fn runs_text(
    alloc: Global,
    names: &[Name],
    before: Option<usize>,
    runs: &[Run],
) -> Result<Vec<u8>, AllocError>
    ensures { IfOk result (λ text. text.items ≡ runs_text names.now before runs.now) }
{
    let mut text = Vec::new(alloc);
    let mut last = before;
    for run in runs {
        let sender = run.desk();
        push_from(&mut text, names, last, sender)?;
        text.extend_from_slice(run.text())?;
        last = Some(sender);
    }
    Ok(text)
}

/// The desk of the last run, or the desk before if there is no run.
pub fn last_of(before: Option<usize>, runs: &[Run]) -> Option<usize>
    ensures { result ≡ last_of before runs.now }
{
    let mut last = before;
    for run in runs {
        last = Some(run.desk());
    }
    last
}

/// Appends the comment that names the desk, unless it is the desk before.
fn push_from(
    text: &mut Vec<u8>,
    names: &[Name],
    before: Option<usize>,
    desk: usize,
) -> Result<(), AllocError>
    ensures { OnOk result (text.new.items ≡ text.old.items ++ from_text names.now before desk) }
{
    if is_same(before, desk) {
        return Ok(());
    }
    text.extend_from_slice(b"# from ")?;
    text.extend_from_slice(name_of(names, desk))?;
    text.push(b'\n')?;
    Ok(())
}

fn is_same(before: Option<usize>, desk: usize) -> bool
    ensures { result ≡ is_same before desk }
{
    match before {
        Some(other) => other == desk,
        None => false,
    }
}

fn name_of(names: &[Name], desk: usize) -> &[u8]
    ensures { result.now ≡ get_or names.now desk [] }
{
    match names.get(desk) {
        Some(name) => name.text().as_bytes(),
        None => &[],
    }
}
