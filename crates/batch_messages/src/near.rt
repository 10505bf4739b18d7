//! Names that were nearly written.
use std::alloc::{AllocError, Global};
use strsim::osa_distance;

/// The number of letters of a written name to each one that may be wrong.
const LETTERS_A_MISTAKE: usize = 3;

/// The most names that a sentence lists.
const MOST_TOLD: usize = 16;

/// A question for the name that was nearly written, or nothing if none is near.
pub fn meant_said(alloc: Global, written: &str, names: &[&str]) -> Result<String, AllocError> {
    match nearest(alloc, written, names)? {
        Some(name) => question_said(alloc, name),
        None => Ok(String::new(alloc)),
    }
}

/// A question for the name that was nearly written, or the list of the names if none is near.
pub fn meant_or_known(
    alloc: Global,
    written: &str,
    names: Result<Vec<&str>, AllocError>,
) -> Result<String, AllocError> {
    let names = names?;
    match nearest(alloc, written, &names)? {
        Some(name) => question_said(alloc, name),
        None => names_said(alloc, &names),
    }
}

fn question_said(alloc: Global, name: &str) -> Result<String, AllocError> {
    format!(in alloc; "; did you mean `{name}`?")
}

/// The list of the names, or of the first if they are many.
fn names_said(alloc: Global, names: &[&str]) -> Result<String, AllocError> {
    if names.is_empty() {
        return String::from_str(alloc, "; none is known");
    }
    if names.len() > MOST_TOLD {
        let first = names[..MOST_TOLD].join(alloc, ", ")?;
        return format!(in alloc; "; known are {first} and more");
    }
    let known = names.join(alloc, ", ")?;
    format!(in alloc; "; known are {known}")
}

/// The name that was nearly written: the first of these that there is.
///
/// - the name that is the written one but for the case of its letters;
/// - the first of the nearest names, if few letters are wrong;
/// - the only name that has the written one as a prefix, or is a prefix of it.
fn nearest<'a>(
    alloc: Global,
    written: &str,
    names: &[&'a str],
) -> Result<Option<&'a str>, AllocError> {
    let mut found = None;
    let mut bound = (written.len() / LETTERS_A_MISTAKE).saturating_add(1);
    for name in names {
        if name.eq_ignore_ascii_case(written) {
            return Ok(Some(*name));
        }
        let letters = osa_distance(alloc, written, name)?;
        if letters < bound {
            bound = letters;
            found = Some(*name);
        }
    }
    Ok(match found {
        Some(name) => Some(name),
        None => only_beginning(written, names),
    })
}

/// The only one of the names that has the written one as a prefix, or is a prefix of it.
fn only_beginning<'a>(written: &str, names: &[&'a str]) -> Option<&'a str> {
    let mut found = None;
    for name in names {
        if name.starts_with(written) || written.starts_with(*name) {
            if found.is_some() {
                return None;
            }
            found = Some(*name);
        }
    }
    found
}
