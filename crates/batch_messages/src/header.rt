//! Headers of the tables of documents.

/// The word of the header in the line, with single brackets or double ones.
pub fn header_in(line: &str) -> Option<&str> {
    let rest = line.strip_prefix("[")?;
    let rest = rest.strip_prefix("[").unwrap_or(rest);
    let (name, _) = rest.split_once(']')?;
    Some(name.trim())
}
