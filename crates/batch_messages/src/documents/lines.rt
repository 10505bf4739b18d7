//! Lines of a document.
use crate::documents::entries::tables_of;
use crate::documents::kinds::word_of;
use crate::header::header_in;
use batch_reader::Spot;
use toml::Table;

/// The line of the key in the table at the spot, counted from 1, or of the table's header if the key has none. An empty key has none.
///
/// A table is found by its header, in a line of its own. None where these headers aren't as many as the document has tables of the
/// kind. At the top of a document a key may be the word of a header.
pub(crate) fn line_of(text: &str, document: &Table, spot: Spot, key: &str) -> Option<usize> {
    let Some(word) = word_of(spot.kind) else {
        return key_line(text, 0, key).or_else(|| header_line(text, key, 0));
    };
    if headers_in(text, word) != tables_of(document, spot.kind) {
        return None;
    }
    let header = header_line(text, word, spot.entry)?;
    key_line(text, header, key).or(Some(header))
}

/// The line of the key, counted from 1, behind so many lines and before the next header.
fn key_line(text: &str, above: usize, key: &str) -> Option<usize> {
    let mut lines = text
        .lines()
        .skip(above)
        .take_while(|line| !line.trim().starts_with('['));
    let own = lines.position(|line| has_key(line.trim(), key))?;
    Some(above.saturating_add(own).saturating_add(1))
}

/// The line of a header of tables of this word, counted from 1, to which so many others precede.
fn header_line(text: &str, word: &str, before: usize) -> Option<usize> {
    let mut headers = text
        .lines()
        .enumerate()
        .filter(|(_, line)| header_in(line.trim()) == Some(word));
    let (above, _) = headers.nth(before)?;
    Some(above.saturating_add(1))
}

/// The number of headers of tables of this word.
fn headers_in(text: &str, word: &str) -> usize {
    text.lines()
        .filter(|line| header_in(line.trim()) == Some(word))
        .count()
}

/// Whether the line gives the key a value.
fn has_key(line: &str, key: &str) -> bool {
    match line.strip_prefix(key) {
        Some(rest) => !key.is_empty() && rest.trim_start().starts_with('='),
        None => false,
    }
}
