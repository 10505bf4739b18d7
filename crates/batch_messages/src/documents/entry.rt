//! The table of a document that has the fault.
use crate::documents::declared::{list_at, text_at};
use batch_reader::Spot;
use std::alloc::Global;
use toml::Table;

/// A table of a document, at its spot, and the document with its text.
#[derive(Clone, Copy)]
pub(crate) struct Entry<'a> {
    pub(crate) alloc: Global,
    pub(crate) text: &'a str,
    pub(crate) document: &'a Table,
    pub(crate) spot: Spot,
    pub(crate) table: &'a Table,
}

impl<'a> Entry<'a> {
    /// The text that the table has under this key, or an empty one.
    pub(crate) fn text_at(self, key: &str) -> &'a str {
        text_at(self.table, key).unwrap_or("")
    }

    /// The text of the need with this number.
    pub(crate) fn need_at(self, number: usize) -> Option<&'a str> {
        list_at(self.table, "needs").get(number)?.as_str()
    }
}
