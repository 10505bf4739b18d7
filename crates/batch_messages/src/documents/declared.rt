//! The names that a document declares.
use crate::documents::entry::Entry;
use crate::documents::hints::is_of_words;
use crate::documents::kinds::{VALUES, kinds_below};
use batch_reader::{Spot, TableKind, is_chart_word};
use batch_text::is_name;
use std::alloc::{AllocError, Global};
use toml::{Table, Value};

/// The list that the table has under this key, as are a document's tables of a word. A value that is no list is the only one of it.
pub(crate) fn list_at<'a>(table: &'a Table, key: &str) -> &'a [Value] {
    match table.get(key) {
        Some(Value::Array(values)) => values,
        Some(value) => std::slice::from_ref(value),
        None => &[],
    }
}

/// The text that the table has under this key.
pub(crate) fn text_at<'a>(table: &'a Table, key: &str) -> Option<&'a str> {
    table.get(key)?.as_str()
}

/// The name of the table.
fn name_in(table: &Value) -> Option<&str> {
    table.get("name")?.as_str()
}

/// The first table of these kinds with this name.
pub(crate) fn first_named(document: &Table, kinds: &[TableKind], name: &str) -> Option<Spot> {
    kinds.iter().find_map(|kind| {
        let mut tables = list_at(document, kind.word()).iter();
        let entry = tables.position(|table| name_in(table) == Some(name))?;
        Some(Spot { kind: *kind, entry })
    })
}

/// The names of the document's tables of these kinds.
pub(crate) fn names_of<'a>(
    alloc: Global,
    document: &'a Table,
    kinds: &[TableKind],
) -> Result<Vec<&'a str>, AllocError> {
    kinds
        .iter()
        .flat_map(|kind| list_at(document, kind.word()))
        .filter_map(name_in)
        .collect(alloc)
}

impl<'a> Entry<'a> {
    /// The first name of the table's text or list under this key that no table of these kinds has.
    pub(crate) fn undeclared_at(self, key: &str, kinds: &[TableKind]) -> &'a str {
        let mut names = list_at(self.table, key).iter().filter_map(Value::as_str);
        let undeclared = names.find(|name| first_named(self.document, kinds, name).is_none());
        undeclared.unwrap_or("")
    }

    /// The first name of the table's chart that is declared as no table of the kinds that it may name, and these: of values in a
    /// condition, and else of the acts below.
    pub(crate) fn undeclared_in_chart(self) -> Option<(&'a str, &'static [TableKind])> {
        let chart = self.text_at("chart");
        let mut rest = chart;
        for _ in 0..chart.len() {
            let (before, name, behind) = word_in(rest)?;
            let kinds = if is_compared(before, behind) {
                &VALUES
            } else {
                kinds_below(self.spot.kind)
            };
            if is_reference(name) && first_named(self.document, kinds, name).is_none() {
                return Some((name, kinds));
            }
            rest = behind;
        }
        None
    }

    /// The first phase of the module that an earlier module of its unit offers, and the name of that module.
    pub(crate) fn offered_before(self) -> Option<(&'a str, &'a str)> {
        let mut phases = list_at(self.table, "phases")
            .iter()
            .filter_map(Value::as_str);
        phases.find_map(|phase| {
            let other = self.module_offering(phase)?;
            (other != self.text_at("name")).then_some((phase, other))
        })
    }

    /// The name of the first module of the module's unit that offers the phase.
    fn module_offering(self, phase: &str) -> Option<&'a str> {
        let unit = self.text_at("unit");
        let mut modules = list_at(self.document, "module")
            .iter()
            .filter_map(Value::as_table);
        let module = modules.find(|module| {
            text_at(module, "unit") == Some(unit) && times_at(module, "phases", phase) > 0
        })?;
        text_at(module, "name")
    }
}

/// The text before the first word, this word, and the text behind it.
fn word_in(text: &str) -> Option<(&str, &str, &str)> {
    let (before, tail) = text.split_at_checked(text.find(is_of_words)?)?;
    let behind = tail.trim_start_matches(is_of_words);
    Some((before, tail.strip_suffix(behind)?, behind))
}

/// Whether an operator ends the text before a word of a chart, or begins the text behind it.
fn is_compared(before: &str, behind: &str) -> bool {
    let operators = ['<', '>', '=', '/'];
    before.trim_end().ends_with(operators) || behind.trim_start().starts_with(operators)
}

/// Whether the word of a chart is a name.
fn is_reference(word: &str) -> bool {
    is_name(word.as_bytes()) && !is_chart_word(word.as_bytes())
}

/// The first text that the table's list under this key has twice.
pub(crate) fn listed_twice<'a>(table: &'a Table, key: &str) -> Option<&'a str> {
    let mut texts = list_at(table, key).iter().filter_map(Value::as_str);
    texts.find(|text| times_at(table, key, text) > 1)
}

/// The number of times that the table's list under this key has the text.
fn times_at(table: &Table, key: &str, text: &str) -> usize {
    let values = list_at(table, key).iter();
    values.filter(|value| value.as_str() == Some(text)).count()
}
