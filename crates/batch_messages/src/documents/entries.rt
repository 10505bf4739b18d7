//! The faults of a document's table.
use crate::documents::entry::Entry;
use crate::documents::fits::{form_said, given_said};
use crate::documents::kinds::{kind_said, kinds_beside, word_of};
use crate::near::meant_said;
use batch_reader::{EntryFault, Key, Spot, TableKind, ValueForm, is_chart_word, keys_of};
use batch_recipe::{MAX_NEED_UNITS, MAX_NODES, MAX_VALUE};
use std::alloc::{AllocError, Global};
use toml::{Table, Value};

/// The fault of a table, in words, and the key that has it, which is empty if none is known.
#[derive(Drop)]
pub(crate) struct Wrong<'a> {
    pub(crate) key: &'a str,
    pub(crate) mistake: String,
}

impl<'a> Wrong<'a> {
    pub(crate) fn from_str(
        alloc: Global,
        key: &'a str,
        mistake: &str,
    ) -> Result<Wrong<'a>, AllocError> {
        Wrong::with(key, String::from_str(alloc, mistake))
    }

    pub(crate) fn with(
        key: &'a str,
        mistake: Result<String, AllocError>,
    ) -> Result<Wrong<'a>, AllocError> {
        Ok(Wrong {
            key,
            mistake: mistake?,
        })
    }
}

/// The number of the document's tables of the kind.
pub(crate) fn tables_of(document: &Table, kind: TableKind) -> usize {
    let Some(word) = word_of(kind) else {
        return 0;
    };
    match document.get(word) {
        Some(Value::Array(tables)) => tables.len(),
        Some(_) => 1,
        None => 0,
    }
}

/// The table at the spot.
fn entry_at(document: &Table, spot: Spot) -> Option<&Table> {
    match word_of(spot.kind) {
        None => Some(document),
        Some(word) => match document.get(word)? {
            Value::Array(tables) => tables.get(spot.entry)?.as_table(),
            value => value.as_table(),
        },
    }
}

/// The fault of the table at the spot, in words, in the document of this text.
pub(crate) fn wrong_at<'a>(
    alloc: Global,
    text: &str,
    document: &'a Table,
    spot: Spot,
    fault: EntryFault,
) -> Result<Wrong<'a>, AllocError> {
    let Some(table) = entry_at(document, spot) else {
        return no_table(alloc, document, spot.kind);
    };
    let entry = Entry {
        alloc,
        text,
        document,
        spot,
        table,
    };
    match fault {
        EntryFault::MissingKey(key) => missing(alloc, key),
        EntryFault::WrongKind(Some(key)) => wrong_kind(entry, key),
        EntryFault::WrongKind(None) => misheaded(alloc, spot.kind),
        EntryFault::NoNeed(number) => no_need(entry, number),
        EntryFault::UnknownKey => unknown(alloc, keys_of(spot.kind), table, spot.kind),
        EntryFault::Undeclared(key) => entry.undeclared(key),
        EntryFault::Duplicate(key) => entry.duplicate(key),
        EntryFault::OutOfLimit(Some(key)) => out_of_limit(entry, key),
        EntryFault::OutOfLimit(None) => Wrong::with("", too_many_said(alloc, spot)),
        EntryFault::NeedOutOfLimit(number) => Wrong::with("needs", units_said(entry, number)),
        EntryFault::NumberOutOfLimit(byte) => Wrong::with("chart", entry.number_said(byte)),
        EntryFault::Chart(byte) => Wrong::with("chart", entry.no_chart_said(byte)),
    }
}

/// Says that the document has no table of this kind.
fn no_table(
    alloc: Global,
    document: &Table,
    kind: TableKind,
) -> Result<Wrong<'static>, AllocError> {
    let word = word_of(kind).unwrap_or("");
    if document.contains_key(word) {
        Wrong::with(
            "",
            format!(in alloc; "`{word}` has to be a table, or tables, with a header of their own"),
        )
    } else {
        Wrong::from_str(alloc, "", "there is no such table, and one is needed")
    }
}

fn missing(alloc: Global, key: Option<&str>) -> Result<Wrong<'static>, AllocError> {
    match key {
        // A unit procedure and a desk need one of two keys.
        Some("unit") => {
            Wrong::from_str(alloc, "", "one of the keys `unit` and `role` is missing")
        }
        Some(key) => Wrong::with("", format!(in alloc; "the key `{key}` is missing")),
        None => Wrong::from_str(alloc, "", "one of the keys `input` and `output` is missing"),
    }
}

fn unknown<'a>(
    alloc: Global,
    keys: &[Key],
    table: &'a Table,
    kind: TableKind,
) -> Result<Wrong<'a>, AllocError> {
    let mut names = table.keys().map(|name| name.as_str());
    match names.find(|name| !is_known(keys, name)) {
        Some(name) => Wrong::with(name, unknown_said(alloc, keys, name, kind)),
        // Some keys of the other two kinds suit one another badly.
        None => match kind {
            TableKind::Desk => {
                Wrong::from_str(alloc, "", "a document of desks has tables [[desk]] alone")
            }
            TableKind::UnitProcedure => Wrong::from_str(
                alloc,
                "role",
                "`unit` and `role` don't stand together",
            ),
            _ => Wrong::from_str(alloc, "phases", "a module without `unit` has no `phases`"),
        },
    }
}

/// Says that the key is unknown, which keys are known, and which of them may have been meant.
fn unknown_said(
    alloc: Global,
    keys: &[Key],
    name: &str,
    kind: TableKind,
) -> Result<String, AllocError> {
    let names: Vec<&str> = keys.iter().map(|key| key.0).collect(alloc)?;
    let known = names.join(alloc, ", ")?;
    let others = others_said(alloc, kind, name)?;
    let meant = meant_said(alloc, name, &names)?;
    format!(in alloc; "the key `{name}` is unknown here; known are {known}{others}{meant}")
}

/// Says which other tables of the document's kind have the key, if any.
fn others_said(alloc: Global, kind: TableKind, name: &str) -> Result<String, AllocError> {
    let mut said = String::new(alloc);
    for other in kinds_beside(kind) {
        if is_known(keys_of(*other), name) {
            let table = kind_said(alloc, *other)?;
            said.push_str(if said.is_empty() {
                "; it is a key of "
            } else {
                ", "
            })?;
            said.push_str(table.as_str())?;
        }
    }
    Ok(said)
}

fn is_known(keys: &[Key], name: &str) -> bool {
    keys.iter().any(|key| key.0 == name)
}

fn wrong_kind(entry: Entry<'_>, key: &'static str) -> Result<Wrong<'static>, AllocError> {
    let Entry { alloc, table, .. } = entry;
    match table.get(key) {
        Some(Value::String(name)) if is_chart_word(name.as_bytes()) => Wrong::with(
            key,
            format!(in alloc; "the name `{name}` is a word of charts, which names nothing else"),
        ),
        _ => unfit(entry, key, "has to be"),
    }
}

/// Says that the need with this number is none, or which form needs are to have if it is no text.
fn no_need(entry: Entry<'_>, number: usize) -> Result<Wrong<'static>, AllocError> {
    let Some(need) = entry.need_at(number) else {
        return unfit(entry, "needs", "has to be");
    };
    Wrong::with(
        "needs",
        format!(in entry.alloc;
            "`{need}` is no need: a need is the name of a resource, with a star and a number behind it where it is of several units, as `STEAM` or `STEAM*2`, and no spaces"
        ),
    )
}

/// Says that the units of the need with this number are out of their limits.
fn units_said(entry: Entry<'_>, number: usize) -> Result<String, AllocError> {
    let need = entry.need_at(number).unwrap_or("");
    format!(in entry.alloc;
        "`{need}` is out of its limits: a need is of 1 to {MAX_NEED_UNITS} units"
    )
}

/// Says that the header of a table of this kind has other brackets: a procedure's single ones, any other's double ones.
fn misheaded(alloc: Global, kind: TableKind) -> Result<Wrong<'static>, AllocError> {
    match kind {
        TableKind::Procedure => Wrong::from_str(
            alloc,
            "",
            "a recipe has one procedure, with the header [procedure]",
        ),
        _ => Wrong::with(
            "",
            format!(in alloc;
                "the header is [[{kind}]], since a document may have several of these tables"
            ),
        ),
    }
}

/// Says which form the value of the key is to have.
fn unfit(entry: Entry<'_>, key: &'static str, front: &str) -> Result<Wrong<'static>, AllocError> {
    let Entry {
        alloc,
        table,
        spot,
        ..
    } = entry;
    let known = keys_of(spot.kind).iter().find(|known| known.0 == key);
    let form = known.map_or(ValueForm::Tables, |known| known.2);
    let wanted = form_said(alloc, form)?;
    let given = match table.get(key) {
        Some(value) => given_said(alloc, form, value)?,
        None => String::new(alloc),
    };
    Wrong::with(key, format!(in alloc; "`{key}` {front} {wanted}{given}"))
}

/// Says that the value of the key is out of its limits, or that `min`, which is within them, is above `max`.
fn out_of_limit(entry: Entry<'_>, key: &'static str) -> Result<Wrong<'static>, AllocError> {
    match (key, entry.table.get(key)) {
        ("min", Some(Value::Integer(least))) if 0 <= *least && *least <= MAX_VALUE as i64 => {
            Wrong::from_str(entry.alloc, key, "`min` is above `max`")
        }
        _ => unfit(entry, key, "is out of its limits: it has to be"),
    }
}

/// Says that the nodes of the procedure are too many, or the tables. In the second case the spot is that of the first table too many.
fn too_many_said(alloc: Global, spot: Spot) -> Result<String, AllocError> {
    match spot.kind {
        TableKind::Procedure => format!(in alloc;
            "the acts come to more than {MAX_NODES} nodes: each label stands for its act, with the chart of that"
        ),
        _ => format!(in alloc; "a document has at most {} of these tables", spot.entry),
    }
}
