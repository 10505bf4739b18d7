//! The keys of the tables of documents.
ghost use Rattle.std.specs.Prelude.{◌≡◌, map};
ghost use Rattle.toml.specs.View.{table_view};
ghost use Rattle.batch_reader.specs.Keys.{has_known_keys, is_known, key_said, keys_of, may_stand};

use crate::entries::member;
use crate::fault::TableKind;
use batch_cell::{MAX_CAPACITY, MAX_PHASES};
use batch_recipe::{
    MAX_NEEDS, MAX_REPORTS, MAX_RESERVES, MAX_SIZE, MAX_TEXT_LEN, MAX_VALUE, MAX_VALUES,
    MAX_VERSION_LEN,
};
use toml::Table;

/// The longest path of a desk, in bytes.
pub const MAX_PATH_LEN: usize = 4_096;

/// The most lines that may wait for a desk.
pub const MAX_LAG: usize = 65_536;

/// The form that the value at a key must have.
#[derive(Clone, Copy)]
pub enum ValueForm {
    Name,
    /// A name that is none of the words of charts.
    FreeName,
    /// A text of at most so many bytes.
    Text(usize),
    /// A text that isn't empty, of at most so many bytes.
    Path(usize),
    /// A whole number from the first to the second.
    Number(u64, u64),
    /// A whole number up to this one, and not above that at the key `max`.
    Least(u64),
    Truth,
    /// A list of names, from so many to so many.
    Names(usize, usize),
    /// A list of at most so many needs.
    Needs(usize),
    Chart,
    ChartWithoutPar,
    /// Tables, each of which is checked by itself.
    Tables,
}

/// A key of a table: its word, whether the table needs it where it may stand, and the form of its value.
#[derive(Clone, Copy)]
pub struct Key(pub &'static str, pub bool, pub ValueForm);

const NAME: Key = Key("name", true, ValueForm::Name);

const FREE_NAME: Key = Key("name", true, ValueForm::FreeName);

const CHART: Key = Key("chart", true, ValueForm::Chart);

const NEEDS: Key = Key("needs", false, ValueForm::Needs(MAX_NEEDS));

const RESERVES: Key = Key("reserves", false, ValueForm::Names(0, MAX_RESERVES));

static CELL: [Key; 4] = [
    Key("cell", true, ValueForm::Name),
    Key("unit", false, ValueForm::Tables),
    Key("module", false, ValueForm::Tables),
    Key("shared", false, ValueForm::Tables),
];

static UNIT: [Key; 2] = [NAME, Key("class", false, ValueForm::Name)];

static MODULE: [Key; 3] = [
    NAME,
    Key("unit", false, ValueForm::Name),
    Key("phases", true, ValueForm::Names(1, MAX_PHASES)),
];

static SHARED: [Key; 2] = [
    NAME,
    Key("capacity", true, ValueForm::Number(1, MAX_CAPACITY as u64)),
];

static RECIPE: [Key; 14] = [
    Key("recipe", true, ValueForm::Name),
    Key("version", true, ValueForm::Text(MAX_VERSION_LEN)),
    Key("basis", true, ValueForm::Number(1, MAX_SIZE)),
    Key("product", false, ValueForm::Text(MAX_TEXT_LEN)),
    Key("author", false, ValueForm::Text(MAX_TEXT_LEN)),
    Key("info", false, ValueForm::Text(MAX_TEXT_LEN)),
    Key("procedure", false, ValueForm::Tables),
    Key("input", false, ValueForm::Tables),
    Key("parameter", false, ValueForm::Tables),
    Key("output", false, ValueForm::Tables),
    Key("role", false, ValueForm::Tables),
    Key("unit_procedure", false, ValueForm::Tables),
    Key("operation", false, ValueForm::Tables),
    Key("phase", false, ValueForm::Tables),
];

static QUANTITY: [Key; 5] = [
    FREE_NAME,
    Key("value", true, ValueForm::Number(0, MAX_VALUE)),
    Key("min", true, ValueForm::Least(MAX_VALUE)),
    Key("max", true, ValueForm::Number(0, MAX_VALUE)),
    Key("fixed", false, ValueForm::Truth),
];

static OUTPUT: [Key; 1] = [FREE_NAME];

static ROLE: [Key; 2] = [NAME, Key("class", true, ValueForm::Name)];

static PROCEDURE: [Key; 2] = [CHART, NEEDS];

static UNIT_PROCEDURE: [Key; 6] = [
    FREE_NAME,
    Key("unit", true, ValueForm::Name),
    Key("role", false, ValueForm::Name),
    Key("chart", true, ValueForm::ChartWithoutPar),
    NEEDS,
    RESERVES,
];

static OPERATION: [Key; 4] = [FREE_NAME, CHART, NEEDS, RESERVES];

static PHASE: [Key; 6] = [
    FREE_NAME,
    Key("runs", false, ValueForm::Name),
    NEEDS,
    Key("values", false, ValueForm::Names(0, MAX_VALUES)),
    Key("reports", false, ValueForm::Names(0, MAX_REPORTS)),
    RESERVES,
];

static DESK: [Key; 6] = [
    NAME,
    Key("input", false, ValueForm::Path(MAX_PATH_LEN)),
    Key("output", false, ValueForm::Path(MAX_PATH_LEN)),
    Key("unit", false, ValueForm::Name),
    Key("stays", false, ValueForm::Truth),
    Key("lag", false, ValueForm::Number(1, MAX_LAG as u64)),
];

/// The keys of tables of the kind, in the order in which sentences name them.
// claim: keys of a kind
pub fn keys_of(kind: TableKind) -> &'static [Key]
    ensures { map key_said result.now ≡ keys_of kind }
{
    match kind {
        TableKind::Cell => &CELL,
        TableKind::Unit => &UNIT,
        TableKind::Module => &MODULE,
        TableKind::Shared => &SHARED,
        TableKind::Recipe => &RECIPE,
        TableKind::Input => &QUANTITY,
        TableKind::Parameter => &QUANTITY,
        TableKind::Output => &OUTPUT,
        TableKind::Role => &ROLE,
        TableKind::Procedure => &PROCEDURE,
        TableKind::UnitProcedure => &UNIT_PROCEDURE,
        TableKind::Operation => &OPERATION,
        TableKind::Phase => &PHASE,
        TableKind::Desk => &DESK,
    }
}

/// Whether the key may stand in the table, of this kind: `phases` of a module only beside `unit`, and `unit` of a unit procedure only
/// where it has no `role`.
// claim: keys of a table
pub fn may_stand(kind: TableKind, word: &str, table: &Table) -> bool
    ensures { result ≡ may_stand kind word.now (table_view table.now) }
{
    match kind {
        TableKind::Module => word != "phases" || member(table, "unit").is_some(),
        TableKind::UnitProcedure => word != "unit" || member(table, "role").is_none(),
        _ => true,
    }
}

/// Whether the table, of this kind, has no keys but those that may stand in it.
// claim: keys of a table
pub fn has_known_keys(table: &Table, kind: TableKind) -> bool
    ensures { result ≡ has_known_keys kind (table_view table.now) }
{
    table
        .keys()
        .all(|word| is_known(kind, word.as_str(), table))
}

fn is_known(kind: TableKind, word: &str, table: &Table) -> bool
    ensures { result ≡ is_known kind (table_view table.now) word.now }
{
    keys_of(kind)
        .iter()
        .any(|key| key.0 == word && may_stand(kind, key.0, table))
}
