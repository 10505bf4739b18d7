//! Readers of documents, which are cells, recipes and desks, of the tables of any document, and of chart texts.
#![tactic(auto)]

mod act_tables;
mod cell_document;
mod cell_tables;
mod chart_entry;
mod chart_fault;
mod chart_laws;
mod chart_names;
mod chart_reading;
mod desk;
mod desk_entries;
mod desk_laws;
mod desk_limits;
mod desk_names;
mod desk_reading;
mod desk_set;
mod desk_table;
mod document;
mod entries;
mod equipment;
mod fault;
mod firsts;
mod forms;
mod frame;
mod keys;
mod laws;
mod lexeme;
mod limits;
mod names;
mod needs;
mod numbers;
mod offered;
mod recipe_checks;
mod recipe_document;
mod recipe_entries;
mod recipe_names;
mod reports;
mod reserves;
mod resources;
mod roles;
mod signs;
mod stack;
mod state;
mod steps;
mod tables;
mod tokens;
mod units;
mod value_tables;
mod want;
mod word;
mod words;

pub use cell_document::read_cell;
pub use chart_fault::ChartFault;
pub use chart_laws::{
    a_chart_has_its_pars, a_chart_is_well_formed, a_text_has_one_chart,
    a_text_is_refused_at_one_offset, chart_limit_is_fixed, readings_of_a_text_agree,
};
pub use chart_reading::{MAX_CHART_LEN, ReadChart, read_chart, read_chart_and_par};
pub use desk::{Desk, USUAL_LAG};
pub use desk_laws::worked_desks;
pub use desk_limits::desk_limits_are_fixed;
pub use desk_reading::read_desks;
pub use desk_set::{Desks, MAX_DESKS};
pub use document::{MAX_DOCUMENT_LEN, document_fault, table_of};
pub use entries::{
    has_only_key, member, name_at, number_at, optional_name_at, optional_text_at, truth_at,
};
pub use fault::{DocFault, EntryFault, Spot, TableFault, TableKind};
pub use keys::{Key, MAX_LAG, MAX_PATH_LEN, ValueForm, has_known_keys, keys_of, may_stand};
pub use laws::worked_faults;
pub use limits::document_limits_are_fixed;
pub use recipe_document::read_recipe;
pub use tables::{FromTable, check_count, tables_at};
pub use units::check_units;
pub use word::is_chart_word;
