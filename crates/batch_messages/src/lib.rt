//! The meaning of refusals, of their codes and of warnings, in words for a person.
#![tactic(auto)]

mod certificates;
mod circles;
mod documents;
mod explanation;
mod header;
mod names;
mod near;
mod nodes;
mod ranks;
mod roles;
mod sentence;
mod set;
mod sets;
mod showing;
mod sources;
mod subject;
mod table;
mod warnings;
mod ways;

pub use certificates::certificate_sentence;
pub use documents::{Asked, document_sentence};
pub use explanation::{Explanation, explain};
pub use names::act_name;
pub use sentence::Sentence;
pub use sets::{fault_sentence, refusal_sentence};
pub use showing::shown;
pub use sources::RecipeSource;
pub use table::explanations;
pub use warnings::{recipe_warning, unit_warning};
