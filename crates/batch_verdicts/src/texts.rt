//! The texts of verdicts.
mod certificates;
mod documents;
mod graphs;
mod nodes;
mod places;
mod refusals;

pub use certificates::{certificate_refused, certificate_text};
pub use documents::document_text;
pub use graphs::graph_text;
pub use refusals::{fault_text, refusal_text};
