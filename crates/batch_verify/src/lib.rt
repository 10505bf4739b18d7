//! The small checker: certificates, and the clearance of recipes for a cell by a certificate.
#![tactic(auto)]

mod asking;
mod bindings;
mod certificate;
mod charts;
mod cleared;
mod comparing;
mod depth;
mod judgement;
mod laws;
mod lines;
mod passed;
mod phase_set;
mod ranking;
mod reading;
mod recipes;
mod refusal;
mod rejected;
mod reserve_faults;
mod rising;
mod rule;
mod running_nodes;
mod site;
mod span;
mod tree_phases;
mod trees;
mod trial;
mod walk;

pub use bindings::binding_count;
pub use certificate::{CertFault, Certificate, MAX_CERTIFICATE_LEN, MAX_LINES, MAX_RANK};
pub use cleared::Cleared;
pub use judgement::verify;
pub use laws::{a_text_says_one_ranking, certificate_limits_are_fixed, numbered_bindings_suffice};
pub use reading::read_certificate;
pub use recipes::is_recipe_set;
pub use refusal::SetRefusal;
pub use rejected::Rejected;
pub use rule::{Broken, Rule};
pub use trial::takers_numbered;
pub use walk::first_broken;
