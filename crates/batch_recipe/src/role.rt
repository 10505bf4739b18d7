//! Roles.
use batch_text::Name;

/// The most roles of a recipe.
pub const MAX_ROLES: usize = 4;

/// A role, which a unit of the class takes when a batch is created.
#[derive(Drop)]
pub struct Role {
    pub name: Name,
    pub class: Name,
}
