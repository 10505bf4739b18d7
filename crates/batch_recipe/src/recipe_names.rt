//! The names of a recipe's values and acts.
use batch_text::Name;
use indexmap::IndexSet;

/// The names to which the charts of a recipe and its phase steps may refer.
pub struct RecipeNames {
    /// The inputs, parameters and outputs, in this order.
    pub values: IndexSet<Name>,
    /// The acts.
    pub acts: TableNames,
}

impl Drop for RecipeNames {
    fn drop(self) {
        let RecipeNames { values: _, acts: _ } = self;
    }
}

/// The names of a recipe's acts, table by table.
pub struct TableNames {
    /// The unit procedures, in the order in which they are declared.
    pub unit_procedures: IndexSet<Name>,
    /// The operations, in the order in which they are declared.
    pub operations: IndexSet<Name>,
    /// The phase steps, in the order in which they are declared.
    pub phases: IndexSet<Name>,
}

impl Drop for TableNames {
    fn drop(self) {
        let TableNames {
            unit_procedures: _,
            operations: _,
            phases: _,
        } = self;
    }
}
