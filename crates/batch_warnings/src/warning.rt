//! Warnings on a recipe.
use batch_recipe::LabelTable;

/// A part of a recipe that is accepted though it can hardly be meant so, by its number in the order of declaration, from 0.
#[derive(Clone, Copy)]
pub enum RecipeWarning {
    /// No chart names this act of the table.
    UnnamedAct(LabelTable, usize),
    /// The value that this input or parameter has in a batch of the size of the basis lies outside its own range.
    ValueOutOfRange(QuantityTable, usize),
    /// A condition compares this output, and no phase step reports it: it counts as 0.
    UnreportedOutput(usize),
    /// No unit procedure has this role.
    UnusedRole(usize),
    /// A phase step is handed the value of this parameter, which grows with the batch's size.
    ScaledParameter(usize),
}

/// The inputs or the parameters of a recipe.
#[derive(Clone, Copy)]
pub enum QuantityTable {
    Inputs,
    Parameters,
}
