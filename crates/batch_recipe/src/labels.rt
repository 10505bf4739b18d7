//! The acts that labels name.
ghost use Rattle.std.specs.Prelude.{◌≡◌, position};
ghost use Rattle.batch_recipe.specs.Conditions.{same_name};
ghost use Rattle.batch_recipe.specs.TableNames.{AreNamesOf};
ghost use Rattle.batch_recipe.specs.Growing.{number_in};
ghost use Rattle.batch_recipe.specs.Procedure.{table_at};

use crate::acts::{Acts, LabelTable};
use crate::recipe_names::RecipeNames;
use batch_text::Name;
use indexmap::IndexSet;

/// The acts of a recipe, and the names in which labels and the values of conditions are looked up.
#[derive(Clone, Copy)]
pub struct Labels<'a> {
    pub acts: &'a Acts,
    pub names: &'a RecipeNames,
    ghost named: { AreNamesOf names.now.acts acts.now },
}

/// The position of the name in the set, looked for at the guess first.
fn index_from(names: &IndexSet<Name>, guess: usize, name: &Name) -> Option<usize>
    ensures { result ≡ position (same_name name.now) names.now.keys }
{
    match names.as_slice().get(guess) {
        Some(guessed) if *name == *guessed => Some(guess),
        _ => names.get_index_of(name),
    }
}

impl Labels<'_> {
    /// The number of the act that a label names in the table, looked for at the guess first.
    // claim: labels
    pub fn number_of(&self, table: LabelTable, name: &Name, guess: usize) -> Option<usize>
        ensures { result ≡ number_in (table_at self.now.acts.now table) name.now }
    {
        let names = match table {
            LabelTable::UnitProcedures => &self.names.acts.unit_procedures,
            LabelTable::Operations => &self.names.acts.operations,
            LabelTable::Phases => &self.names.acts.phases,
        };
        index_from(names, guess, name)
    }
}
