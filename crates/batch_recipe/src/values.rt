//! The values of a batch by name, and the outputs that reports name.
ghost use Rattle.std.specs.Prelude.{◌≡◌, ℕ, Some, false, not, position, slice_get, IfSome, IsNone};
ghost use Rattle.std.specs.List.{list_any};
ghost use Rattle.batch_recipe.specs.Conditions.{same_name, value_of};
ghost use Rattle.batch_recipe.specs.Values.{are_outputs, have_output, with_outputs_zero, with_value, with_values};

use crate::scaling::MAX_VALUE;
use batch_text::Name;
use std::marker::Model;

/// The values of a batch, by name: inputs, parameters and outputs.
#[derive(Drop)]
pub struct Values {
    /// Names and values in the order inputs, parameters, outputs. No name stands twice.
    pub(crate) entries: Vec<(Name, u64)>,
}

impl Model for Values {
    ghost use Rattle.std.specs.Prelude.{List, ℕ};
    ghost use Rattle.batch_recipe.specs.DistinctValues.{HaveDistinctValueNames};

    ghost Value = { List (List ℕ × ℕ) };

    ghost view = { λ values. values.entries.items };

    ghost invariant = { λ values. HaveDistinctValueNames values.entries.items };
}

impl Values {
    /// The value with this name. None if there is none.
    // claim: values by name
    pub fn value_of(&self, name: &Name) -> Option<u64>
        ensures { result ≡ value_of self.now name.now }
    {
        self.entries
            .iter()
            .find(|entry| entry.0 == *name)
            .map(|entry| entry.1)
    }

    /// The value with this name, looked for at the position first.
    // claim: values by name
    pub fn value_from(&self, position: usize, name: &Name) -> Option<u64>
        ensures { result ≡ value_of self.now name.now }
    {
        match self.entries.get(position) {
            Some(entry) if entry.0 == *name => Some(entry.1),
            _ => self.value_of(name),
        }
    }

    /// Sets the value with this name. If none has the name, nothing changes.
    fn set(&mut self, name: &Name, value: u64)
        ensures { self.new ≡ with_value name.now value self.old }
    {
        if let Some(position) = position_from_end(&self.entries, name) {
            self.entries[position].1 = value;
        }
    }

    /// Sets each of these outputs, as a report names them.
    // claim: outputs set
    #[inline(always)]
    pub fn set_outputs(&mut self, outputs: &[(Name, u64)])
        ensures { self.new ≡ with_values outputs.now self.old }
    {
        for output in outputs {
            self.set(&output.0, output.1);
        }
    }

    /// Sets the outputs with these names to 0, as before the batch ran.
    // claim: outputs cleared
    pub fn clear_outputs(&mut self, names: &[Name])
        ensures { self.new ≡ with_outputs_zero names.now self.old }
    {
        for name in names {
            self.set(name, 0);
        }
    }
}

/// The position of the name. The search begins at the end, where the outputs stand.
fn position_from_end(entries: &[(Name, u64)], name: &Name) -> Option<usize>
    ensures some { IfSome result (λ position. (value : ℕ) × (slice_get entries.now position ≡ Some (name.now, value))) }
    ensures none { IsNone result → have_output entries.now name.now ≡ false }
{
    for position in (0..entries.len()).rev() {
        if entries[position].0 == *name {
            return Some(position);
        }
    }
    None
}

/// Whether a report may set these outputs of a recipe: each is one of the names, none is named twice, and no value is above
/// `MAX_VALUE`.
// claim: outputs allowed
#[inline(always)]
pub fn are_outputs(names: &[Name], outputs: &[(Name, u64)]) -> bool
    ensures { result ≡ are_outputs names.now outputs.now }
{
    for (index, output) in outputs.iter().enumerate() {
        let is_output = is_among(&output.0, names);
        let is_named_again = is_named(&output.0, &outputs[index + 1..]);
        if !is_output || is_named_again || output.1 > MAX_VALUE {
            return false;
        }
    }
    true
}

/// The index of the first of these names for which the outputs have no value. None if they have one for each.
// claim: outputs left out
pub fn first_left_out(names: &[Name], outputs: &[(Name, u64)]) -> Option<usize>
    ensures { result ≡ position (λ name. not (have_output outputs.now name)) names.now }
{
    names.iter().position(|name| !is_named(name, outputs))
}

fn is_among(name: &Name, names: &[Name]) -> bool
    ensures { result ≡ list_any (same_name name.now) names.now }
{
    names.iter().any(|known| *name == *known)
}

fn is_named(name: &Name, outputs: &[(Name, u64)]) -> bool
    ensures { result ≡ have_output outputs.now name.now }
{
    outputs.iter().any(|output| output.0 == *name)
}
