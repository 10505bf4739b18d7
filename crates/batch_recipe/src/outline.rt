//! The outline of a recipe's acts.
ghost use Rattle.std.specs.Prelude.{◌≡◌, ◌<◌, ◌≤◌, ◌↔◌, length, IfOk, IsErrOf};
ghost use Rattle.batch_recipe.specs.TableNames.{AreNamesOf};
ghost use Rattle.batch_recipe.specs.Growing.{conditions_of, entries_of};
ghost use Rattle.batch_recipe.specs.Procedure.{procedure_nodes};
ghost use Rattle.batch_recipe.specs.declared.outline_fault.OutlineFault.TheVariants.{TooMany};
ghost use Rattle.batch_recipe.specs.declared.recipe.TheConstants.{MAX_NODES};

use crate::acts::{Acts, LabelTable};
use crate::entry::{Entry, Kind};
use crate::growing::{Seat, grow_act};
use crate::labels::Labels;
use crate::node_condition::NodeCondition;
use crate::outline_fault::OutlineFault;
use crate::recipe_names::RecipeNames;
use std::alloc::Global;

/// The nodes of a recipe's expanded tree, by number.
#[derive(Drop)]
pub struct Outline {
    /// Node `k` is entry `k`.
    pub entries: Vec<Entry>,
    /// The conditions of the nodes that have some, in the order of these nodes.
    pub conditions: Vec<NodeCondition>,
    ghost few: { length entries.items ≤ MAX_NODES },
}

impl Outline {
    /// The outline of the acts with these names. `TooMany` if they expand to more than `MAX_NODES` nodes, and `Memory` if memory is
    /// refused on the way.
    pub fn new(alloc: Global, acts: &Acts, names: &RecipeNames) -> Result<Outline, OutlineFault>
        requires { AreNamesOf names.now.acts acts.now }
        ensures ok { IfOk result (λ outline. outline.entries.items ≡ entries_of acts.now) }
        ensures conditions { IfOk result (λ outline. outline.conditions.items ≡ conditions_of acts.now) }
        // claim: recipe made
        ensures many { IsErrOf result OutlineFault.TooMany → MAX_NODES < length (procedure_nodes acts.now) }
    {
        let labels = Labels { acts, names };
        let mut entries = Vec::new(alloc);
        let mut conditions = Vec::new(alloc);
        let seat = Seat {
            level: Some(LabelTable::UnitProcedures),
            unit: 0,
            parent: 0,
            child: 0,
        };
        let root = &acts.procedure;
        grow_act(
            alloc,
            &mut entries,
            &mut conditions,
            &labels,
            root,
            Kind::Procedure,
            seat,
        )?;
        Ok(Outline {
            entries,
            conditions,
        })
    }
}
