//! The parts of which a recipe is made.
ghost use Rattle.std.specs.Prelude.{◌≡◌, ◌≤◌, ◌<◌, length, true, IfOk, IsErrOf};
ghost use Rattle.batch_recipe.specs.TableNames.{AreNamesOf};
ghost use Rattle.batch_recipe.specs.Parts.{IsMadeOf};
ghost use Rattle.batch_recipe.specs.Procedure.{procedure_nodes};
ghost use Rattle.batch_recipe.specs.WellFormed.{are_kinds, are_reports, are_reserves, are_roles, has_free_names, is_well_formed, value_names};
ghost use Rattle.batch_recipe.specs.declared.scaling.TheConstants.{MAX_SIZE};
ghost use Rattle.batch_recipe.specs.declared.role.TheConstants.{MAX_ROLES};
ghost use Rattle.batch_recipe.specs.declared.recipe.TheConstants.{MAX_ENTRIES, MAX_ACTS, MAX_NODES};

use crate::acts::Acts;
use crate::header::Header;
use crate::outline::Outline;
use crate::outline_fault::OutlineFault;
use crate::quantity::Quantity;
use crate::recipe::Recipe;
use crate::recipe_names::RecipeNames;
use crate::role::Role;
use batch_text::Name;
use std::alloc::Global;

/// The parts of which a recipe is made, each as the field of that name in `Recipe`, and the names of its values and acts.
#[derive(Drop)]
pub struct RecipeParts {
    pub header: Header,
    pub basis: u64,
    pub inputs: Vec<Quantity>,
    pub parameters: Vec<Quantity>,
    pub outputs: Vec<Name>,
    pub roles: Vec<Role>,
    pub acts: Acts,
    pub names: RecipeNames,
}

impl Recipe {
    /// The recipe of these parts, which are well formed. `TooMany` if it would have more than `MAX_NODES` nodes, and `Memory` if
    /// memory is refused on the way.
    // claim: recipe made
    pub fn new(alloc: Global, parts: RecipeParts) -> Result<Recipe, OutlineFault>
        requires some_basis { 0 < parts.basis }
        requires basis_limit { parts.basis ≤ MAX_SIZE }
        requires few_inputs { length parts.inputs.items ≤ MAX_ENTRIES }
        requires few_parameters { length parts.parameters.items ≤ MAX_ENTRIES }
        requires few_outputs { length parts.outputs.items ≤ MAX_ENTRIES }
        requires some_unit_procedures { 0 < length parts.acts.unit_procedures.items }
        requires few_unit_procedures { length parts.acts.unit_procedures.items ≤ MAX_ACTS }
        requires some_operations { 0 < length parts.acts.operations.items }
        requires few_operations { length parts.acts.operations.items ≤ MAX_ACTS }
        requires some_phases { 0 < length parts.acts.phases.items }
        requires few_phases { length parts.acts.phases.items ≤ MAX_ACTS }
        requires few_roles { length parts.roles.items ≤ MAX_ROLES }
        requires own_roles { are_roles parts.roles.items parts.acts ≡ true }
        requires own_reports { are_reports parts.outputs.items parts.acts ≡ true }
        requires own_reserves { are_reserves parts.acts ≡ true }
        requires kinds { are_kinds parts.acts ≡ true }
        requires well_formed { is_well_formed (value_names parts.inputs.items parts.parameters.items parts.outputs.items) parts.acts ≡ true }
        requires free_names { has_free_names (value_names parts.inputs.items parts.parameters.items parts.outputs.items) parts.acts ≡ true }
        requires names { AreNamesOf parts.names.acts parts.acts }
        ensures ok { IfOk result (λ recipe. IsMadeOf recipe parts) }
        ensures many { IsErrOf result OutlineFault.TooMany → MAX_NODES < length (procedure_nodes parts.acts) }
    {
        let outline = Outline::new(alloc, &parts.acts, &parts.names)?;
        Ok(Recipe {
            header: parts.header,
            basis: parts.basis,
            inputs: parts.inputs,
            parameters: parts.parameters,
            outputs: parts.outputs,
            roles: parts.roles,
            acts: parts.acts,
            outline,
        })
    }
}
