//! Creating batches.
ghost use Rattle.std.specs.Prelude.{◌≡◌, ◌<◌, ◌+◌, ◌↔◌, IsTrue, List, ℕ, None, length, position, MatchResult};
ghost use Rattle.batch_chart.specs.Charts.{IsRunningOf};
ghost use Rattle.batch_chart.specs.NodesOf.{needs_in};
ghost use Rattle.batch_model.specs.Events as Events;
ghost use Rattle.batch_model.specs.Events.{is_full};
ghost use Rattle.batch_model.specs.Moves.{next};
ghost use Rattle.batch_model.specs.Plant.{scaled};
ghost use Rattle.batch_model.specs.Recipes.{formula_of};
ghost use Rattle.batch_model.specs.declared.limits.TheConstants.{MAX_LIVE_BATCHES};
ghost use Rattle.batch_recipe.specs.Conditions.{ValueList, same_name};
ghost use Rattle.batch_recipe.specs.Tree.{Tree};
ghost use Rattle.batch_engine.specs.Answered.{IsAnswered, MayWant};
ghost use Rattle.batch_engine.specs.Creates.{IsChosen, IsCreate, IsRefusedFor};
ghost use Rattle.batch_engine.specs.Kept.{needs_of_all};
ghost use Rattle.batch_engine.specs.Values.{IsValuesFor, is_want, refusal_for};
ghost use Rattle.batch_engine.specs.View.{setup, plant_of, tree_at};

use crate::batch::Batch;
use crate::bindings::units_for;
use crate::control::Control;
use crate::refusal::Refusal;
use crate::reply::Reply;
use batch_chart::Running;
use batch_matrix::State;
use batch_model::{LAST_NUMBER, MAX_LIVE_BATCHES};
use batch_recipe::{FormulaFault, MAX_ROLES, Recipe, Values, formula};
use batch_text::Name;
use std::alloc::Global;

/// Why a batch has no values.
enum BadValues {
    Size,
    /// The number of the value among the inputs and then the parameters.
    OutOfRange(u16),
    Memory,
}

/// The values of a batch of the size.
fn values_for(alloc: Global, recipe: &Recipe, size: u64) -> Result<Values, BadValues>
    ensures { IsValuesFor recipe.now size result }
{
    match formula(alloc, recipe, size) {
        Ok(values) => Ok(values),
        Err(FormulaFault::Size) => Err(BadValues::Size),
        Err(
            FormulaFault::OutOfRange {
                number,
                name: _name,
            },
        ) => Err(BadValues::OutOfRange(number)),
        Err(FormulaFault::Memory) => Err(BadValues::Memory),
    }
}

/// Why a create is refused whose batch has no values.
fn refusal_for(recipe: u16, bad: BadValues) -> Refusal
    ensures { result ≡ refusal_for recipe bad }
{
    match bad {
        BadValues::Size => Refusal::BadSize,
        BadValues::OutOfRange(value) => Refusal::BadValue { recipe, value },
        BadValues::Memory => Refusal::Memory,
    }
}

/// Whether there are values, but no memory for them.
fn is_want(bad: BadValues) -> bool
    ensures { result ≡ is_want bad }
{
    match bad {
        BadValues::Size => false,
        BadValues::OutOfRange(_) => false,
        BadValues::Memory => true,
    }
}

/// Whether a batch of the size has values, be there memory for them or not.
fn has_values(alloc: Global, recipe: &Recipe, size: u64) -> bool
    ensures { IsTrue result ↔ (values : ValueList) × (formula_of recipe.now size ≡ scaled values) }
{
    match values_for(alloc, recipe, size) {
        Ok(_) => true,
        Err(bad) => is_want(bad),
    }
}

/// The recipe of a batch that is to be made, by its number, and the units that take its roles.
#[derive(Clone, Copy)]
struct Choice {
    recipe: u16,
    units: [u16; MAX_ROLES],
}

/// The index of the recipe with this name.
fn recipe_named(recipes: &[Recipe], name: &Name) -> Option<usize>
    ensures { result ≡ position (λ r. same_name r.acts.procedure.name name.now) recipes.now }
{
    recipes
        .iter()
        .position(|recipe| recipe.acts.procedure.name == *name)
}

impl Control {
    /// How many needs all batches and a further one with this chart can hold and ask for at once.
    fn needs_with(&self, running: &Running) -> usize
        requires free { length self.now.batches < MAX_LIVE_BATCHES }
        requires runs { (recipe : ℕ) × (units : List ℕ) × IsRunningOf (tree_at self.now.cleared recipe units) running.now }
        ensures { (t : Tree) → IsRunningOf t running.now → result ≡ needs_of_all self.now.cleared self.now.batches + needs_in t }
    {
        self.needs + running.needs()
    }

    /// Makes a batch, once all its room is made.
    fn add(&mut self, recipe: u16, size: u64, units: [u16; MAX_ROLES], values: Values) -> Reply
        requires { (name : List ℕ) × (pairs : List (List ℕ × List ℕ)) × IsCreate self.old recipe name size pairs units values }
        ensures { (name : List ℕ) (pairs : List (List ℕ × List ℕ)) → IsCreate self.old recipe name size pairs units values
            → IsAnswered self.old (Events.create name size pairs) result self.new }
    {
        let Ok(running) = Running::new(self.alloc, self.cleared.recipe(recipe)) else {
            return Reply::Refused(Refusal::Memory);
        };
        let needs = self.needs_with(&running);
        let Ok(()) = self.arbiter.reserve(needs) else {
            return Reply::Refused(Refusal::Memory);
        };
        let number = self.next_number;
        let batch = Batch {
            number,
            recipe,
            units,
            size,
            values,
            state: State::Idle,
            running,
        };
        let Ok(()) = self.batches.add(batch) else {
            return Reply::Refused(Refusal::Memory);
        };
        self.needs = needs;
        self.next_number = number + 1;
        Reply::Created {
            batch: number,
            recipe,
            size,
            units,
        }
    }

    /// Whether as many batches exist as may, or the last number was given.
    fn is_full(&self) -> bool
        ensures { result ≡ is_full (setup self.now.cleared) (plant_of self.now) }
    {
        self.batches.len() as u64 >= MAX_LIVE_BATCHES || self.next_number > LAST_NUMBER
    }

    /// The recipe with this name, and the units that the pairs give to its roles, if one batch more may exist; else the refusal.
    fn choice(&self, name: &Name, pairs: &[(Name, Name)]) -> Result<Choice, Refusal>
        requires { next (setup self.now.cleared) (plant_of self.now) ≡ None }
        ensures { MatchResult result (λ choice. IsChosen self.now choice.recipe name.now pairs.now choice.units)
            (λ refusal. (size : ℕ) → IsRefusedFor self.now (Events.create name.now size pairs.now) refusal) }
    {
        let Some(recipe) = recipe_named(self.cleared.recipes(), name) else {
            return Err(Refusal::UnknownRecipe);
        };
        if self.is_full() {
            return Err(Refusal::Full);
        }
        let document = &self.cleared.recipes()[recipe];
        let Some(units) = units_for(self.cleared.cell(), &document.roles, pairs) else {
            return Err(Refusal::BadBinding);
        };
        Ok(Choice {
            recipe: recipe as u16,
            units,
        })
    }

    /// Makes a batch of a recipe, or refuses it.
    #[inline(never)]
    pub(crate) fn create(&mut self, name: &Name, size: u64, pairs: &[(Name, Name)]) -> Reply
        requires { next (setup self.old.cleared) (plant_of self.old) ≡ None }
        ensures { IsAnswered self.old (Events.create name.now size pairs.now) result self.new }
    {
        let Choice { recipe, units } = match self.choice(name, pairs) {
            Ok(choice) => choice,
            Err(refusal) => return Reply::Refused(refusal),
        };
        match values_for(self.alloc, self.cleared.recipe(recipe), size) {
            Ok(values) => self.add(recipe, size, units, values),
            Err(bad) => Reply::Refused(refusal_for(recipe, bad)),
        }
    }

    /// Whether the create makes a batch if there is memory.
    pub(crate) fn would_create(&self, name: &Name, size: u64, pairs: &[(Name, Name)]) -> bool
        requires { next (setup self.now.cleared) (plant_of self.now) ≡ None }
        ensures { IsTrue result ↔ MayWant self.now (Events.create name.now size pairs.now) }
    {
        match self.choice(name, pairs) {
            Ok(choice) => has_values(self.alloc, self.cleared.recipe(choice.recipe), size),
            Err(_) => false,
        }
    }
}
