//! How many batches and recipes there may be.
ghost use Rattle.std.specs.Prelude.{◌≡◌, List};
ghost use Rattle.batch_cell.specs.declared.cell.Cell.{Cell};
ghost use Rattle.batch_recipe.specs.declared.recipe.Recipe.{Recipe};
ghost use Rattle.batch_model.specs.Setups.{setup_of};
ghost use Rattle.batch_model.specs.declared.limits.TheConstants.{LAST_NUMBER, MAX_LIVE_BATCHES, MAX_RECIPES};

/// The most batches that may exist at once.
pub const MAX_LIVE_BATCHES: u64 = 4_096;

/// The last number that a batch is given.
pub const LAST_NUMBER: u64 = 1_000_000_000_000;

/// The most recipes of a set.
pub const MAX_RECIPES: usize = 256;

/// The limits are these numbers, and that of live batches is the limit of every cell and all recipes.
// claim: limits of batches (live_batches, setups)
pub fn limits_are_fixed()
    ensures live_batches { MAX_LIVE_BATCHES ≡ 4096 }
    ensures setups { (cell : Cell) (recipes : List Recipe) → (setup_of cell recipes).batch_limit ≡ 4096 }
    // claim: last number
    ensures last_number { LAST_NUMBER ≡ 1000000000000 }
    // claim: limits of a set
    ensures recipes { MAX_RECIPES ≡ 256 }
{}
