//! How many needs a batch can hold and ask for at once.
ghost use Rattle.std.specs.Prelude.{◌≡◌, ◌≤◌, ◌<◌, ◌+◌, ◌^◌, length};
ghost use Rattle.batch_recipe.specs.Tree.{Tree, Trees};
ghost use Rattle.batch_recipe.specs.declared.recipe.Recipe.{Recipe as RecipeOf};
ghost use Rattle.batch_recipe.specs.declared.recipe.TheConstants.{MAX_NODES};
ghost use Rattle.batch_chart.specs.Charts.{IsChartOf};
ghost use Rattle.batch_chart.specs.Most.{AreFew, AreFewMore, Counted, count_of, is_par, joined, most_of, own_by, own_of};
ghost use Rattle.batch_chart.specs.NodesOf.{most_by};
ghost use Rattle.batch_chart.specs.Outlined.{AreStanding};

use crate::node::{Kind, kind_of};
use batch_recipe::{Entry, Recipe};

/// How much acts that are reached at once have together.
#[derive(Clone, Copy)]
pub(crate) struct Counts {
    pub(crate) needs: usize,
    /// The units that are held in advance for acts with a chart.
    pub(crate) units: usize,
}

/// The counts of no act.
const NONE: Counts = Counts { needs: 0, units: 0 };

/// How much an act of this kind has itself: nothing if the kind is no act.
fn counts_of(kind: Kind) -> Counts
    ensures own { (counted : Counted) → count_of counted result ≡ own_of counted kind }
    ensures few { AreFew 1 result }
{
    match kind {
        Kind::Phase { needs, .. } => Counts {
            needs: usize::from(needs),
            units: 0,
        },
        Kind::Act { needs } => Counts {
            needs: usize::from(needs),
            units: 1,
        },
        Kind::Skip | Kind::Seq | Kind::Par | Kind::Sel { .. } | Kind::Loop { .. } => NONE,
    }
}

/// Whether the branches of a node of this kind run at once.
fn is_par(kind: Kind) -> bool
    ensures { result ≡ is_par kind }
{
    match kind {
        Kind::Par => true,
        Kind::Skip
        | Kind::Phase { .. }
        | Kind::Act { .. }
        | Kind::Seq
        | Kind::Sel { .. }
        | Kind::Loop { .. } => false,
    }
}

/// The sums of the counts of two charts if they run together, else the greater ones.
fn join(together: bool, first: Counts, second: Counts) -> Counts
    requires { (first.needs + second.needs < 2 ^ 32) × (first.units + second.units < 2 ^ 32) }
    ensures { (counted : Counted) → count_of counted result ≡ joined together (count_of counted first) (count_of counted second) }
{
    if together {
        Counts {
            needs: first.needs + second.needs,
            units: first.units + second.units,
        }
    } else {
        Counts {
            needs: first.needs.max(second.needs),
            units: first.units.max(second.units),
        }
    }
}

/// The counts of the charts from node n up to `end`, joined with those of the charts before them: the sums, or the greatest ones.
fn most_among(nodes: &[Entry], n: usize, end: usize, together: bool, before: Counts) -> Counts
    requires standing { (doc : RecipeOf) × (ts : Trees) × AreStanding nodes.now doc n end ts }
    requires few { AreFew n before }
    requires small { length nodes.now ≤ MAX_NODES }
    ensures most { (counted : Counted) (doc : RecipeOf) (ts : Trees) → AreStanding nodes.now doc n end ts
        → count_of counted result ≡ joined together (count_of counted before) (most_of together counted ts) }
    ensures few { AreFewMore n end before result }
{
    if n == end {
        return before;
    }
    let node = nodes[n];
    let kind = kind_of(&node);
    let next = node.end as usize;
    let below = most_among(nodes, n + 1, next, is_par(kind), NONE);
    let own = join(true, counts_of(kind), below);
    let most = join(together, before, own);
    most_among(nodes, next, end, together, most)
}

/// The needs of the acts that are reached at once, and the units that are held in advance for them, each at most.
pub(crate) fn most(chart: &Recipe) -> Counts
    ensures most { (counted : Counted) (t : Tree) → IsChartOf t chart.now → count_of counted result ≡ most_by (own_by counted) t }
    ensures few { AreFew MAX_NODES result }
{
    let count = chart.outline.entries.len();
    most_among(&chart.outline.entries, 0, count, false, NONE)
}
