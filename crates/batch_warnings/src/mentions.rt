//! The values that conditions of charts compare.
ghost use Rattle.std.specs.Prelude.{◌≡◌, ◌||◌};
ghost use Rattle.std.specs.List.{list_any};
ghost use Rattle.batch_recipe.specs.Diagram.{diagram_of};
ghost use Rattle.batch_warnings.specs.Warnings.{act_compares, diagram_compares, condition_names};

use batch_recipe::{Act, Chart, Condition, Term, Work};
use batch_text::Name;

/// Whether the act follows a chart with a condition that compares the value of this name.
pub(crate) fn act_compares(act: &Act, name: &Name) -> bool
    ensures { result ≡ act_compares name.now act.now }
{
    match &act.work {
        Work::Follows(chart) => compares(chart, name),
        Work::Runs { .. } => false,
    }
}

#[cycle(values)]
fn compares(chart: &Chart, name: &Name) -> bool
    ensures { result ≡ diagram_compares name.now (diagram_of chart.now) }
{
    match chart {
        Chart::Label(_) => false,
        Chart::Skip => false,
        Chart::Seq(parts) => any_compares(parts, name),
        Chart::Par(branches) => any_compares(branches, name),
        Chart::Sel(choices, last) => any_choice_compares(choices, name) || compares(last, name),
        Chart::Loop(_, turn) => is_compared(&turn.0, name) || compares(&turn.1, name),
    }
}

#[cycle(values)]
fn any_compares(charts: &[Chart], name: &Name) -> bool
    ensures { result ≡ list_any (λ chart. diagram_compares name.now (diagram_of chart)) charts.now }
{
    for chart in charts {
        if compares(chart, name) {
            return true;
        }
    }
    false
}

#[cycle(values)]
fn any_choice_compares(choices: &[(Condition, Chart)], name: &Name) -> bool
    ensures { result ≡ list_any (λ choice. condition_names name.now choice.0 || diagram_compares name.now (diagram_of choice.1)) choices.now }
{
    for choice in choices {
        if is_compared(&choice.0, name) || compares(&choice.1, name) {
            return true;
        }
    }
    false
}

/// Whether the condition compares the value of this name.
fn is_compared(condition: &Condition, name: &Name) -> bool
    ensures { result ≡ condition_names name.now condition.now }
{
    *name == condition.name
        || match &condition.term {
            Term::Named(other) => *name == *other,
            Term::Number(_) => false,
        }
}
