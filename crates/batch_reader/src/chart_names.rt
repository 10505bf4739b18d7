//! The names that charts use.
ghost use Rattle.std.specs.Prelude.{◌≡◌, ◌&&◌};
ghost use Rattle.std.specs.List.{list_all};
ghost use Rattle.batch_reader.specs.ChartForm.{names_compared};
ghost use Rattle.batch_recipe.specs.Diagram.{diagram_of};
ghost use Rattle.batch_recipe.specs.WellFormed.{is_among};
ghost use Rattle.batch_reader.specs.Naming.{is_declared};

use batch_recipe::{Chart, Condition, Term};
use batch_text::Name;
use indexmap::IndexSet;

/// Whether the labels of a chart are among these, and the names that its conditions compare among the values.
#[cycle(declared)]
pub(crate) fn is_declared(chart: &Chart, labels: &IndexSet<Name>, values: &IndexSet<Name>) -> bool
    ensures { result ≡ is_declared labels.now.keys values.now.keys (diagram_of chart.now) }
{
    match chart {
        Chart::Label(name) => labels.contains(name),
        Chart::Skip => true,
        Chart::Seq(parts) => are_declared(parts, labels, values),
        Chart::Par(branches) => are_declared(branches, labels, values),
        Chart::Sel(choices, last) => {
            are_cases_declared(choices, labels, values) && is_declared(last, labels, values)
        }
        Chart::Loop(_, turn) => {
            compares_values(&turn.0, values, &mut 0) && is_declared(&turn.1, labels, values)
        }
    }
}

/// The same of a chart beside others. A label is looked for at `next` first, past the label before it.
#[cycle(declared)]
fn is_declared_beside(
    chart: &Chart,
    labels: &IndexSet<Name>,
    values: &IndexSet<Name>,
    next: &mut usize,
) -> bool
    ensures { result ≡ is_declared labels.now.keys values.now.keys (diagram_of chart.now) }
{
    match chart {
        Chart::Label(name) => {
            let is_among = is_among(labels, name, next);
            *next = next.wrapping_add(1);
            is_among
        }
        _ => is_declared(chart, labels, values),
    }
}

/// Whether the name is among these, looked for at the place first. The place becomes the name's.
#[tactic(auto, using(crate::proofs::ChartNames::is_among_at))]
fn is_among(names: &IndexSet<Name>, name: &Name, place: &mut usize) -> bool
    ensures { result ≡ is_among names.now.keys name.now }
{
    match names.as_slice().get(*place) {
        Some(there) if *name == *there => true,
        _ => match names.get_index_of(name) {
            Some(index) => {
                *place = index;
                true
            }
            None => false,
        },
    }
}

#[cycle(declared)]
fn are_declared(charts: &[Chart], labels: &IndexSet<Name>, values: &IndexSet<Name>) -> bool
    ensures { result ≡ list_all (λ chart. is_declared labels.now.keys values.now.keys (diagram_of chart)) charts.now }
{
    let mut next = 0;
    for chart in charts {
        if !is_declared_beside(chart, labels, values, &mut next) {
            return false;
        }
    }
    true
}

#[cycle(declared)]
fn are_cases_declared(
    choices: &[(Condition, Chart)],
    labels: &IndexSet<Name>,
    values: &IndexSet<Name>,
) -> bool
    ensures { result ≡ list_all (λ choice. list_all (is_among values.now.keys) (names_compared choice.0)
        && is_declared labels.now.keys values.now.keys (diagram_of choice.1)) choices.now }
{
    let mut place = 0;
    let mut next = 0;
    for choice in choices {
        if !compares_values(&choice.0, values, &mut place) {
            return false;
        }
        if !is_declared_beside(&choice.1, labels, values, &mut next) {
            return false;
        }
    }
    true
}

/// Whether the names that a condition compares are among the values, looked for at the place first.
fn compares_values(condition: &Condition, values: &IndexSet<Name>, place: &mut usize) -> bool
    ensures { result ≡ list_all (is_among values.now.keys) (names_compared condition.now) }
{
    is_among(values, &condition.name, place)
        && match &condition.term {
            Term::Named(name) => values.contains(name),
            Term::Number(_) => true,
        }
}
