//! The labels that charts have, in a set.
ghost use Rattle.std.specs.Prelude.{◌≡◌, IfOk, OnOk};
ghost use Rattle.std.specs.List.{list_any};
ghost use Rattle.batch_recipe.specs.Diagram.{diagram_of};
ghost use Rattle.batch_warnings.specs.LabelSets.{AddsNames, AreLabelsFor};
ghost use Rattle.batch_warnings.specs.Warnings.{act_has_label, acts_above, has_label};

use batch_recipe::{Act, Acts, Chart, Condition, LabelTable, Work};
use batch_text::Name;
use indexmap::IndexSet;
use std::alloc::{AllocError, Global};
use std::slice;

/// The labels of the charts that name acts of the table.
pub(crate) fn labels_for<'a>(
    alloc: Global,
    acts: &'a Acts,
    table: LabelTable,
) -> Result<IndexSet<&'a Name>, AllocError>
    ensures { IfOk result (λ labels. AreLabelsFor acts.now table labels.keys) }
{
    let mut labels = IndexSet::new(alloc);
    let above = acts_above(acts, table);
    for act in above {
        add_of_act(&mut labels, act)?;
    }
    Ok(labels)
}

/// The acts whose labels name those of the table.
fn acts_above(acts: &Acts, table: LabelTable) -> &[Act]
    ensures { result.now ≡ acts_above acts.now table }
{
    match table {
        LabelTable::UnitProcedures => slice::from_ref(&acts.procedure),
        LabelTable::Operations => &acts.unit_procedures,
        LabelTable::Phases => &acts.operations,
    }
}

/// Adds the labels of the chart that the act follows.
fn add_of_act<'a>(labels: &mut IndexSet<&'a Name>, act: &'a Act) -> Result<(), AllocError>
    ensures { OnOk result (AddsNames (λ name. act_has_label name act.now) labels.old.keys labels.new.keys) }
{
    match &act.work {
        Work::Follows(chart) => add_of_chart(labels, chart),
        Work::Runs { .. } => Ok(()),
    }
}

#[cycle(labels)]
fn add_of_chart<'a>(labels: &mut IndexSet<&'a Name>, chart: &'a Chart) -> Result<(), AllocError>
    ensures { OnOk result (AddsNames (λ name. has_label name (diagram_of chart.now)) labels.old.keys labels.new.keys) }
{
    match chart {
        Chart::Label(label) => {
            labels.insert(label)?;
            Ok(())
        }
        Chart::Skip => Ok(()),
        Chart::Seq(parts) => add_of_each(labels, parts),
        Chart::Par(branches) => add_of_each(labels, branches),
        Chart::Sel(choices, last) => {
            add_of_choices(labels, choices)?;
            add_of_chart(labels, last)
        }
        Chart::Loop(_, turn) => add_of_chart(labels, &turn.1),
    }
}

#[cycle(labels)]
fn add_of_each<'a>(labels: &mut IndexSet<&'a Name>, charts: &'a [Chart]) -> Result<(), AllocError>
    ensures { OnOk result (AddsNames (λ name. list_any (λ chart. has_label name (diagram_of chart)) charts.now) labels.old.keys labels.new.keys) }
{
    for chart in charts {
        add_of_chart(labels, chart)?;
    }
    Ok(())
}

#[cycle(labels)]
fn add_of_choices<'a>(
    labels: &mut IndexSet<&'a Name>,
    choices: &'a [(Condition, Chart)],
) -> Result<(), AllocError>
    ensures { OnOk result (AddsNames (λ name. list_any (λ choice. has_label name (diagram_of choice.1)) choices.now) labels.old.keys labels.new.keys) }
{
    for choice in choices {
        add_of_chart(labels, &choice.1)?;
    }
    Ok(())
}
