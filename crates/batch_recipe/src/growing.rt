//! Growing an outline.
ghost use Rattle.std.specs.Prelude.{◌≡◌, ◌≤◌, ◌<◌, [], ◌++◌, ◌∷◌, map, length, slice_get, slice_set, slice_index_or, IfOk, ◌+◌};
ghost use Rattle.batch_recipe.specs.Diagram.{diagram_of, diagrams_of, label, loop, sel};
ghost use Rattle.batch_recipe.specs.Growing.{HasAdded, HasBegun, HasEnded, HasGrown, act_conditions, act_entries, bare_entries, branch_conditions, branch_entries, chart_conditions, chart_entries, choice_cases, choice_conditions, choice_entries, needs_count, parts_entries, unit_number};
ghost use Rattle.batch_recipe.specs.declared.recipe.TheConstants.{MAX_NODES};

use crate::act::{Act, Work};
use crate::acts::LabelTable;
use crate::chart::Chart;
use crate::condition::Condition;
use crate::copying::{push_condition, push_conditions};
use crate::entry::{Entry, Kind};
use crate::labels::Labels;
use crate::node_condition::NodeCondition;
use crate::outline_fault::OutlineFault;
use crate::recipe::MAX_NODES;
use batch_text::Name;
use std::alloc::Global;

/// The seat of the nodes of an act or a chart.
#[derive(Clone, Copy)]
pub struct Seat {
    /// The table from which on labels are looked up.
    pub level: Option<LabelTable>,
    /// The unit procedure above them, by its number in its table.
    pub unit: usize,
    /// The node of which they are the child with the number `child`.
    pub parent: u16,
    pub child: u16,
}

/// The unit procedure of an act, where those above it stand under `unit`: a unit procedure stands under itself.
fn unit_number(table: LabelTable, number: usize, unit: usize) -> usize
    ensures { result ≡ unit_number table number unit }
{
    match table {
        LabelTable::UnitProcedures => number,
        LabelTable::Operations | LabelTable::Phases => unit,
    }
}

/// How many needs the act has, its unit and those that it reserves among them.
fn needs_count(act: &Act) -> u16
    ensures { result ≡ needs_count act.now }
{
    let needs = act.needs.len() as u16 + act.reserves.len() as u16;
    match &act.unit {
        None => needs,
        Some(_) => needs + 1,
    }
}

/// Adds a node without nodes below it, and returns its number.
fn begin(
    nodes: &mut Vec<Entry>,
    kind: Kind,
    needs: u16,
    detail: usize,
    parent: u16,
    child: u16,
) -> Result<u16, OutlineFault>
    requires { length nodes.old.items ≤ MAX_NODES }
    ensures { HasBegun nodes.old.items (record { kind = kind; needs = needs; detail = detail }) parent child nodes.new.items result }
{
    let node = nodes.len() as u16;
    if node >= MAX_NODES {
        return Err(OutlineFault::TooMany);
    }
    nodes.push(Entry {
        kind,
        end: node + 1,
        parent,
        child,
        needs,
        detail,
    })?;
    Ok(node)
}

/// Ends the node: all nodes after it are below it.
fn finish(nodes: &mut Vec<Entry>, node: u16)
    requires limit { length nodes.old.items ≤ MAX_NODES }
    requires within { node < length nodes.old.items }
    ensures { HasEnded nodes.old.items node nodes.new.items }
{
    let end = nodes.len() as u16;
    nodes[usize::from(node)].end = end;
}

/// Adds the nodes of an act, which stands under the unit procedure of the seat.
#[cycle(grow)]
#[inline(always)]
pub fn grow_act(
    alloc: Global,
    nodes: &mut Vec<Entry>,
    conditions: &mut Vec<NodeCondition>,
    labels: &Labels<'_>,
    act: &Act,
    kind: Kind,
    seat: Seat,
) -> Result<(), OutlineFault>
    requires { length nodes.old.items ≤ MAX_NODES }
    ensures grown { HasGrown nodes.old.items (act_entries labels.now.acts.now seat.level kind seat.unit (length nodes.old.items) (length conditions.old.items) seat.parent seat.child act.now) nodes.new.items result }
    ensures added { HasAdded conditions.old.items (act_conditions labels.now.acts.now seat.level act.now) conditions.new.items result }
{
    let node = begin(
        nodes,
        kind,
        needs_count(act),
        seat.unit,
        seat.parent,
        seat.child,
    )?;
    match &act.work {
        Work::Runs { .. } => Ok(()),
        Work::Follows(chart) => {
            let below = Seat {
                parent: node,
                child: 0,
                ..seat
            };
            grow(alloc, nodes, conditions, labels, chart, below)?;
            finish(nodes, node);
            Ok(())
        }
    }
}

/// Adds a node without nodes below it.
fn grow_bare(nodes: &mut Vec<Entry>, parent: u16, child: u16) -> Result<(), OutlineFault>
    requires { length nodes.old.items ≤ MAX_NODES }
    ensures { HasGrown nodes.old.items (bare_entries (length nodes.old.items) parent child) nodes.new.items result }
{
    begin(nodes, Kind::Skip, 0, 0, parent, child)?;
    Ok(())
}

/// Adds the nodes of a chart.
#[cycle(grow)]
fn grow(
    alloc: Global,
    nodes: &mut Vec<Entry>,
    conditions: &mut Vec<NodeCondition>,
    labels: &Labels<'_>,
    chart: &Chart,
    seat: Seat,
) -> Result<(), OutlineFault>
    requires { length nodes.old.items ≤ MAX_NODES }
    ensures grown { HasGrown nodes.old.items (chart_entries labels.now.acts.now seat.level seat.unit (length nodes.old.items) (length conditions.old.items) seat.parent seat.child (diagram_of chart.now)) nodes.new.items result }
    ensures added { HasAdded conditions.old.items (chart_conditions labels.now.acts.now seat.level (diagram_of chart.now)) conditions.new.items result }
{
    match chart {
        Chart::Label(name) => grow_label(alloc, nodes, conditions, labels, name, seat),
        Chart::Skip => grow_bare(nodes, seat.parent, seat.child),
        Chart::Seq(parts) => grow_parts(alloc, nodes, conditions, labels, Kind::Seq, parts, seat),
        Chart::Par(parts) => grow_parts(alloc, nodes, conditions, labels, Kind::Par, parts, seat),
        Chart::Sel(choices, last) => grow_selection(
            alloc, nodes, conditions, labels, choices, last, seat,
        ),
        Chart::Loop(turns, turn) => grow_loop(alloc, nodes, conditions, labels, *turns, turn, seat),
    }
}

/// The number of the act that a label may name after these nodes: charts often name acts in the order of their table.
fn next_number(nodes: &[Entry]) -> usize {
    match nodes.last() {
        Some(entry) => match entry.kind {
            Kind::Act(_, number) => number.wrapping_add(1),
            _ => 0,
        },
        None => 0,
    }
}

/// Adds the nodes of the act that the label names. If there is none, it adds a node without nodes below it.
#[cycle(grow)]
#[inline(always)]
fn grow_label(
    alloc: Global,
    nodes: &mut Vec<Entry>,
    conditions: &mut Vec<NodeCondition>,
    labels: &Labels<'_>,
    name: &Name,
    seat: Seat,
) -> Result<(), OutlineFault>
    requires { length nodes.old.items ≤ MAX_NODES }
    ensures grown { HasGrown nodes.old.items (chart_entries labels.now.acts.now seat.level seat.unit (length nodes.old.items) (length conditions.old.items) seat.parent seat.child (label name.now)) nodes.new.items result }
    ensures added { HasAdded conditions.old.items (chart_conditions labels.now.acts.now seat.level (label name.now)) conditions.new.items result }
{
    match seat.level {
        None => grow_bare(nodes, seat.parent, seat.child),
        Some(table) => match labels.number_of(table, name, next_number(nodes)) {
            None => grow_bare(nodes, seat.parent, seat.child),
            Some(number) => match labels.acts.table(table).get(number) {
                None => grow_bare(nodes, seat.parent, seat.child),
                Some(act) => {
                    let kind = Kind::Act(table, number);
                    let level = table.below();
                    let unit = unit_number(table, number, seat.unit);
                    let own = Seat {
                        level,
                        unit,
                        ..seat
                    };
                    grow_act(alloc, nodes, conditions, labels, act, kind, own)
                }
            },
        },
    }
}

/// Adds the nodes of a part of a chart. Most are labels, whose nodes are added without a call.
#[cycle(grow)]
#[inline(always)]
fn grow_part(
    alloc: Global,
    nodes: &mut Vec<Entry>,
    conditions: &mut Vec<NodeCondition>,
    labels: &Labels<'_>,
    part: &Chart,
    seat: Seat,
) -> Result<(), OutlineFault>
    requires { length nodes.old.items ≤ MAX_NODES }
    ensures grown { HasGrown nodes.old.items (chart_entries labels.now.acts.now seat.level seat.unit (length nodes.old.items) (length conditions.old.items) seat.parent seat.child (diagram_of part.now)) nodes.new.items result }
    ensures added { HasAdded conditions.old.items (chart_conditions labels.now.acts.now seat.level (diagram_of part.now)) conditions.new.items result }
{
    match part {
        Chart::Label(name) => grow_label(alloc, nodes, conditions, labels, name, seat),
        _ => grow(alloc, nodes, conditions, labels, part, seat),
    }
}

/// Adds a node and its branches.
#[cycle(grow)]
fn grow_parts(
    alloc: Global,
    nodes: &mut Vec<Entry>,
    conditions: &mut Vec<NodeCondition>,
    labels: &Labels<'_>,
    kind: Kind,
    parts: &[Chart],
    seat: Seat,
) -> Result<(), OutlineFault>
    requires { length nodes.old.items ≤ MAX_NODES }
    ensures grown { HasGrown nodes.old.items (parts_entries labels.now.acts.now seat.level kind seat.unit (length nodes.old.items) (length conditions.old.items) seat.parent seat.child (map diagram_of parts.now)) nodes.new.items result }
    ensures added { HasAdded conditions.old.items (branch_conditions labels.now.acts.now seat.level (map diagram_of parts.now)) conditions.new.items result }
{
    let node = begin(nodes, kind, 0, 0, seat.parent, seat.child)?;
    let below = Seat {
        parent: node,
        child: 0,
        ..seat
    };
    grow_each(alloc, nodes, conditions, labels, parts, below)?;
    finish(nodes, node);
    Ok(())
}

/// Adds the nodes of branches, the first of which is child 0.
#[cycle(grow)]
fn grow_each(
    alloc: Global,
    nodes: &mut Vec<Entry>,
    conditions: &mut Vec<NodeCondition>,
    labels: &Labels<'_>,
    parts: &[Chart],
    seat: Seat,
) -> Result<(), OutlineFault>
    requires { length nodes.old.items ≤ MAX_NODES }
    ensures grown { HasGrown nodes.old.items (branch_entries labels.now.acts.now seat.level seat.unit (length nodes.old.items) (length conditions.old.items) seat.parent 0 (map diagram_of parts.now)) nodes.new.items result }
    ensures added { HasAdded conditions.old.items (branch_conditions labels.now.acts.now seat.level (map diagram_of parts.now)) conditions.new.items result }
{
    let mut child = 0;
    for part in parts {
        grow_part(
            alloc,
            nodes,
            conditions,
            labels,
            part,
            Seat { child, ..seat },
        )?;
        child += 1;
    }
    Ok(())
}

/// Adds a selection's node and its branches.
#[cycle(grow)]
fn grow_selection(
    alloc: Global,
    nodes: &mut Vec<Entry>,
    conditions: &mut Vec<NodeCondition>,
    labels: &Labels<'_>,
    choices: &[(Condition, Chart)],
    last: &Chart,
    seat: Seat,
) -> Result<(), OutlineFault>
    requires { length nodes.old.items ≤ MAX_NODES }
    ensures grown { HasGrown nodes.old.items (chart_entries labels.now.acts.now seat.level seat.unit (length nodes.old.items) (length conditions.old.items) seat.parent seat.child (sel (choice_cases choices.now last.now))) nodes.new.items result }
    ensures added { HasAdded conditions.old.items (chart_conditions labels.now.acts.now seat.level (sel (choice_cases choices.now last.now))) conditions.new.items result }
{
    let first = conditions.len();
    let node = begin(nodes, Kind::Sel, 0, first, seat.parent, seat.child)?;
    let Ok(()) = push_conditions(alloc, conditions, &labels.names.values, choices) else {
        return Err(OutlineFault::Memory);
    };
    let below = Seat {
        parent: node,
        child: 0,
        ..seat
    };
    grow_choices(alloc, nodes, conditions, labels, choices, last, below)?;
    finish(nodes, node);
    Ok(())
}

/// Adds the nodes of a selection's branches, the first of which is child 0.
#[cycle(grow)]
fn grow_choices(
    alloc: Global,
    nodes: &mut Vec<Entry>,
    conditions: &mut Vec<NodeCondition>,
    labels: &Labels<'_>,
    choices: &[(Condition, Chart)],
    last: &Chart,
    seat: Seat,
) -> Result<(), OutlineFault>
    requires { length nodes.old.items ≤ MAX_NODES }
    ensures grown { HasGrown nodes.old.items (choice_entries labels.now.acts.now seat.level seat.unit (length nodes.old.items) (length conditions.old.items) seat.parent 0 choices.now last.now) nodes.new.items result }
    ensures added { HasAdded conditions.old.items (choice_conditions labels.now.acts.now seat.level choices.now last.now) conditions.new.items result }
{
    let mut child = 0;
    for choice in choices {
        grow_part(
            alloc,
            nodes,
            conditions,
            labels,
            &choice.1,
            Seat { child, ..seat },
        )?;
        child += 1;
    }
    grow(
        alloc,
        nodes,
        conditions,
        labels,
        last,
        Seat { child, ..seat },
    )
}

/// Adds a loop's node and those of its body.
#[cycle(grow)]
fn grow_loop(
    alloc: Global,
    nodes: &mut Vec<Entry>,
    conditions: &mut Vec<NodeCondition>,
    labels: &Labels<'_>,
    turns: u64,
    turn: &(Condition, Chart),
    seat: Seat,
) -> Result<(), OutlineFault>
    requires { length nodes.old.items ≤ MAX_NODES }
    ensures grown { HasGrown nodes.old.items (chart_entries labels.now.acts.now seat.level seat.unit (length nodes.old.items) (length conditions.old.items) seat.parent seat.child (loop turns turn.now.0 (diagram_of turn.now.1))) nodes.new.items result }
    ensures added { HasAdded conditions.old.items (chart_conditions labels.now.acts.now seat.level (loop turns turn.now.0 (diagram_of turn.now.1))) conditions.new.items result }
{
    let number = conditions.len();
    let node = begin(nodes, Kind::Loop(turns), 0, number, seat.parent, seat.child)?;
    let Ok(()) = push_condition(alloc, conditions, &labels.names.values, &turn.0) else {
        return Err(OutlineFault::Memory);
    };
    let below = Seat {
        parent: node,
        child: 0,
        ..seat
    };
    grow(alloc, nodes, conditions, labels, &turn.1, below)?;
    finish(nodes, node);
    Ok(())
}
