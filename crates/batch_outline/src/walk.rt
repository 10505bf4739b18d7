//! The walk along the charts, node by node.
ghost use Rattle.std.specs.Prelude.{◌≡◌, ◌++◌, OnOk, codes, string_bytes};
ghost use Rattle.batch_recipe.specs.Diagram.{diagram_of, label, loop};
ghost use Rattle.batch_outline.specs.Along.{act_lines, along, choice_lines, labels_from, part_lines, plain_line, seat_of};

use crate::acts::{act_text, held_below, kind_below};
use crate::lines::{Seat, child_place, if_text, loop_text, put_line};
use batch_recipe::{Act, Chart, Condition, LabelTable, Recipe, Work, act_named};
use batch_text::Name;
use std::alloc::{AllocError, Global};

/// Adds the line of an act of this kind, and those of its chart, whose labels are looked up from the level on.
#[cycle(walk)]
pub fn put_act(
    alloc: Global,
    text: &mut String,
    recipe: &Recipe,
    level: Option<LabelTable>,
    kind: &str,
    act: &Act,
    seat: Seat<'_>,
) -> Result<(), AllocError>
    ensures { OnOk result (string_bytes text.new ≡ string_bytes text.old
        ++ act_lines recipe.now.roles.items recipe.now.acts (labels_from recipe.now level) (seat_of seat.entry) kind.now act.now) }
{
    let head = act_text(alloc, recipe, kind, act)?;
    put_line(text, seat, &head, "")?;
    match &act.work {
        Work::Runs { .. } => Ok(()),
        Work::Follows(chart) => {
            let place = child_place(alloc, seat.place, 0)?;
            let held = held_below(alloc, seat.held, &recipe.acts, act)?;
            let below = Seat {
                place: &place,
                held: &held,
                branch: "",
            };
            put_chart(alloc, text, recipe, level, chart, below)
        }
    }
}

/// Adds the lines of a chart.
#[cycle(walk)]
fn put_chart(
    alloc: Global,
    text: &mut String,
    recipe: &Recipe,
    level: Option<LabelTable>,
    chart: &Chart,
    seat: Seat<'_>,
) -> Result<(), AllocError>
    ensures { OnOk result (string_bytes text.new ≡ string_bytes text.old
        ++ along (labels_from recipe.now level) (seat_of seat.entry) (diagram_of chart.now)) }
{
    match chart {
        Chart::Label(name) => put_label(alloc, text, recipe, level, name, seat),
        Chart::Skip => put_line(text, seat, "skip", ""),
        Chart::Seq(parts) => put_parts(alloc, text, recipe, level, "seq", parts, seat),
        Chart::Par(parts) => put_parts(alloc, text, recipe, level, "par", parts, seat),
        Chart::Sel(choices, last) => put_choices(alloc, text, recipe, level, choices, last, seat),
        Chart::Loop(turns, turn) => put_loop(alloc, text, recipe, level, *turns, turn, seat),
    }
}

/// Adds the lines of the act that the label names. If there is none, adds the line of a `skip`.
#[cycle(walk)]
fn put_label(
    alloc: Global,
    text: &mut String,
    recipe: &Recipe,
    level: Option<LabelTable>,
    name: &Name,
    seat: Seat<'_>,
) -> Result<(), AllocError>
    ensures { OnOk result (string_bytes text.new ≡ string_bytes text.old
        ++ along (labels_from recipe.now level) (seat_of seat.entry) (label name.now)) }
{
    match level {
        None => put_line(text, seat, "skip", ""),
        Some(table) => match act_named(recipe.acts.table(table), name) {
            None => put_line(text, seat, "skip", ""),
            Some(act) => {
                let kind = kind_below(act);
                put_act(alloc, text, recipe, table.below(), kind, act, seat)
            }
        },
    }
}

/// Adds the line of a node of this form, and those of its branches.
#[cycle(walk)]
fn put_parts(
    alloc: Global,
    text: &mut String,
    recipe: &Recipe,
    level: Option<LabelTable>,
    form: &str,
    parts: &[Chart],
    seat: Seat<'_>,
) -> Result<(), AllocError>
    ensures { OnOk result (string_bytes text.new ≡ string_bytes text.old ++ (plain_line (seat_of seat.entry) form.now
        ++ part_lines recipe.now level seat.entry.place.now seat.entry.held.now 0 parts.now)) }
{
    put_line(text, seat, form, "")?;
    for (child, part) in parts.iter().enumerate() {
        let place = child_place(alloc, seat.place, child)?;
        let below = Seat {
            place: &place,
            held: seat.held,
            branch: "",
        };
        put_chart(alloc, text, recipe, level, part, below)?;
    }
    Ok(())
}

/// Adds the line of a selection, and those of its branches, of which the last has no condition.
#[cycle(walk)]
fn put_choices(
    alloc: Global,
    text: &mut String,
    recipe: &Recipe,
    level: Option<LabelTable>,
    choices: &[(Condition, Chart)],
    last: &Chart,
    seat: Seat<'_>,
) -> Result<(), AllocError>
    ensures { OnOk result (string_bytes text.new ≡ string_bytes text.old ++ (plain_line (seat_of seat.entry) (codes "sel")
        ++ choice_lines recipe.now level seat.entry.place.now seat.entry.held.now 0 choices.now last.now)) }
{
    put_line(text, seat, "sel", "")?;
    for (child, choice) in choices.iter().enumerate() {
        let place = child_place(alloc, seat.place, child)?;
        let branch = if_text(alloc, &choice.0)?;
        let below = Seat {
            place: &place,
            held: seat.held,
            branch: &branch,
        };
        put_chart(alloc, text, recipe, level, &choice.1, below)?;
    }
    let place = child_place(alloc, seat.place, choices.len())?;
    let below = Seat {
        place: &place,
        held: seat.held,
        branch: " else",
    };
    put_chart(alloc, text, recipe, level, last, below)
}

/// Adds the line of a loop, and those of its body.
#[cycle(walk)]
fn put_loop(
    alloc: Global,
    text: &mut String,
    recipe: &Recipe,
    level: Option<LabelTable>,
    turns: u64,
    turn: &(Condition, Chart),
    seat: Seat<'_>,
) -> Result<(), AllocError>
    ensures { OnOk result (string_bytes text.new ≡ string_bytes text.old
        ++ along (labels_from recipe.now level) (seat_of seat.entry) (loop turns turn.now.0 (diagram_of turn.now.1))) }
{
    let times = loop_text(alloc, turns, &turn.0)?;
    put_line(text, seat, "loop", &times)?;
    let place = child_place(alloc, seat.place, 0)?;
    let below = Seat {
        place: &place,
        held: seat.held,
        branch: "",
    };
    put_chart(alloc, text, recipe, level, &turn.1, below)
}
