//! Drawing the bars of a timeline.
use crate::axis::{Axis, LENGTH};
use crate::bars::Bar;
use crate::lanes::Lanes;
use crate::picture::Picture;
use crate::shape::{Anchor, Block, Grid, Label, PictureShape};
use crate::timeline::{Resource, Timeline};
use std::alloc::{AllocError, Global};

/// The top of the first row, in points.
const TOP: u64 = 10;
/// The distance between lanes, and the further distance between rows.
const LANE: u64 = 20;

const GAP: u64 = 8;
/// The distance from a row's top to the line that its text stands on; and from the last row's end to that of the axis, and of the legend.
const BASE: u64 = 13;

const AXIS_BASE: u64 = 14;

const LEGEND_BASE: u64 = 36;
/// The room below the last row, and after the axis.
const FOOT: u64 = 48;

const MARGIN: u64 = 40;
/// The distance from the left edge to the unit of the axis, and from a name to the start of the axis.
const BESIDE: u64 = 8;
/// How wide a letter of a name and a digit in a bar are, at most, and for how many letters there is always room.
const LETTER: u64 = 9;

const DIGIT: u64 = 8;

const LEAST_LETTERS: u64 = 6;

const LEGEND: &str =
    "A bar: a batch, with its number, holds the resource. Hatched: it waits for it.";

/// A bar's place in its row.
#[derive(Clone, Copy)]
struct Spot<'a> {
    bar: &'a Bar,
    lane: usize,
    from: u64,
    to: u64,
}

/// The shapes of a picture so far, and the positions in it.
#[derive(Drop)]
struct Sheet {
    alloc: Global,
    axis: Axis,
    /// The start of the axis.
    left: u64,
    /// The end of the last row.
    end: u64,
    shapes: Vec<PictureShape>,
}

/// The picture of the timeline: units first, each with its lanes.
pub fn draw(alloc: Global, timeline: &Timeline) -> Result<Picture, AllocError> {
    let axis = Axis::of(timeline);
    let mut rows = Vec::new(alloc);
    for resource in &timeline.resources {
        rows.push(Lanes::of(alloc, resource, TOP))?;
    }
    let spots = spots_of(alloc, timeline, axis, &mut rows)?;
    let end = place_rows(&mut rows, true, TOP);
    let end = place_rows(&mut rows, false, end);
    let mut sheet = Sheet {
        alloc,
        axis,
        left: left_of(&timeline.resources),
        end,
        shapes: Vec::new(alloc),
    };
    sheet.put_axis()?;
    sheet.put_names(&rows)?;
    for spot in &spots {
        if let Some(row) = rows.get(spot.bar.share.resource) {
            sheet.put_bar(row, *spot)?;
        }
    }
    Ok(Picture {
        width: sheet.left.saturating_add(LENGTH + MARGIN),
        height: end.saturating_add(FOOT),
        shapes: sheet.shapes,
    })
}

/// The places of the bars, each in the first lane that has room for it. Waiting that took no time has no place.
fn spots_of<'a>(
    alloc: Global,
    timeline: &'a Timeline,
    axis: Axis,
    rows: &mut [Lanes<'_>],
) -> Result<Vec<Spot<'a>>, AllocError> {
    let mut spots = Vec::new(alloc);
    for bar in &timeline.bars.all {
        let end = bar.to.unwrap_or(timeline.now);
        if bar.share.waits && end == bar.from {
            continue;
        }
        let from = axis.along(bar.from);
        let to = axis.along(end).max(from.saturating_add(1));
        if let Some(row) = rows.get_mut(bar.share.resource) {
            let lane = row.occupy_lane(from, to)?;
            spots.push(Spot {
                bar,
                lane,
                from,
                to,
            })?;
        }
    }
    Ok(spots)
}

/// The start of the axis, after the longest name.
fn left_of(resources: &[Resource]) -> u64 {
    let longest = resources.iter().fold(LEAST_LETTERS, |longest, resource| {
        longest.max(resource.name.text().len() as u64)
    });
    longest.saturating_mul(LETTER).saturating_add(20)
}

/// Places the rows of units, or those of the other resources, and gives the end of the last one.
fn place_rows(rows: &mut [Lanes<'_>], units: bool, start: u64) -> u64 {
    let mut end = start;
    for row in rows.iter_mut() {
        if row.resource.is_unit == units {
            row.top = end;
            let lanes = (row.ends.len() as u64).max(1);
            end = end.saturating_add(lanes.saturating_mul(LANE).saturating_add(GAP));
        }
    }
    end
}

impl Sheet {
    /// Puts the ticks, their unit, and the legend.
    fn put_axis(&mut self) -> Result<(), AllocError> {
        let base = self.end.saturating_add(AXIS_BASE);
        for time in self.axis.ticks(self.alloc)? {
            let left = self.left.saturating_add(self.axis.along(time));
            let text = self.axis.label(self.alloc, time)?;
            self.put_grid(left, TOP, left, self.end)?;
            self.put_label(left, base, Anchor::Middle, text)?;
        }
        let unit = String::from_str(self.alloc, self.axis.unit())?;
        self.put_label(BESIDE, base, Anchor::Start, unit)?;
        let below = self.end.saturating_add(LEGEND_BASE);
        let legend = String::from_str(self.alloc, LEGEND)?;
        self.put_label(self.left, below, Anchor::Start, legend)
    }

    /// Puts the names of the resources, with a line above each row.
    fn put_names(&mut self, rows: &[Lanes<'_>]) -> Result<(), AllocError> {
        let beside = self.left.saturating_sub(BESIDE);
        let right = self.left.saturating_add(LENGTH);
        for row in rows {
            let line = row.top.saturating_sub(GAP / 2);
            self.put_grid(0, line, right, line)?;
            let name = String::from_str(self.alloc, row.resource.name.text())?;
            self.put_label(beside, row.top.saturating_add(BASE), Anchor::End, name)?;
        }
        Ok(())
    }

    /// Puts the bar, and its batch's number if there is room for it.
    fn put_bar(&mut self, row: &Lanes<'_>, spot: Spot<'_>) -> Result<(), AllocError> {
        let share = &spot.bar.share;
        let left = self.left.saturating_add(spot.from);
        let top = row
            .top
            .saturating_add((spot.lane as u64).saturating_mul(LANE));
        let width = spot.to.saturating_sub(spot.from);
        self.shapes.push(PictureShape::Block(Block {
            left,
            top,
            width,
            batch: share.batch,
            waits: share.waits,
            resource: row.resource.name.copy(self.alloc).map_err(|_| AllocError)?,
            units: share.units,
            place: String::from_str(self.alloc, share.place.as_str())?,
        }))?;
        let number = format!(in self.alloc; "{}", share.batch)?;
        if (number.len() as u64).saturating_mul(DIGIT) > width {
            return Ok(());
        }
        let middle = left.saturating_add(width / 2);
        self.put_label(middle, top.saturating_add(BASE), Anchor::Middle, number)
    }

    fn put_grid(&mut self, left: u64, top: u64, right: u64, bottom: u64) -> Result<(), AllocError> {
        self.shapes.push(PictureShape::Grid(Grid {
            left,
            top,
            right,
            bottom,
        }))?;
        Ok(())
    }

    fn put_label(
        &mut self,
        left: u64,
        base: u64,
        anchor: Anchor,
        text: String,
    ) -> Result<(), AllocError> {
        self.shapes.push(PictureShape::Label(Label {
            left,
            base,
            anchor,
            text,
        }))?;
        Ok(())
    }
}
