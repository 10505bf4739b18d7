//! The axis of time.
use crate::timeline::Timeline;
use std::alloc::{AllocError, Global};

/// How long the axis is, in the picture's points.
pub const LENGTH: u64 = 840;

/// The most ticks of an axis.
const MOST_TICKS: u64 = 10;

/// The possible steps between two ticks, in lines.
const LINE_STEPS: [u64; 20] = [
    1, 2, 5, 10, 20, 50, 100, 200, 500, 1_000, 2_000, 5_000, 10_000, 20_000, 50_000, 100_000,
    200_000, 500_000, 1_000_000, 10_000_000,
];

/// The possible steps between two ticks, in milliseconds.
const CLOCK_STEPS: [u64; 20] = [
    1,
    10,
    100,
    1_000,
    2_000,
    5_000,
    15_000,
    30_000,
    60_000,
    120_000,
    300_000,
    600_000,
    900_000,
    1_800_000,
    3_600_000,
    7_200_000,
    14_400_000,
    43_200_000,
    86_400_000,
    604_800_000,
];

const DAY: u64 = 86_400_000;

/// The times of a record, along a line.
#[derive(Clone, Copy)]
pub struct Axis {
    first: u64,
    last: u64,
    has_clock: bool,
    step: u64,
}

impl Axis {
    pub fn of(timeline: &Timeline) -> Axis {
        let first = timeline.first;
        let last = timeline.now.max(first.saturating_add(1));
        let span = last.saturating_sub(first);
        let step = if timeline.has_clock {
            step_of(&CLOCK_STEPS, span)
        } else {
            step_of(&LINE_STEPS, span)
        };
        Axis {
            first,
            last,
            has_clock: timeline.has_clock,
            step,
        }
    }

    /// The position of the time along the axis, in points.
    pub fn along(self, time: u64) -> u64 {
        let span = self.last.saturating_sub(self.first);
        let gone = time.saturating_sub(self.first).min(span);
        // Long spans are counted in larger units, so that nothing is cut.
        let (gone, span) = if span < 1 << 50 {
            (gone, span)
        } else {
            (gone >> 16, span >> 16)
        };
        gone.saturating_mul(LENGTH) / span.max(1)
    }

    /// The times of the ticks.
    pub fn ticks(self, alloc: Global) -> Result<Vec<u64>, AllocError> {
        let step = self.step.max(1);
        let mut ticks = Vec::new(alloc);
        let mut time = (self.first.saturating_add(step - 1) / step).saturating_mul(step);
        for _ in 0..=MOST_TICKS {
            if self.last < time {
                break;
            }
            ticks.push(time)?;
            time = time.saturating_add(step);
        }
        Ok(ticks)
    }

    /// The unit of the axis.
    pub fn unit(self) -> &'static str {
        if self.has_clock { "UTC" } else { "line" }
    }

    /// The label of the tick at this time: the number of the line, or the time by the clock, which counts from the year 1970.
    pub fn label(self, alloc: Global, time: u64) -> Result<String, AllocError> {
        if !self.has_clock {
            return format!(in alloc; "{time}");
        }
        let day = time / DAY - (self.first / DAY).min(time / DAY);
        let seconds = time % DAY / 1_000;
        let (hour, minute, second) = (seconds / 3_600, seconds / 60 % 60, seconds % 60);
        if self.step < 1_000 {
            let rest = time % 1_000;
            format!(in alloc; "{minute:02}:{second:02}.{rest:03}")
        } else if self.step < 60_000 {
            format!(in alloc; "{hour:02}:{minute:02}:{second:02}")
        } else if day == 0 {
            format!(in alloc; "{hour:02}:{minute:02}")
        } else {
            format!(in alloc; "{hour:02}:{minute:02} +{day}")
        }
    }
}

/// The step between two ticks, at least 1, so that there are few of them.
fn step_of(steps: &[u64], span: u64) -> u64 {
    let step = steps
        .iter()
        .find(|step| span / (**step).max(1) < MOST_TICKS);
    step.copied().unwrap_or(span / MOST_TICKS).max(1)
}
