//! The faults in the chart of a table.
use crate::documents::entry::Entry;
use crate::documents::lines::line_of;
use batch_recipe::{MAX_TURNS, MAX_VALUE};
use std::alloc::AllocError;

impl Entry<'_> {
    /// Says that the chart is none from this byte on, quotes the rest, and gives a hint.
    pub(crate) fn no_chart_said(self, byte: usize) -> Result<String, AllocError> {
        let place = self.place_said(byte)?;
        let rest = self.rest_said(byte)?;
        let hint = self.hint_said(byte)?;
        format!(in self.alloc; "`chart` is no chart from byte {byte} on{place}{rest}{hint}")
    }

    /// Says that the number of the chart that begins at this byte is out of its limits.
    pub(crate) fn number_said(self, byte: usize) -> Result<String, AllocError> {
        let chart = self.text_at("chart");
        let (front, rest) = chart.split_at_checked(byte).unwrap_or(("", ""));
        let number = rest
            .split(|letter: char| !letter.is_ascii_digit())
            .next()
            .unwrap_or("");
        let place = self.place_said(byte)?;
        let end = if place.is_empty() { "" } else { "," };
        if front.trim_end().ends_with('(') {
            format!(in self.alloc;
                "a loop has 1 to {MAX_TURNS} turns, and `{number}` at byte {byte} of `chart`{place}{end} is none of these"
            )
        } else {
            format!(in self.alloc;
                "a number of a condition is at most {MAX_VALUE}, and `{number}` at byte {byte} of `chart`{place}{end} is above it"
            )
        }
    }

    /// The line and the column of the chart's byte in the document, from 1, if the document contains the chart as it is read.
    fn place_said(self, byte: usize) -> Result<String, AllocError> {
        match self.place_of(byte) {
            Some((line, column)) => format!(in self.alloc; ", line {line}, column {column}"),
            None => Ok(String::new(self.alloc)),
        }
    }

    /// The line and the column of the chart's byte. The chart is searched for behind the sign `=` of its key.
    fn place_of(self, byte: usize) -> Option<(usize, usize)> {
        let chart = self.text_at("chart");
        if chart.is_empty() {
            return None;
        }
        let line = line_of(self.text, self.document, self.spot, "chart")?;
        let tail = self.text.splitn(line, '\n').last()?;
        let (_, behind) = tail.get(tail.find('=')?..)?.split_once(chart)?;
        let before = self.text.strip_suffix(behind)?.strip_suffix(chart)?;
        let front = self.text.get(..before.len().checked_add(byte)?)?;
        let column = front.rsplit('\n').next()?.chars().count();
        Some((front.split('\n').count(), column.saturating_add(1)))
    }

    /// Quotes the chart from the byte on, up to the end of its line, or says that it ends there.
    fn rest_said(self, byte: usize) -> Result<String, AllocError> {
        match self.text_at("chart").get(byte..) {
            Some("") => String::from_str(self.alloc, ", where it ends"),
            Some(rest) => {
                let line = rest.split('\n').next().unwrap_or(rest);
                let front = line.get(..20).unwrap_or(line);
                format!(in self.alloc; ", at `{front}`")
            }
            None => Ok(String::new(self.alloc)),
        }
    }
}
