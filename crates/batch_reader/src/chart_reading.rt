//! The reader of charts.
ghost use Rattle.std.specs.Prelude.{◌≡◌, ◌≤◌, ℕ, length, IfOk, Err};
ghost use Rattle.batch_recipe.specs.Diagram.{diagram_of};
ghost use Rattle.batch_reader.specs.ChartAnswer.{HasFaultAt, IsOutsideAt, IsRead};
ghost use Rattle.batch_reader.specs.ChartGrammar.{IsChart};
ghost use Rattle.batch_reader.specs.ChartView.{GoesOn};

use crate::chart_fault::{ChartFault, Stop};
use crate::firsts::Firsts;
use crate::lexeme::Lexeme;
use crate::state::State;
use crate::steps::{finish, step};
use crate::want::Want;
use batch_recipe::Chart;
use batch_text::{MAX_NAME_LEN, is_name_byte};
use std::alloc::Global;

/// The longest chart text of a document, in bytes. The reader itself takes any length.
pub const MAX_CHART_LEN: usize = 16_384;

/// The chart of a text, and where its first `par` opens.
#[derive(Drop)]
pub struct ReadChart {
    pub chart: Chart,
    /// The offset of the parenthesis of its first `par`, in bytes from 0.
    pub first_par: Option<usize>,
}

/// The place past the letters at the place that go on with a word, of which there are no more than a name has.
fn past_letters(text: &[u8], lexeme: Lexeme, place: usize) -> usize
    requires { place ≤ length text.now }
    ensures { GoesOn text.now place result lexeme }
{
    let Lexeme::Letters(start) = lexeme else {
        return place;
    };
    let end = text.len().min(start.saturating_add(MAX_NAME_LEN));
    let mut at = place;
    while at < end && is_name_byte(text[at]) {
        at += 1;
    }
    at
}

/// Reads the chart of a text, as [`read_chart`] does, and finds where its first `par` opens.
pub fn read_chart_and_par(alloc: Global, text: &[u8]) -> Result<ReadChart, ChartFault>
    // claim: chart read; first `par`
    ensures found { IfOk result (λ read. IsRead text.now (diagram_of read.chart) read.first_par) }
    // claim: no chart
    ensures no_chart { (n : ℕ) → result ≡ Err (ChartFault.NotAChart n) → HasFaultAt text.now n }
    // claim: number out of range
    ensures out_of_range { (n : ℕ) → result ≡ Err (ChartFault.OutOfRange n) → IsOutsideAt text.now n }
{
    let mut state = State {
        lexeme: Lexeme::Nothing,
        want: Want::Chart,
        stack: Vec::new(alloc),
        firsts: Firsts::none(),
    };
    let mut place = 0;
    while place < text.len() {
        match step(alloc, text, &mut state, place) {
            Ok(()) => {}
            Err(Stop::NotAChart) => return Err(ChartFault::NotAChart(place)),
            Err(Stop::Memory) => return Err(ChartFault::Memory),
        }
        place = past_letters(text, state.lexeme, place + 1);
    }
    let (chart, firsts) = match finish(alloc, text, state) {
        Ok(found) => found,
        Err(Stop::NotAChart) => return Err(ChartFault::NotAChart(text.len())),
        Err(Stop::Memory) => return Err(ChartFault::Memory),
    };
    match firsts.outside {
        None => Ok(ReadChart {
            chart,
            first_par: firsts.par,
        }),
        Some(offset) => Err(ChartFault::OutOfRange(offset)),
    }
}

/// Reads the chart of a text. `NotAChart`: the text is none, whatever range its numbers may have. `OutOfRange`: it is one but
/// for the range of its numbers. Both have an offset in bytes from 0. Any text may give `Memory`.
pub fn read_chart(alloc: Global, text: &[u8]) -> Result<Chart, ChartFault>
    // claim: chart read
    ensures found { IfOk result (λ chart. IsChart text.now (diagram_of chart)) }
    // claim: no chart
    ensures no_chart { (n : ℕ) → result ≡ Err (ChartFault.NotAChart n) → HasFaultAt text.now n }
    // claim: number out of range
    ensures out_of_range { (n : ℕ) → result ≡ Err (ChartFault.OutOfRange n) → IsOutsideAt text.now n }
{
    let read = read_chart_and_par(alloc, text)?;
    Ok(read.chart)
}
