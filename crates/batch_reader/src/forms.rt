//! The ends of forms.
ghost use Rattle.std.specs.Prelude.{◌≡◌, ◌∷◌, [], ◌++◌, List, IfOk};
ghost use Rattle.batch_recipe.specs.Diagram as chart;
ghost use Rattle.batch_recipe.specs.Diagram.{cases_of, diagram_of, diagrams_of};
ghost use Rattle.batch_reader.specs.ChartMachine.{Frame as Around, after_chart, close_par, take_close};
ghost use Rattle.batch_reader.specs.ChartView.{Gives, after_view, cases_view, diagrams_view, frames_view};

use crate::chart_fault::Stop;
use crate::frame::Frame;
use crate::stack::pop;
use crate::want::Want;
use batch_recipe::{Chart, Condition};
use std::alloc::{AllocError, Global};

/// The parts of a form as a chart keeps them: in a box, with no room left over.
fn boxed<T: Drop>(alloc: Global, mut parts: Vec<T>) -> Result<Box<Vec<T>>, AllocError>
    ensures { IfOk result (λ kept. kept.value.items ≡ parts.items) }
{
    let mut kept = Vec::with_capacity(alloc, parts.len())?;
    kept.append(&mut parts)?;
    Ok(Box::new(alloc, kept)?)
}

/// The end of a `seq`.
#[tactic(auto, using(crate::proofs::ChartFrames::diagrams_view_last, crate::proofs::ChartFrames::diagram_of_seq))]
fn close_seq(alloc: Global, mut charts: Vec<Chart>, last: Chart) -> Result<Chart, AllocError>
    ensures { IfOk result (λ whole. diagram_of whole ≡ chart.seq (diagrams_of (diagrams_view charts.items ++ diagram_of last ∷ []))) }
{
    charts.push(last)?;
    Ok(Chart::Seq(boxed(alloc, charts)?))
}

/// The end of a `par`, which has two branches or more.
#[tactic(auto, using(crate::proofs::ChartFrames::diagrams_view_last, crate::proofs::ChartFrames::diagram_of_par))]
fn close_par(alloc: Global, mut charts: Vec<Chart>, last: Chart) -> Result<Chart, Stop>
    ensures { (frames : List Around) → Gives (λ whole. (after_chart (diagram_of whole), frames)) result
        (close_par (diagrams_view charts.items) (diagram_of last) frames) }
{
    if charts.is_empty() {
        return Err(Stop::NotAChart);
    }
    charts.push(last)?;
    Ok(Chart::Par(boxed(alloc, charts)?))
}

/// The end of a `sel`.
#[tactic(auto, using(crate::proofs::ChartFrames::diagram_of_sel))]
fn close_sel(
    alloc: Global,
    cases: Vec<(Condition, Chart)>,
    last: Chart,
) -> Result<Chart, AllocError>
    ensures { IfOk result (λ whole. diagram_of whole ≡ chart.sel (cases_of (cases_view cases.items) (diagram_of last))) }
{
    let choices = boxed(alloc, cases)?;
    Ok(Chart::Sel(choices, Box::new(alloc, last)?))
}

/// The end of a `loop`.
#[tactic(auto, using(crate::proofs::ChartFrames::diagram_of_loop))]
fn close_loop(
    alloc: Global,
    turns: u64,
    condition: Condition,
    body: Chart,
) -> Result<Chart, AllocError>
    ensures { IfOk result (λ whole. diagram_of whole ≡ chart.loop turns condition (diagram_of body)) }
{
    Ok(Chart::Loop(turns, Box::new(alloc, (condition, body))?))
}

/// Reads a closing parenthesis after a chart.
pub fn take_close(alloc: Global, last: Chart, stack: &mut Vec<Frame>) -> Result<Want, Stop>
    ensures { Gives (after_view stack.new.items) result (take_close (diagram_of last) (frames_view stack.old.items)) }
{
    let Some(frame) = pop(stack) else {
        return Err(Stop::NotAChart);
    };
    match frame {
        Frame::Seq(charts) => Ok(Want::AfterChart(close_seq(alloc, charts, last)?)),
        Frame::Par(charts) => Ok(Want::AfterChart(close_par(alloc, charts, last)?)),
        Frame::Else(cases) => Ok(Want::AfterChart(close_sel(alloc, cases, last)?)),
        Frame::Loop(turns, condition) => {
            let whole = close_loop(alloc, turns, condition, last)?;
            Ok(Want::AfterChart(whole))
        }
        Frame::Case(_, _) => Err(Stop::NotAChart),
    }
}
