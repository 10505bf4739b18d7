//! The change of the wanted token by a sign.
ghost use Rattle.std.specs.Prelude.{◌≡◌, ◌≢◌, ◌∷◌, ◌==◌, List, true, false, Some, MatchResult};
ghost use Rattle.batch_recipe.specs.declared.condition.Condition.{Condition};
ghost use Rattle.batch_recipe.specs.Diagram.{Diagram, diagram_of};
ghost use Rattle.batch_reader.specs.ChartMachine.{Frame as Around, Test as Tested, in_case, a_chart, after_chart, after_condition, take_comma, take_sign};
ghost use Rattle.batch_reader.specs.ChartView.{Gives, after_view, frame_view, frames_view, test_view, want_view};

use crate::chart_fault::Stop;
use crate::forms::take_close;
use crate::frame::Frame;
use crate::stack::{pop, push};
use crate::want::{Test, Want};
use batch_recipe::{Chart, Condition};
use std::alloc::Global;
use std::mem::replace;

/// Checks that the byte is the sign.
fn expect(byte: u8, sign: u8) -> Result<(), Stop>
    ensures { MatchResult result (λ _. (byte == sign) ≡ true) (λ e. (e ≡ Stop.NotAChart) × ((byte == sign) ≡ false)) }
{
    if byte == sign {
        Ok(())
    } else {
        Err(Stop::NotAChart)
    }
}

/// Begins a chart inside the frame.
fn inside(stack: &mut Vec<Frame>, frame: Frame) -> Result<Want, Stop>
    ensures { Gives (after_view stack.new.items) result (Some (a_chart, frame_view frame ∷ frames_view stack.old.items)) }
{
    push(stack, frame)?;
    Ok(Want::Chart)
}

/// Reads the comma after a case, whose chart has been read.
#[tactic(auto, using(crate::proofs::ChartFrames::cases_view_last))]
fn end_case(want: &mut Want, chart: Chart, stack: &mut Vec<Frame>) -> Result<(), Stop>
    ensures { (cases : List (Condition × Diagram)) (condition : Condition) (frames : List Around) → frames_view stack.old.items ≡ in_case cases condition ∷ frames
        → Gives (λ _. after_view stack.new.items want.new) result (take_comma (diagram_of chart) (frames_view stack.old.items)) }
{
    match pop(stack) {
        Some(Frame::Case(mut cases, condition)) => {
            cases.push((condition, chart))?;
            want.set(Want::Name(Test::Sel(cases)));
            Ok(())
        }
        _ => Err(Stop::NotAChart),
    }
}

/// Reads a comma after a chart, with a chart already wanted next. A `seq` or a `par` gets the chart in place, on the stack.
pub fn take_comma(want: &mut Want, chart: Chart, stack: &mut Vec<Frame>) -> Result<(), Stop>
    requires { want_view want.old ≡ a_chart }
    ensures { Gives (λ _. after_view stack.new.items want.new) result (take_comma (diagram_of chart) (frames_view stack.old.items)) }
{
    let depth = stack.len();
    if depth == 0 {
        return Err(Stop::NotAChart);
    }
    if let Frame::Case(_, _) = &stack[depth - 1] {
        return end_case(want, chart, stack);
    }
    match &mut stack[depth - 1] {
        Frame::Seq(charts) => {
            charts.push(chart)?;
            Ok(())
        }
        Frame::Par(charts) => {
            charts.push(chart)?;
            Ok(())
        }
        Frame::Else(_) | Frame::Loop(_, _) => Err(Stop::NotAChart),
        Frame::Case(_, _) => unreachable!(),
    }
}

/// Reads the colon or the comma after a condition. A chart is wanted next.
fn end_condition(
    test: Test,
    condition: Condition,
    byte: u8,
    stack: &mut Vec<Frame>,
) -> Result<(), Stop>
    ensures { Gives (λ _. (a_chart, frames_view stack.new.items)) result (take_sign (after_condition (test_view test) condition) byte (frames_view stack.old.items)) }
{
    match test {
        Test::Sel(cases) => {
            expect(byte, b':')?;
            push(stack, Frame::Case(cases, condition))?;
        }
        Test::Loop(turns) => {
            expect(byte, b',')?;
            push(stack, Frame::Loop(turns, condition))?;
        }
    }
    Ok(())
}

/// Reads the comma or the parenthesis after a chart, with a chart already wanted next.
fn end_chart(
    alloc: Global,
    want: &mut Want,
    chart: Chart,
    byte: u8,
    stack: &mut Vec<Frame>,
) -> Result<(), Stop>
    requires { want_view want.old ≡ a_chart }
    ensures { Gives (λ _. after_view stack.new.items want.new) result (take_sign (after_chart (diagram_of chart)) byte (frames_view stack.old.items)) }
{
    match byte {
        b',' => take_comma(want, chart, stack),
        b')' => {
            want.set(take_close(alloc, chart, stack)?);
            Ok(())
        }
        _ => Err(Stop::NotAChart),
    }
}

/// Reads a parenthesis, a comma or a colon that follows neither a chart nor a condition.
fn take_other_sign(
    alloc: Global,
    want: &mut Want,
    byte: u8,
    stack: &mut Vec<Frame>,
) -> Result<(), Stop>
    requires chart { (chart : Diagram) → want_view want.old ≢ after_chart chart }
    requires condition { (test : Tested) (condition : Condition) → want_view want.old ≢ after_condition test condition }
    ensures { Gives (λ _. after_view stack.new.items want.new) result (take_sign (want_view want.old) byte (frames_view stack.old.items)) }
{
    *want = match replace(want, Want::Chart) {
        Want::OpenSeq => {
            expect(byte, b'(')?;
            inside(stack, Frame::Seq(Vec::new(alloc)))?
        }
        Want::OpenPar => {
            expect(byte, b'(')?;
            inside(stack, Frame::Par(Vec::new(alloc)))?
        }
        Want::OpenSel => {
            expect(byte, b'(')?;
            Want::Name(Test::Sel(Vec::new(alloc)))
        }
        Want::OpenLoop => {
            expect(byte, b'(')?;
            Want::Turns
        }
        Want::AfterTurns(turns) => {
            expect(byte, b',')?;
            Want::Name(Test::Loop(turns))
        }
        Want::AfterElse(cases) => {
            expect(byte, b':')?;
            inside(stack, Frame::Else(cases))?
        }
        Want::AfterChart(_) => unreachable!(),
        Want::AfterCond(_, _) => unreachable!(),
        Want::Chart | Want::Turns | Want::Name(_) | Want::Operator(_, _) | Want::Operand(_, _, _) =>
            { return Err(Stop::NotAChart) }
    };
    Ok(())
}

/// Reads a parenthesis, a comma or a colon. Most follow a chart or a condition, and move nothing but that.
pub fn take_sign(
    alloc: Global,
    want: &mut Want,
    byte: u8,
    stack: &mut Vec<Frame>,
) -> Result<(), Stop>
    ensures { Gives (λ _. after_view stack.new.items want.new) result (take_sign (want_view want.old) byte (frames_view stack.old.items)) }
{
    if matches!(want, Want::AfterCond(_, _)) {
        return match replace(want, Want::Chart) {
            Want::AfterCond(test, condition) => end_condition(test, condition, byte, stack),
            _ => unreachable!(),
        };
    }
    if !matches!(want, Want::AfterChart(_)) {
        return take_other_sign(alloc, want, byte, stack);
    }
    match replace(want, Want::Chart) {
        Want::AfterChart(chart) => end_chart(alloc, want, chart, byte, stack),
        _ => unreachable!(),
    }
}
