//! The token that has to come next.
ghost use Rattle.std.specs.Prelude.{◌≡◌};
ghost use Rattle.batch_reader.specs.ChartMachine.{takes_number, takes_operator, takes_word};
ghost use Rattle.batch_reader.specs.ChartView.{want_view};

use batch_recipe::{Chart, Condition, Op};
use batch_text::Name;

/// The form whose condition is being read.
#[derive(Drop)]
pub enum Test {
    Sel(Vec<(Condition, Chart)>),
    Loop(u64),
}

/// The token that has to come next.
#[derive(Drop)]
pub enum Want {
    Chart,
    OpenSeq,
    OpenPar,
    OpenSel,
    OpenLoop,
    Turns,
    AfterTurns(u64),
    Name(Test),
    Operator(Test, Name),
    Operand(Test, Name, Op),
    AfterCond(Test, Condition),
    AfterElse(Vec<(Condition, Chart)>),
    AfterChart(Chart),
}

impl Want {
    /// Sets the wanted token.
    #[inline(always)]
    pub fn set(&mut self, next: Want)
        ensures { self.new ≡ next }
    {
        *self = next;
    }

    /// Sets the chart that has been read.
    #[inline(always)]
    pub fn set_chart(&mut self, chart: Chart)
        ensures { self.new ≡ Want.AfterChart chart }
    {
        *self = Want::AfterChart(chart);
    }

    /// Whether a word may come next.
    pub fn takes_word(&self) -> bool
        ensures { result ≡ takes_word (want_view self.now) }
    {
        matches!(self, Want::Chart | Want::Name(_) | Want::Operand(_, _, _))
    }

    /// Whether a number may come next.
    pub fn takes_number(&self) -> bool
        ensures { result ≡ takes_number (want_view self.now) }
    {
        matches!(self, Want::Turns | Want::Operand(_, _, _))
    }

    /// Whether an operator has to come next.
    pub fn takes_operator(&self) -> bool
        ensures { result ≡ takes_operator (want_view self.now) }
    {
        matches!(self, Want::Operator(_, _))
    }
}
