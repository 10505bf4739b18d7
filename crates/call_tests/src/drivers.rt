//! Drivers that follow no order.
use batch_matrix::Report;
use batch_sim::{Order, UnitDriver};

/// The answer to a tick: a phase and its report.
pub(crate) type Answer = Option<(u16, Report)>;

/// Answers one tick after the other by a list, whatever orders it is given, and is silent after the list's end.
#[derive(Drop)]
pub(crate) struct Scripted {
    answers: &'static [Answer],
    ticks: usize,
}

impl Scripted {
    pub(crate) fn new(answers: &'static [Answer]) -> Scripted {
        Scripted { answers, ticks: 0 }
    }
}

impl UnitDriver for Scripted {
    ghost command_gives = { λ _ _ _ _. Unit {0} };

    ghost tick_gives = { λ _ _ _. Unit {0} };

    fn command(&mut self, _phase: u16, _order: Order) {}

    fn tick(&mut self) -> Option<(u16, Report)> {
        let tick = self.ticks;
        self.ticks = tick.saturating_add(1);
        *self.answers.get(tick)?
    }
}
