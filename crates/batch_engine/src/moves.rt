//! Making the next move.
ghost use Rattle.std.specs.Prelude.{◌≡◌, Some};
ghost use Rattle.batch_chart.specs.declared.chart_move.Move.TheVariants as Moves;
ghost use Rattle.batch_engine.specs.Steps.{CanClaim, IsGrantStep, IsLineAt, IsNext, IsNextStep, IsOfAct, IsOwnStep, MakesNext, TellsNext, claimed_by};

use crate::control::Control;
use crate::line::{ClaimKind, Line};
use crate::step::Step;
use batch_arbiter::Arbiter;
use batch_chart::Move;
use batch_matrix::State;

/// An ask joins the queue of its resource, a release gives the act's share back, and a pass hands the share over. `Control::grant` calls
/// the arbiter for a grant. A line without a resource leaves the arbiter as it is.
#[inline(always)]
fn claim(arbiter: &mut Arbiter, line: &Line)
    requires { CanClaim line.now arbiter.old }
    ensures { arbiter.new ≡ claimed_by line.now arbiter.old }
{
    match *line {
        Line::Claim {
            kind,
            batch,
            node,
            resource,
            units,
            ..
        } => match kind {
            ClaimKind::Asked => arbiter.ask(resource, units, batch, node),
            ClaimKind::Released => arbiter.release(resource, batch, node),
            ClaimKind::Granted => {}
        },
        Line::Pass {
            batch,
            node,
            to,
            resource,
            ..
        } => arbiter.pass(resource, batch, node, to),
        _ => {}
    }
}

impl Control {
    /// The batch at an index changes its state.
    #[inline(always)]
    fn change_state(&mut self, index: usize, state: State)
        requires { IsOwnStep self.old (IsNext self.old) index (Moves.State state) }
        ensures { MakesNext self.old self.new }
    {
        let batch = &mut self.batches[index];
        batch.state = state;
    }

    /// The batch at an index makes a move of an act, whose line this is.
    #[inline(always)]
    fn run(&mut self, index: usize, made: Move, line: &Line)
        requires step { IsOwnStep self.old (IsNext self.old) index made }
        requires act { IsOfAct made }
        requires line { IsLineAt self.old index made line.now }
        ensures { MakesNext self.old self.new }
    {
        claim(&mut self.arbiter, line);
        let batch = &mut self.batches[index];
        let chart = self.cleared.recipe(batch.recipe);
        batch.running.make_move(chart, made, &batch.values);
    }

    /// The first act in the queue of a resource is granted it.
    #[inline(always)]
    fn grant(&mut self, index: usize, node: u16, resource: u16, units: u32)
        requires { IsGrantStep self.old (IsNext self.old) index node resource units }
        ensures { MakesNext self.old self.new }
    {
        let _ = self.arbiter.grant_next(resource);
        let batch = &mut self.batches[index];
        let chart = self.cleared.recipe(batch.recipe);
        batch.running.grant(chart, node);
    }

    /// Makes the move of the batch at an index, whose line this is.
    #[inline(always)]
    fn carry_out_own(&mut self, index: usize, made: Move, line: &Line)
        requires step { IsOwnStep self.old (IsNext self.old) index made }
        requires line { IsLineAt self.old index made line.now }
        ensures { MakesNext self.old self.new }
    {
        match made {
            Move::State(state) => self.change_state(index, state),
            _ => self.run(index, made, line),
        }
    }

    /// Makes the next step, a move of the batch at an index, and returns its line. Each kind of move has a copy of the code, from which the
    /// compiler leaves out the tests of the kind.
    #[inline(always)]
    fn make_own_by_kind(&mut self, index: usize, made: Move) -> Line
        requires { IsOwnStep self.old (IsNext self.old) index made }
        ensures told { TellsNext self.old result }
        ensures made { MakesNext self.old self.new }
    {
        match made {
            Move::Send { node, command } => self.make_own(index, Move::Send { node, command }),
            Move::State(state) => self.make_own(index, Move::State(state)),
            Move::Release { node, need } => self.make_own(index, Move::Release { node, need }),
            Move::Pass { node, to, need } => self.make_own(index, Move::Pass { node, to, need }),
            Move::Begin { node } => self.make_own(index, Move::Begin { node }),
            Move::Start { node } => self.make_own(index, Move::Start { node }),
            Move::End { node } => self.make_own(index, Move::End { node }),
            Move::Ask { node, need } => self.make_own(index, Move::Ask { node, need }),
        }
    }

    /// The same of a move of any kind. Its code is small enough for the compiler, which makes nothing inline that is much larger.
    #[inline(always)]
    fn make_own(&mut self, index: usize, made: Move) -> Line
        requires { IsOwnStep self.old (IsNext self.old) index made }
        ensures told { TellsNext self.old result }
        ensures made { MakesNext self.old self.new }
    {
        let line = self.own_line(index, made);
        self.carry_out_own(index, made, &line);
        line
    }

    /// Makes the next step, a grant, and returns its line.
    fn make_grant(&mut self, index: usize, node: u16, resource: u16, units: u32) -> Line
        requires { IsGrantStep self.old (IsNext self.old) index node resource units }
        ensures told { TellsNext self.old result }
        ensures made { MakesNext self.old self.new }
    {
        let line = self.grant_line(index, node, resource, units);
        self.grant(index, node, resource, units);
        line
    }

    /// Makes the next step, and returns its line.
    #[inline(always)]
    pub(crate) fn make_step(&mut self, step: Step) -> Line
        requires { IsNextStep self.old (Some step) }
        ensures told { TellsNext self.old result }
        ensures made { MakesNext self.old self.new }
    {
        match step {
            Step::Own { index, made } => self.make_own_by_kind(index, made),
            Step::Grant {
                index,
                node,
                resource,
                units,
            } => self.make_grant(index, node, resource, units),
        }
    }
}
