//! The states that acts show.
ghost use Rattle.std.specs.Prelude.{◌≡◌, ◌<◌, length};
ghost use Rattle.batch_chart.specs.Outlined.{is_act_kind};
ghost use Rattle.batch_chart.specs.Nexts.{IsScene};
ghost use Rattle.batch_chart.specs.Showing.{IsFirstShown, IsShown, IsStateAt};

use crate::node::{Kind, kind_of};
use crate::scene::Scene;
use crate::sign::{LIVES, of_state};
use crate::stage::Stage;
use batch_matrix::State;

/// The states by which an open act shows its live phases, the gravest first.
const GRAVEST: [State; 8] = [
    State::Aborting,
    State::Stopping,
    State::Holding,
    State::Restarting,
    State::Pausing,
    State::Held,
    State::Paused,
    State::Running,
];

fn is_act(kind: Kind) -> bool
    ensures { result ≡ is_act_kind kind }
{
    match kind {
        Kind::Phase { .. } | Kind::Act { .. } => true,
        Kind::Skip | Kind::Seq | Kind::Par | Kind::Sel { .. } | Kind::Loop { .. } => false,
    }
}

impl Scene<'_> {
    /// The first of the states that a live phase below the act at n has.
    fn first_shown(&self, n: usize, states: &[State]) -> Option<State>
        requires node { n < length self.now.nodes.now }
        requires scene { IsScene self.now }
        ensures { IsFirstShown self.now.nodes.now self.now.recipe.now n self.now.stages.now states.now result }
    {
        match states.split_first() {
            None => None,
            Some((state, later)) => {
                if self
                    .signs
                    .has_none(of_state(*state), n + 1, self.nodes[n].end as usize)
                {
                    self.first_shown(n, later)
                } else {
                    Some(*state)
                }
            }
        }
    }

    /// The state that an open act at n shows, in a batch of this state.
    fn shown(&self, n: usize, state: State) -> State
        requires node { n < length self.now.nodes.now }
        requires scene { IsScene self.now }
        ensures { IsShown self.now.nodes.now self.now.recipe.now n self.now.stages.now state result }
    {
        let Some(live) = self.signs.next(LIVES, n + 1) else {
            return state;
        };
        if self.nodes[n].end as usize <= live {
            return state;
        }
        match self.first_shown(n, &GRAVEST) {
            Some(gravest) => gravest,
            None => match self.stages[live] {
                Stage::Live(own) => own,
                _ => state,
            },
        }
    }

    /// The state that the act at the node shows, in a batch of this state.
    pub fn state_at(&self, node: u16, state: State) -> Option<State>
        requires { IsScene self.now }
        ensures { IsStateAt self.now.nodes.now self.now.recipe.now self.now.stages.now node state result }
    {
        let n = usize::from(node);
        if n == 0 {
            return Some(state);
        }
        if n >= self.nodes.len() {
            return None;
        }
        if !is_act(kind_of(&self.nodes[n])) {
            return None;
        }
        match self.stages[n] {
            Stage::Live(own) => Some(own),
            Stage::Open => Some(self.shown(n, state)),
            _ => Some(State::Idle),
        }
    }
}
