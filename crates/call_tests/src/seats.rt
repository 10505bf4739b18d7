//! A hub and the desks of its ports, of which the first is apart.
ghost use Rattle.std.specs.Prelude.{◌≡◌, map};
ghost use Rattle.batch_desk.specs.DeskState.{desk_rings};
ghost use Rattle.batch_desk.specs.HubState.{rings};

use crate::hubs::hub_of;
use crate::left::Left;
use crate::ports::{at_desk, at_desks, at_hub};
use crate::teller::Teller;
use batch_desk::{Hub, PortDesk, PortPlan};
use batch_verify::Cleared;
use std::alloc::Global;
use std::marker::Model;
use std::test::Fail;

/// A hub, the desk of its first port, and those of the others.
#[derive(Drop)]
pub(crate) struct Seats {
    hub: Hub,
    first: PortDesk,
    others: Vec<PortDesk>,
}

impl Model for Seats {
    ghost use Rattle.std.specs.Prelude.{⊤};
    ghost use Rattle.call_tests.specs.Seats.{IsSeated};

    ghost Value = { ⊤ };

    ghost view = { λ _. tt };

    ghost invariant = { λ s. IsSeated s.hub s.first };
}

impl Seats {
    pub(crate) fn new(alloc: Global, recipe: &str, plans: &[PortPlan]) -> Result<Seats, Fail> {
        let (hub, desks) = hub_of(alloc, recipe, plans)?;
        Seats::of(hub, desks)
    }

    /// The first of the desks is set apart.
    #[tactic(auto, using(crate::proofs::FirstPort::first_seated))]
    fn of(hub: Hub, desks: Vec<PortDesk>) -> Result<Seats, Fail>
        requires { rings hub ≡ map desk_rings desks.items }
    {
        let mut others = desks;
        if others.is_empty() {
            return Err(Fail::from("no desk"));
        }
        let first = others.remove(0);
        Ok(Seats { hub, first, others })
    }

    /// The first desk finishes.
    #[tactic(auto, using(crate::proofs::FirstPort::left_seated))]
    pub(crate) fn finish(self) -> Left {
        let Seats { hub, first, others } = self;
        let (token, inbox) = first.finish();
        Left {
            hub,
            token,
            inbox,
            others,
        }
    }
}

impl Teller<Cleared> for Seats {
    #[tactic(auto, using(crate::proofs::FirstPort::seated_stays))]
    fn answer(&mut self, alloc: Global, cleared: &mut Cleared, line: &str) -> Result<String, Fail> {
        let (word, words) = line.split_once(' ').unwrap_or((line, ""));
        let (port, event) = words.split_once(' ').unwrap_or((words, ""));
        match (word, port) {
            ("send" | "take", "0") => at_desk(alloc, cleared, &mut self.first, event),
            ("send" | "take", _) => at_desks(alloc, cleared, &mut self.others, 1, words),
            _ => at_hub(alloc, &mut self.hub, word, words),
        }
    }
}
