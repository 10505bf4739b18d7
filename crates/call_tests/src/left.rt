//! A hub whose first desk has finished.
ghost use Rattle.std.specs.Prelude.{◌≡◌, IfSome, slice_get};
ghost use Rattle.batch_desk.specs.HubState.{rings};
ghost use Rattle.batch_desk.specs.Rings.{IsOfRing};

use crate::lines::text_of;
use crate::ports::{at_desks, at_hub};
use crate::teller::Teller;
use crate::words::shown;
use batch_desk::{Hub, HubFault, Inbox, PortDesk};
use batch_engine::{Event, Out};
use batch_verify::Cleared;
use rtrb::Finished;
use std::alloc::Global;
use std::marker::Model;
use std::test::Fail;

/// A hub, the token and the inbox that its first port's desk left, and the other desks. The token is there until the port is closed.
#[derive(Drop)]
pub(crate) struct Left {
    pub(crate) hub: Hub,
    pub(crate) token: Option<Finished<Event>>,
    pub(crate) inbox: Inbox,
    pub(crate) others: Vec<PortDesk>,
}

impl Model for Left {
    ghost use Rattle.std.specs.Prelude.{⊤};
    ghost use Rattle.call_tests.specs.Seats.{IsLeft};

    ghost Value = { ⊤ };

    ghost view = { λ _. tt };

    ghost invariant = { λ l. IsLeft l.hub l.token l.inbox };
}

/// Closes the first port by the token, if there is one. A token that comes back is kept.
fn close_by(hub: &mut Hub, token: &mut Option<Finished<Event>>) -> Option<Result<(), HubFault>>
    requires { IfSome token.old (λ t. IfSome (slice_get hub.old.ports 0) (λ p. IsOfRing t p.events)) }
    ensures rings { rings hub.new ≡ rings hub.old }
    ensures token { IfSome token.new (λ t. IfSome (slice_get hub.old.ports 0) (λ p. IsOfRing t p.events)) }
{
    match token.take() {
        None => None,
        Some(kept) => match hub.close(0, kept) {
            Ok(()) => Some(Ok(())),
            Err((fault, back)) => {
                *token = Some(back);
                Some(Err(fault))
            }
        },
    }
}

impl Left {
    /// Closes the first port. None if there is no token.
    fn close(&mut self) -> Option<Result<(), HubFault>> {
        close_by(&mut self.hub, &mut self.token)
    }

    /// Seals the first port. Returns how many outs are left in the inbox, or None if there is no token.
    fn seal(&mut self) -> Result<Option<usize>, HubFault> {
        match self.hub.seal(0) {
            Ok(Some(token)) => Ok(Some(self.inbox.rest(token))),
            Ok(None) => Ok(None),
            Err(fault) => Err(fault),
        }
    }

    /// Takes an out that is left.
    #[tactic(auto, using(crate::proofs::FirstPort::left_stays))]
    fn pop_out(&mut self) -> Option<Out> {
        self.inbox.pop_out()
    }

    /// Closes the first port.
    fn closed(&mut self, alloc: Global) -> Result<String, Fail> {
        match self.close() {
            Some(closed) => shown(alloc, "close", &closed),
            None => Err(Fail::from("no token")),
        }
    }

    /// Seals the first port.
    fn sealed(&mut self, alloc: Global) -> Result<String, Fail> {
        shown(alloc, "seal", &self.seal())
    }

    /// The line of an out that is left.
    fn next_out(&mut self, alloc: Global, cleared: &Cleared) -> Result<String, Fail> {
        let out = self.pop_out();
        text_of(alloc, cleared, out, "nothing\n")
    }

    /// The hub.
    pub(crate) fn into_hub(self) -> Hub {
        let Left { hub, .. } = self;
        hub
    }
}

impl Teller<Cleared> for Left {
    #[tactic(auto, using(crate::proofs::FirstPort::left_stays))]
    fn answer(&mut self, alloc: Global, cleared: &mut Cleared, line: &str) -> Result<String, Fail> {
        let (word, words) = line.split_once(' ').unwrap_or((line, ""));
        match (word, words) {
            ("close", "0") => self.closed(alloc),
            ("seal", "0") => self.sealed(alloc),
            ("take", "0") => self.next_out(alloc, cleared),
            ("send" | "take", _) => at_desks(alloc, cleared, &mut self.others, 1, words),
            _ => at_hub(alloc, &mut self.hub, word, words),
        }
    }
}
