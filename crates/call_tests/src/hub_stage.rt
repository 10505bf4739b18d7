//! A hub, and the desks of its ports.
use crate::looping::{console_told, hub_told};
use crate::ports::{at_desks, at_hub};
use crate::teller::Teller;
use crate::words::{number_of, shown};
use batch_desk::{Hub, HubFault, PortDesk};
use batch_verify::Cleared;
use std::alloc::Global;
use std::test::Fail;

/// A hub, and the desks of its ports.
#[derive(Drop)]
pub(crate) struct Stage(pub(crate) (Hub, Vec<PortDesk>));

/// Seals a port. Returns whether there is a token.
fn sealed(hub: &mut Hub, port: usize) -> Result<bool, HubFault> {
    hub.seal(port).map(|token| token.is_some())
}

fn seal(alloc: Global, hub: &mut Hub, port: &str) -> Result<String, Fail> {
    let (port, _) = number_of(port)?;
    shown(alloc, "seal", &sealed(hub, usize::from(port)))
}

/// No desk is left.
fn lose(alloc: Global, desks: &mut Vec<PortDesk>) -> Result<String, Fail> {
    desks.clear();
    Ok(String::new(alloc))
}

/// The answer to a line is in the names of the cleared set.
impl Teller<Cleared> for Stage {
    fn answer(&mut self, alloc: Global, cleared: &mut Cleared, line: &str) -> Result<String, Fail> {
        let (word, words) = line.split_once(' ').unwrap_or((line, ""));
        match word {
            "send" | "take" => at_desks(alloc, cleared, &mut self.0.1, 0, words),
            "hub" => hub_told(alloc, &mut self.0.0, words),
            "console" => console_told(alloc, &mut self.0.1, words),
            "seal" => seal(alloc, &mut self.0.0, words),
            "lose" => lose(alloc, &mut self.0.1),
            _ => at_hub(alloc, &mut self.0.0, word, words),
        }
    }
}
