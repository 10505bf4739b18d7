//! Making the parts of a plant.
ghost use Rattle.std.specs.Prelude.{◌≡◌, ◌∷◌, [], length, IfOk, IfErr};
ghost use Rattle.batch_engine.specs.View.{plant_of};
ghost use Rattle.batch_model.specs.Plant.{opening};
ghost use Rattle.batch_plant.specs.Parts.{AreParts, HaveRings};
ghost use Rattle.batch_plant.specs.declared.plant_fault.PlantFault.TheVariants.{Memory};

use crate::parts::Parts;
use crate::plant_fault::PlantFault;
use batch_desk::{Hub, PortDesk, PortPlan, Scope};
use batch_engine::Engine;
use batch_verify::Cleared;
use std::alloc::Global;

/// Makes an engine of the cleared set, a hub round it, and its two desks.
pub(crate) fn open(alloc: Global, cleared: Cleared, ring: usize) -> Result<Parts, PlantFault>
    ensures fault { IfErr result (λ fault. fault ≡ Memory) }
    ensures rings { IfOk result (λ parts. HaveRings ring parts.hub) }
    ensures cleared { IfOk result (λ parts. parts.hub.engine.cleared ≡ cleared) }
    ensures history { IfOk result (λ parts. parts.hub.history ≡ []) }
    ensures parts { IfOk result (λ parts. AreParts parts.hub parts.console parts.link) }
    ensures sent { IfOk result (λ parts. (parts.console.sent ≡ []) × (parts.link.sent ≡ [])) }
{
    let Ok(engine) = Engine::new(alloc, cleared) else {
        return Err(PlantFault::Memory);
    };
    open_hub(alloc, engine, ring)
}

/// Makes a hub round an engine in which nothing has happened, and its two desks.
fn open_hub(alloc: Global, engine: Engine, ring: usize) -> Result<Parts, PlantFault>
    requires { plant_of engine ≡ opening }
    // claim: fault of a plant
    ensures fault { IfErr result (λ fault. fault ≡ Memory) }
    ensures rings { IfOk result (λ parts. HaveRings ring parts.hub) }
    ensures cleared { IfOk result (λ parts. parts.hub.engine.cleared ≡ engine.cleared) }
    ensures history { IfOk result (λ parts. parts.hub.history ≡ []) }
    ensures parts { IfOk result (λ parts. AreParts parts.hub parts.console parts.link) }
    ensures sent { IfOk result (λ parts. (parts.console.sent ≡ []) × (parts.link.sent ≡ [])) }
{
    let plan = PortPlan {
        scope: Scope::All,
        event_places: ring,
        out_places: ring,
    };
    match Hub::new(alloc, engine, &[plan, plan]) {
        Ok((hub, desks)) => {
            let (console, link) = console_and_link(desks);
            Ok(Parts { hub, console, link })
        }
        Err(_) => Err(PlantFault::Memory),
    }
}

/// The two desks of a hub.
fn console_and_link(desks: Vec<PortDesk>) -> (PortDesk, PortDesk)
    requires { length desks.items ≡ 2 }
    ensures { desks.items ≡ result.0 ∷ result.1 ∷ [] }
{
    let mut desks = desks;
    let link = desks.pop().unwrap();
    let console = desks.pop().unwrap();
    (console, link)
}
