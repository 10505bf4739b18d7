//! Hubs over documents.
ghost use Rattle.std.specs.Prelude.{◌≡◌, IfOk, map};
ghost use Rattle.batch_model.specs.Plant.{opening};
ghost use Rattle.batch_engine.specs.View.{plant_of};
ghost use Rattle.batch_desk.specs.DeskState.{desk_rings};
ghost use Rattle.batch_desk.specs.HubState.{rings};

use crate::documents::CELL1;
use crate::records::engine_of;
use batch_desk::{Hub, PortDesk, PortPlan};
use batch_engine::Engine;
use std::alloc::Global;
use std::test::Fail;

/// A hub of the engine and the desks of its ports, or why there is none.
fn new_hub(alloc: Global, engine: Engine, plans: &[PortPlan]) -> Result<(Hub, Vec<PortDesk>), Fail>
    requires { plant_of engine ≡ opening }
    ensures { IfOk result (λ r. rings r.0 ≡ map desk_rings r.1.items) }
{
    Hub::new(alloc, engine, plans).map_err(|(fault, _)| Fail::from(fault))
}

/// A hub of an engine of the recipe, and the desks of its ports.
pub(crate) fn hub_of(
    alloc: Global,
    recipe: &str,
    plans: &[PortPlan],
) -> Result<(Hub, Vec<PortDesk>), Fail>
    ensures { IfOk result (λ r. rings r.0 ≡ map desk_rings r.1.items) }
{
    let engine = engine_of(alloc, CELL1, &[recipe])?;
    new_hub(alloc, engine, plans)
}
