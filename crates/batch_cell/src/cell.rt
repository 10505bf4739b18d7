//! The cell.
ghost use Rattle.std.specs.Prelude.{◌≡◌, ◌<◌, ◌≤◌, length, map, IfOk};
ghost use Rattle.std.proofs.Props.{props};
ghost use Rattle.indexmap.specs.IndexSet.{keys};
ghost use Rattle.batch_cell.specs.Equipment.{resource_names, offered_phases, IsDeclaredOnce, HasDeclaredUnits, OffersPhasesOnce};
ghost use Rattle.batch_cell.specs.declared.cell.TheConstants.{MAX_UNITS, MAX_MODULES, MAX_SHARED};

use crate::index::{index_phases, index_resources};
use crate::module::Module;
use crate::shared::Shared;
use crate::unit::Unit;
use batch_text::Name;
use indexmap::IndexSet;
use std::alloc::{AllocError, Global};

/// The most units of a cell.
pub const MAX_UNITS: usize = 64;

/// The most equipment modules of a cell.
pub const MAX_MODULES: usize = 256;

/// The most shared resources of a cell.
pub const MAX_SHARED: usize = 64;

/// A process cell: its equipment in order of declaration, and two indexes over it. `Cell::new` alone makes one.
///
/// The resources are the units, the free modules and the shared resources, numbered from 0 in that order.
// claim: formed cells
pub struct Cell {
    pub name: Name,
    pub units: Vec<Unit>,
    pub modules: Vec<Module>,
    pub shared: Vec<Shared>,
    /// The names of the resources, in order of their numbers.
    pub(crate) names: IndexSet<Name>,
    /// For each unit the phases that it offers, in order of declaration.
    pub(crate) offered: Vec<IndexSet<Name>>,
    ghost some_unit: { 0 < length units.items },
    ghost few_units: { length units.items ≤ MAX_UNITS },
    ghost few_modules: { length modules.items ≤ MAX_MODULES },
    ghost few_shared: { length shared.items ≤ MAX_SHARED },
    ghost declared_once: { IsDeclaredOnce units.items modules.items shared.items } by { Prim.hlevel props },
    ghost declared_units: { HasDeclaredUnits units.items modules.items },
    ghost phases_once: { OffersPhasesOnce units.items modules.items } by { Prim.hlevel props },
    ghost named: { names.keys ≡ resource_names units.items modules.items shared.items },
    ghost indexed: { map keys offered.items ≡ offered_phases units.items modules.items },
}

impl Cell {
    /// The cell of this equipment, with its indexes. It is refused only if memory is.
    // claim: made cells
    pub fn new(
        alloc: Global,
        name: Name,
        units: Vec<Unit>,
        modules: Vec<Module>,
        shared: Vec<Shared>,
    ) -> Result<Cell, AllocError>
        requires some_unit { 0 < length units.items }
        requires few_units { length units.items ≤ MAX_UNITS }
        requires few_modules { length modules.items ≤ MAX_MODULES }
        requires few_shared { length shared.items ≤ MAX_SHARED }
        requires declared_once { IsDeclaredOnce units.items modules.items shared.items }
        requires declared_units { HasDeclaredUnits units.items modules.items }
        requires phases_once { OffersPhasesOnce units.items modules.items }
        ensures name { IfOk result (λ cell. cell.name ≡ name) }
        ensures units { IfOk result (λ cell. cell.units.items ≡ units.items) }
        ensures modules { IfOk result (λ cell. cell.modules.items ≡ modules.items) }
        ensures shared { IfOk result (λ cell. cell.shared.items ≡ shared.items) }
    {
        let names = index_resources(alloc, &units, &modules, &shared)?;
        let offered = index_phases(alloc, &units, &modules)?;
        Ok(Cell {
            name,
            units,
            modules,
            shared,
            names,
            offered,
        })
    }
}

// Not derived: each function that drops one would have a proof that drops field by field.
impl Drop for Cell {
    fn drop(self) {
        let Cell {
            name: _,
            units: _,
            modules: _,
            shared: _,
            names: _,
            offered: _,
        } = self;
    }
}
