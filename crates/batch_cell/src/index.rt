//! The indexes of a cell.
ghost use Rattle.std.specs.Prelude.{◌≡◌, map, nat_eq, IfOk, OnOk};
ghost use Rattle.std.specs.Cmp.Lexicographic.{pointwise};
ghost use Rattle.std.specs.List.{IsDistinct};
ghost use Rattle.indexmap.specs.IndexSet.{insert_all, insert_key, keys};
ghost use Rattle.batch_cell.specs.Equipment.{IsDeclaredOnce, OffersPhasesOnce, offered_phases, resource_names, unit_phases};

use crate::module::Module;
use crate::shared::Shared;
use crate::unit::Unit;
use batch_text::Name;
use indexmap::IndexSet;
use std::alloc::{AllocError, Global};

/// The names of the resources, in order of their numbers.
pub(crate) fn index_resources(
    alloc: Global,
    units: &[Unit],
    modules: &[Module],
    shared: &[Shared],
) -> Result<IndexSet<Name>, AllocError>
    requires { IsDeclaredOnce units.now modules.now shared.now }
    ensures { IfOk result (λ names. names.keys ≡ resource_names units.now modules.now shared.now) }
{
    let mut names = IndexSet::new(alloc);
    for unit in units {
        add_name(alloc, &mut names, &unit.name)?;
    }
    for module in modules {
        if module.unit.is_none() {
            add_name(alloc, &mut names, &module.name)?;
        }
    }
    for resource in shared {
        add_name(alloc, &mut names, &resource.name)?;
    }
    Ok(names)
}

/// For each unit the phases that its modules let it offer, in order of declaration.
pub(crate) fn index_phases(
    alloc: Global,
    units: &[Unit],
    modules: &[Module],
) -> Result<Vec<IndexSet<Name>>, AllocError>
    requires { OffersPhasesOnce units.now modules.now }
    ensures { IfOk result (λ offered. map keys offered.items ≡ offered_phases units.now modules.now) }
{
    let mut offered = Vec::new(alloc);
    for unit in units {
        let phases = phases_of_unit(alloc, modules, &unit.name)?;
        offered.push(phases)?;
    }
    Ok(offered)
}

/// The phases that the unit's modules let it offer.
fn phases_of_unit(
    alloc: Global,
    modules: &[Module],
    unit: &Name,
) -> Result<IndexSet<Name>, AllocError>
    requires { IsDistinct (pointwise nat_eq) (unit_phases modules.now unit.now) }
    ensures { IfOk result (λ phases. phases.keys ≡ unit_phases modules.now unit.now) }
{
    let mut phases = IndexSet::new(alloc);
    for module in modules {
        if module.belongs_to(unit) {
            add_names(alloc, &mut phases, &module.phases)?;
        }
    }
    Ok(phases)
}

fn add_names(alloc: Global, index: &mut IndexSet<Name>, names: &[Name]) -> Result<(), AllocError>
    ensures { OnOk result (index.new.keys ≡ insert_all (pointwise nat_eq) index.old.keys names.now) }
{
    for name in names {
        add_name(alloc, index, name)?;
    }
    Ok(())
}

/// Adds a copy of the name, if the index lacks it.
fn add_name(alloc: Global, index: &mut IndexSet<Name>, name: &Name) -> Result<(), AllocError>
    ensures { OnOk result (index.new.keys ≡ insert_key (pointwise nat_eq) index.old.keys name.now) }
{
    let Ok(copy) = name.copy(alloc) else {
        return Err(AllocError);
    };
    index.insert(copy)?;
    Ok(())
}
