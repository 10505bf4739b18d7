//! The phases of a cell.
ghost use Rattle.std.specs.Prelude.{◌≡◌, [], flat_map, map, nat_eq, IfOk, OnOk};
ghost use Rattle.std.specs.Cmp.Lexicographic.{pointwise};
ghost use Rattle.indexmap.specs.IndexSet.{insert_all, insert_key, keys};
ghost use Rattle.batch_set.specs.Linking.{ArePhasesOf, numbers_on, phases_in, run_phase_number, table_items};
ghost use Rattle.batch_set.specs.Looked.{offered_on};

use batch_cell::{Cell, Module};
use batch_recipe::{Act, Work};
use batch_text::Name;
use indexmap::IndexSet;
use std::alloc::{AllocError, Global};

/// The phases that the units of a cell offer, by the numbers of their names.
#[derive(Drop)]
pub struct CellPhases {
    /// The name of each phase, once.
    pub names: IndexSet<Name>,
    /// The number of each name's phase on each unit, among those that the unit offers. None if the unit doesn't offer it.
    pub numbers: Vec<Vec<Option<u16>>>,
}

/// Adds a copy of the name, if the set lacks it.
fn add_name(alloc: Global, names: &mut IndexSet<Name>, name: &Name) -> Result<(), AllocError>
    ensures { OnOk result (names.new.keys ≡ insert_key (pointwise nat_eq) names.old.keys name.now) }
{
    let Ok(copy) = name.copy(alloc) else {
        return Err(AllocError);
    };
    names.insert(copy)?;
    Ok(())
}

fn add_names(alloc: Global, names: &mut IndexSet<Name>, more: &[Name]) -> Result<(), AllocError>
    ensures { OnOk result (names.new.keys ≡ insert_all (pointwise nat_eq) names.old.keys more.now) }
{
    for name in more {
        add_name(alloc, names, name)?;
    }
    Ok(())
}

/// The names of the modules' phases.
fn phase_names(alloc: Global, modules: &[Module]) -> Result<IndexSet<Name>, AllocError>
    ensures { IfOk result (λ names. names.keys ≡ insert_all (pointwise nat_eq) [] (flat_map phases_in modules.now)) }
{
    let mut names = IndexSet::new(alloc);
    for module in modules {
        add_names(alloc, &mut names, &module.phases)?;
    }
    Ok(names)
}

/// The number of a phase among those that a unit offers, for each unit.
fn number_phase(alloc: Global, cell: &Cell, phase: &Name) -> Result<Vec<Option<u16>>, AllocError>
    ensures { IfOk result (λ numbers. numbers.items ≡ numbers_on cell.now phase.now) }
{
    let mut numbers = Vec::with_capacity(alloc, usize::from(cell.units()))?;
    for unit in 0..cell.units() {
        numbers.push(cell.phase_number(unit, phase))?;
    }
    Ok(numbers)
}

/// For each of the names: the number of the phase among those that a unit offers, for each unit.
fn number_phases(
    alloc: Global,
    cell: &Cell,
    names: &IndexSet<Name>,
) -> Result<Vec<Vec<Option<u16>>>, AllocError>
    ensures { IfOk result (λ numbers. table_items numbers.items ≡ map (numbers_on cell.now) names.now.keys) }
{
    let mut numbers = Vec::with_capacity(alloc, names.len())?;
    for index in 0..names.len() {
        let row = number_phase(alloc, cell, &names[index])?;
        numbers.push(row)?;
    }
    Ok(numbers)
}

impl CellPhases {
    /// The phases that the units of the cell offer.
    // claim: phases of a cell
    pub fn new(alloc: Global, cell: &Cell) -> Result<CellPhases, AllocError>
        ensures { IfOk result (ArePhasesOf cell.now) }
    {
        let names = phase_names(alloc, &cell.modules)?;
        let numbers = number_phases(alloc, cell, &names)?;
        Ok(CellPhases { names, numbers })
    }

    /// The number of the phase that the act runs, if a unit offers it.
    pub(crate) fn run_by(&self, act: &Act) -> Option<usize>
        ensures { result ≡ run_phase_number self.now.names.keys act.now }
    {
        match &act.work {
            Work::Follows(_) => None,
            Work::Runs { phase, .. } => self.names.get_index_of(phase),
        }
    }

    /// The number that the phase with this number has among those that the unit offers.
    #[inline(always)]
    pub(crate) fn on(&self, phase: usize, unit: u16) -> Option<u16>
        ensures { result ≡ offered_on self.now phase unit }
    {
        *self.numbers.get(phase)?.get(usize::from(unit))?
    }
}
