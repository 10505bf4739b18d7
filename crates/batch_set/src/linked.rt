//! The needs and the phases of acts, by number.
ghost use Rattle.std.specs.Prelude.{◌≡◌};
ghost use Rattle.batch_set.specs.Looked.{needs_by, number_for, phase_on, row_at, rows_at, unit_procedure_source};

use crate::cell_phases::CellPhases;
use batch_recipe::{Kind, LabelTable, MAX_VALUES};

/// The source of the units of a need.
#[derive(Clone, Copy)]
pub enum Source {
    /// The resource with this number. It is a unit if the number is below the count of the cell's units.
    Resource(u16),
    /// The unit that takes the role with this number.
    Role(u8),
    /// No resource, or no role, has the name.
    Unknown,
}

impl Source {
    /// The number of the resource, where these units take the roles.
    // claim: roles by number
    pub fn for_units(self, units: &[u16]) -> Option<u16>
        ensures { result ≡ number_for units.now self }
    {
        match self {
            Source::Resource(number) => Some(number),
            Source::Role(role) => units.get(usize::from(role)).copied(),
            Source::Unknown => None,
        }
    }
}

/// A number of units of a resource.
#[derive(Clone, Copy)]
pub struct LinkedNeed {
    pub source: Source,
    pub units: u32,
}

/// A recipe by number, each of its tables in its order. The needs of an act are its own unit, if it has one, then the units that it
/// reserves, and then its other needs.
pub struct LinkedRecipe {
    pub procedure: Vec<LinkedNeed>,
    pub unit_procedures: Vec<Vec<LinkedNeed>>,
    pub operations: Vec<Vec<LinkedNeed>>,
    pub phases: Vec<Vec<LinkedNeed>>,
    /// The numbers of the units that may take each role, in the order of the cell.
    pub candidates: Vec<Vec<u16>>,
    /// The number of each phase step's phase among the phases of the cell. None if no unit offers it.
    pub runs: Vec<Option<usize>>,
    /// The positions at which a batch has the values that the phase of each phase step is handed, as hints; those after them mean
    /// nothing.
    pub handed: Vec<[usize; MAX_VALUES]>,
}

impl Drop for LinkedRecipe {
    fn drop(self) {
        let LinkedRecipe {
            procedure: _,
            unit_procedures: _,
            operations: _,
            phases: _,
            candidates: _,
            runs: _,
            handed: _,
        } = self;
    }
}

impl LinkedRecipe {
    /// The needs of the table's acts.
    fn table(&self, level: LabelTable) -> &[Vec<LinkedNeed>]
        ensures { result.now ≡ rows_at self.now level }
    {
        match level {
            LabelTable::UnitProcedures => &self.unit_procedures,
            LabelTable::Operations => &self.operations,
            LabelTable::Phases => &self.phases,
        }
    }

    /// The needs of the act of this kind. A kind that is no act of the recipe has none.
    // claim: needs by number
    #[inline(always)]
    pub fn needs(&self, kind: Kind) -> &[LinkedNeed]
        ensures { result.now ≡ needs_by self.now kind }
    {
        match kind {
            Kind::Procedure => &self.procedure,
            Kind::Act(level, number) => match self.table(level).get(number) {
                Some(needs) => needs,
                None => &[],
            },
            Kind::Skip | Kind::Seq | Kind::Par | Kind::Sel | Kind::Loop(_) => &[],
        }
    }

    /// The numbers of the units that may take the role with this number, in the order of the cell.
    // claim: candidates by number
    pub fn candidates_of(&self, role: usize) -> &[u16]
        ensures { result.now ≡ row_at self.now.candidates.items role }
    {
        match self.candidates.get(role) {
            Some(units) => units,
            None => &[],
        }
    }

    /// The source of the unit of the unit procedure with this number: that of its first need.
    // claim: units by number
    #[inline(always)]
    pub fn unit(&self, unit_procedure: usize) -> Source
        ensures { result ≡ unit_procedure_source self.now unit_procedure }
    {
        let act = Kind::Act(LabelTable::UnitProcedures, unit_procedure);
        match self.needs(act).first() {
            Some(need) => need.source,
            None => Source::Unknown,
        }
    }

    /// The number of the phase that the phase step with this number runs, among those that the unit offers. None where it doesn't
    /// offer it.
    // claim: phases by number
    #[inline(always)]
    pub fn phase_on(&self, phases: &CellPhases, step: usize, unit: u16) -> Option<u16>
        ensures { result ≡ phase_on self.now phases.now step unit }
    {
        let phase = (*self.runs.get(step)?)?;
        phases.on(phase, unit)
    }
}
