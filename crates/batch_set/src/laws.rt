//! Laws of a linked recipe.
ghost use Rattle.batch_set.specs.Sources.{CandidatesSayNames, NeedsSayNames, PhasesSayNames, UnitsSayNames};

/// An act's needs by number mean the same as its needs by name, need by need, whatever units take the roles.
// claim: needs by number
pub fn needs_say_names()
    ensures { NeedsSayNames }
{}

/// The number of a unit procedure's unit means the same as its name or its role, whatever units take the roles.
// claim: units by number
pub fn units_say_names()
    ensures { UnitsSayNames }
{}

/// The candidates of a role by number are the units of its class, one after another.
// claim: candidates by number
pub fn candidates_say_names()
    ensures { CandidatesSayNames }
{}

/// A phase that a unit offers is found by the numbers of the phase step and of the unit.
// claim: phases by number
pub fn phases_say_names()
    ensures { PhasesSayNames }
{}
