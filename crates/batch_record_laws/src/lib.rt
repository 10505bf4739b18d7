//! Laws of the definitions of batch_model, on which the promise and the engine both rest: the invariant of every record, and the
//! facts that a record so shows of the plant that it leads to.
//!
//! Nothing runs here. The functions are empty: their contracts are the laws.
#![tactic(auto)]

ghost use Rattle.batch_record_laws.specs.Candidates.{CandidatesSuffice};
ghost use Rattle.batch_record_laws.specs.Procedures.{RecipesAreProcedures, TreesAreProcedures};
ghost use Rattle.batch_record_laws.specs.Replays.{ReplaysAgree};
ghost use Rattle.batch_record_laws.specs.Sets.{SetsAreDocuments};
ghost use Rattle.batch_record_laws.specs.Telling.{TellsThePlant};
ghost use Rattle.batch_record_laws.specs.Ways.{WaysRise};

/// A record that a cleared set of recipes leads to shows exactly the holders, the asks and the live phases of the plant that it
/// leads to, and the state of each batch.
// claim: told as it is
pub fn records_tell_the_plant()
    ensures { TellsThePlant }
{}

/// Ranks rise along the path of each node, as the rules of clearance say, exactly where they rise on the way down.
// claim: ranks on the way
pub fn ways_rise()
    ensures { WaysRise }
{}

/// The expanded tree of every recipe has the levels of a procedure. Each phase runs on the unit of its unit procedure, and the unit
/// procedure asks for this unit first.
pub fn trees_have_units()
    ensures trees { TreesAreProcedures }
    // claim: procedures
    ensures recipes { RecipesAreProcedures }
{}

/// The conditions of these laws on documents beside clearance hold of every cell and of all recipes, since their types keep them.
// claim: types keep the rest
pub fn sets_are_documents()
    ensures { SetsAreDocuments }
{}

/// A recipe is cleared, for every choice of units for its roles, exactly if four facts hold:
///
/// - each role that its tree names has a candidate;
/// - each node outside unit procedures is clear;
/// - each unit procedure is clear by itself on each unit that may run it, with every choice of units for its reserves;
/// - its reserves follow.
// claim: candidates
pub fn candidates_suffice()
    ensures { CandidatesSuffice }
{}

/// Two runs of the same events, settled after each and with none refused for want of memory, give the same outs and end in the same
/// plant: the record is a function of the events.
// claim: one record of the events
pub fn replays_agree()
    ensures { ReplaysAgree }
{}
