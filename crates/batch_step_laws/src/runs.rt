//! Records, and the plants that they lead to.
ghost use Rattle.batch_step_laws.specs.Laws.{PlantsComeToRest, PlantsStand, RecordsGoOnByMoves, RecordsGoOnByReplies, RunsComeToRest, SettlingsEnd};

/// A record that leads to a plant goes on by the plant's next move, or by its reply to an event.
// claim: records go on
pub fn records_go_on()
    ensures by_moves { RecordsGoOnByMoves }
    ensures by_replies { RecordsGoOnByReplies }
{}

/// In every plant that is led to, each batch is of a control recipe of one of the recipes, its rest can remain of that, and batch numbers rise.
// claim: plants stand
pub fn plants_stand()
    ensures { PlantsStand }
{}

/// In a plant that is led to, no move is possible after as many moves as the work left.
// claim: settlings end
pub fn settlings_end()
    ensures { SettlingsEnd }
{}

/// Every plant that is led to comes by moves to one with no next move.
// claim: plants come to rest
pub fn plants_come_to_rest()
    ensures { PlantsComeToRest }
{}

/// The record of a run of any events leads to a plant with no next move.
// claim: plants come to rest
pub fn runs_come_to_rest()
    ensures { RunsComeToRest }
{}
