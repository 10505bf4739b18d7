//! Worked rows of the machine's definitions: runs with their records, recipes that are cleared and that aren't, records that
//! aren't safe, each for one reason, and acts that wait for something. Nothing builds on this crate.
//!
//! Nothing runs here. The functions are empty: their contracts are the rows, which the prover computes.
#![tactic(auto)]

ghost use Rattle.batch_examples.specs.Example.{NoUnitIsAskedFor, OneUnitIsAskedFor, PremisesCanBeMet, TwoUnitsAreAskedFor};

mod clearance;
mod runs;
mod safety;
mod settlement;
mod transfers;

pub use clearance::{
    act_runs_what_its_chart_runs, candidates_of_a_role, crossed_branches_are_cleared,
    each_branch_runs_a_phase, else_branch_has_the_circle, every_turn_runs_a_phase, header_as_unit,
    one_part_runs_a_phase, opposite_orders, phase_is_not_offered, same_phase_in_parallel,
    same_resource_twice, sets_of_recipes, share_above_capacity, unknown_need,
};
pub use runs::{
    abort_after_stop, abort_reset_start, act_states, bad_bindings, bound_units, choices,
    crossed_branches_without_circle, demo_is_expanded, earlier_state_shows, event_while_moves_pend,
    fault_holds_the_batch, held_ask_is_granted, hold_between_phases, hold_while_pausing,
    live_batch_limit, one_batch_to_complete, outputs, outputs_left_out, pause_and_resume,
    refused_events, release_before_begin, report_twice, scaled_quantity, second_batch_waits,
    shared_capacity, shares_of_several_units, stop_withdraws_asks, thousand_turns, want_of_memory,
};
pub use safety::{
    chains_go_on, held_past_capacity, not_empty_at_rest, phases_end, started_wrongly, steps_point,
    unit_not_held_above, units_told, waiting_in_a_circle, waits_end,
};
pub use settlement::{holders_at_work, waits_for_nothing};
pub use transfers::{
    follower_is_reserved, held_batch_hands_over, other_is_not_reserved, pass_is_told,
    reserved_units_are_ranked, steps_are_followed, stopping_batch_gives_back, unit_is_handed_over,
    unit_is_kept, unit_is_lost,
};

/// There are documents that meet the premises of the laws on records: a cell with two recipes that are cleared, though their
/// batches can point at each other.
// claim: premises met
pub fn premises_can_be_met()
    ensures { PremisesCanBeMet }
{}

/// A unit procedure asks for one unit of its unit, and not for none, nor for two.
// claim: units of a unit procedure
pub fn units_of_a_unit_procedure()
    ensures one { OneUnitIsAskedFor }
    ensures none { NoUnitIsAskedFor }
    ensures two { TwoUnitsAreAskedFor }
{}
