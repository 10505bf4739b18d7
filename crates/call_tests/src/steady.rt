//! Steady units, by the answers of a simulator of them.
use crate::simulator::assert_units;
use std::test::Fail;

#[test]
fn least_number_reports_first(rt: HostRuntime) -> Result<(), Fail> {
    assert_units(
        &rt,
        rt.alloc(),
        &[3],
        2,
        "order 0 2 start
order 0 1 start
tick 0
tick 0
tick 0
tick 0
",
        "order: true
order: true
tick: none
tick: 1 done
tick: 2 done
tick: none
",
    )
}

#[test]
fn held_phase_keeps_its_ticks(rt: HostRuntime) -> Result<(), Fail> {
    assert_units(
        &rt,
        rt.alloc(),
        &[1],
        3,
        "order 0 0 start
tick 0
order 0 0 hold
tick 0
tick 0
order 0 0 restart
tick 0
tick 0
tick 0
",
        "order: true
tick: none
order: true
tick: 0 held
tick: none
order: true
tick: 0 running
tick: none
tick: 0 done
",
    )
}

/// After a resume nothing is answered.
#[test]
fn paused_phase_runs_on(rt: HostRuntime) -> Result<(), Fail> {
    assert_units(
        &rt,
        rt.alloc(),
        &[1],
        2,
        "order 0 0 start
tick 0
order 0 0 pause
tick 0
tick 0
order 0 0 resume
tick 0
tick 0
",
        "order: true
tick: none
order: true
tick: 0 paused
tick: none
order: true
tick: 0 done
tick: none
",
    )
}

/// Both have ended then, so they take no command; a start has a phase run anew.
#[test]
fn stop_and_abort_end_a_phase(rt: HostRuntime) -> Result<(), Fail> {
    assert_units(
        &rt,
        rt.alloc(),
        &[2],
        1,
        "order 0 0 start
order 0 1 start
order 0 0 abort
order 0 1 stop
tick 0
tick 0
order 0 0 hold
order 0 1 pause
tick 0
order 0 1 start
tick 0
",
        "order: true
order: true
order: true
order: true
tick: 0 aborted
tick: 1 stopped
order: true
order: true
tick: none
order: true
tick: 1 done
",
    )
}

/// A phase that the unit doesn't have, one that isn't started and one that is done take no command.
#[test]
fn orders_passed_over(rt: HostRuntime) -> Result<(), Fail> {
    assert_units(
        &rt,
        rt.alloc(),
        &[1],
        0,
        "order 0 1 start
order 0 0 stop
tick 0
order 0 0 start
tick 0
order 0 0 abort
tick 0
",
        "order: true
order: true
tick: none
order: true
tick: 0 done
order: true
tick: none
",
    )
}

#[test]
fn units_by_number(rt: HostRuntime) -> Result<(), Fail> {
    assert_units(
        &rt,
        rt.alloc(),
        &[1, 2],
        1,
        "order 1 1 start
order 2 0 start
tick 0
tick 1
tick 2
",
        "order: true
order: false
tick: none
tick: 1 done
tick: none
",
    )
}
