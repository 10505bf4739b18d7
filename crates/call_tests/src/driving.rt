//! Driving the demo cell, whose units work steadily: a phase runs two ticks. One of R1 runs at first.
use crate::driven::assert_steady;
use std::test::Fail;

/// One round writes nothing, a second the outs of the phase's end.
#[test]
fn two_ticks_a_phase(rt: HostRuntime) -> Result<(), Fail> {
    assert_steady(
        &rt,
        rt.alloc(),
        "drive 1
drive 1
settled
drive 100
",
        "driven
ok report R1 ADD done 1 0.0.0.0 running
end 1 0.0.0
end 1 0.0
release 1 0.0 R1
end 1 0
state 1 complete
driven
settled: true
driven
",
    )
}

/// The start that comes of a report is given to the unit, so that the second batch runs too.
#[test]
fn second_batch_is_driven(rt: HostRuntime) -> Result<(), Fail> {
    assert_steady(
        &rt,
        rt.alloc(),
        "create A 1000
start 2
drive 0
drive 2
drive 2
",
        "created 2 A 1000
ok start 2 running
begin 2 0 A
ask 2 0.0 R1
driven
ok report R1 ADD done 1 0.0.0.0 running
end 1 0.0.0
end 1 0.0
release 1 0.0 R1
end 1 0
state 1 complete
grant 2 0.0 R1
begin 2 0.0 MAKE
begin 2 0.0.0 CHARGE
start 2 0.0.0.0 R1 ADD
driven
ok report R1 ADD done 2 0.0.0.0 running
end 2 0.0.0
end 2 0.0
release 2 0.0 R1
end 2 0
state 2 complete
driven
",
    )
}

/// After a resume the phase runs on from its ticks.
#[test]
fn pause_and_resume(rt: HostRuntime) -> Result<(), Fail> {
    assert_steady(
        &rt,
        rt.alloc(),
        "drive 1
pause 1
drive 10
resume 1
drive 1
",
        "driven
ok pause 1 pausing
send 1 0.0.0.0 R1 ADD pause
ok report R1 ADD paused 1 0.0.0.0 pausing
state 1 paused
driven
ok resume 1 running
send 1 0.0.0.0 R1 ADD resume
ok report R1 ADD done 1 0.0.0.0 running
end 1 0.0.0
end 1 0.0
release 1 0.0 R1
end 1 0
state 1 complete
driven
",
    )
}

#[test]
fn hold_restart_and_stop(rt: HostRuntime) -> Result<(), Fail> {
    assert_steady(
        &rt,
        rt.alloc(),
        "hold 1
drive 10
restart 1
drive 1
stop 1
drive 1
",
        "ok hold 1 holding
send 1 0.0.0.0 R1 ADD hold
ok report R1 ADD held 1 0.0.0.0 holding
state 1 held
driven
ok restart 1 restarting
send 1 0.0.0.0 R1 ADD restart
ok report R1 ADD running 1 0.0.0.0 restarting
state 1 running
driven
ok stop 1 stopping
send 1 0.0.0.0 R1 ADD stop
ok report R1 ADD stopped 1 0.0.0.0 stopping
release 1 0.0 R1
state 1 stopped
driven
",
    )
}
