//! Driving units of the demo cell that report wrongly, or not at all. A phase of R1 runs at first.
use crate::driven::assert_scripted;
use crate::drivers::Answer;
use batch_matrix::Report;
use std::test::Fail;

/// The first phase is done.
const DONE: Answer = Some((0, Report::Done));

#[test]
fn silent_units(rt: HostRuntime) -> Result<(), Fail> {
    assert_scripted(&rt, rt.alloc(), &[&[], &[]], "drive 100", "driven\n")
}

/// Nothing comes of a phase that the unit doesn't have; reports of phases that aren't live are refused.
#[test]
fn invented_reports(rt: HostRuntime) -> Result<(), Fail> {
    assert_scripted(
        &rt,
        rt.alloc(),
        &[
            &[
                Some((3, Report::Done)),
                Some((65535, Report::Fault)),
                DONE,
                Some((1, Report::Fault)),
            ],
            &[DONE, None, None, None, Some((3, Report::Held))],
        ],
        "drive 1
drive 1
drive 1
drive 2
",
        "refused E4
driven
driven
ok report R1 ADD done 1 0.0.0.0 running
end 1 0.0.0
end 1 0.0
release 1 0.0 R1
end 1 0
state 1 complete
driven
refused E4
driven
",
    )
}

/// The second of two reports of one end is refused.
#[test]
fn reported_twice(rt: HostRuntime) -> Result<(), Fail> {
    assert_scripted(
        &rt,
        rt.alloc(),
        &[&[DONE, DONE], &[]],
        "drive 3",
        "ok report R1 ADD done 1 0.0.0.0 running
end 1 0.0.0
end 1 0.0
release 1 0.0 R1
end 1 0
state 1 complete
refused E4
driven
",
    )
}

/// A fault holds the batch, and a held phase can't be done.
#[test]
fn fault_holds_the_batch(rt: HostRuntime) -> Result<(), Fail> {
    assert_scripted(
        &rt,
        rt.alloc(),
        &[
            &[Some((0, Report::Fault)), Some((0, Report::Held)), DONE],
            &[],
        ],
        "drive 4",
        "ok report R1 ADD fault 1 0.0.0.0 holding
send 1 0.0.0.0 R1 ADD hold
ok report R1 ADD held 1 0.0.0.0 holding
state 1 held
refused E5 held
driven
",
    )
}

/// In a round the units report in the order of their numbers; a unit beyond those of the cell has no ticks.
#[test]
fn units_in_their_order(rt: HostRuntime) -> Result<(), Fail> {
    assert_scripted(
        &rt,
        rt.alloc(),
        &[&[Some((0, Report::Held))], &[DONE], &[DONE, DONE]],
        "drive 2",
        "refused E5 running
refused E4
driven
",
    )
}

/// A unit without a driver sends nothing.
#[test]
fn units_without_drivers(rt: HostRuntime) -> Result<(), Fail> {
    assert_scripted(
        &rt,
        rt.alloc(),
        &[],
        "drive 2
hold 1
settled
",
        "driven
ok hold 1 holding
send 1 0.0.0.0 R1 ADD hold
settled: true
",
    )
}
