//! Turns: the events taken, and the outs made and put, with room in the rings and without.
use crate::documents::{A, Z};
use crate::hub_script::assert_told;
use crate::ports::{console, link};
use std::test::Fail;

#[test]
fn turn_handles(rt: HostRuntime) -> Result<(), Fail> {
    assert_told(
        &rt,
        rt.alloc(),
        A,
        &[console(2)],
        "turn 0
send 0 create A 1000
turn 0
take 0
turn 0
",
        "turn: idle
turn: handled
created 1 A 1000
turn: idle
",
    )
}

#[test]
fn full_ring_gives_the_event_back(rt: HostRuntime) -> Result<(), Fail> {
    assert_told(
        &rt,
        rt.alloc(),
        A,
        &[console(1), console(1)],
        "send 0 report R1 ADD done
send 0 start 7
turn 0
history 0
take 0
take 0
turn 1
take 1
turn 2
waiting 2
record 0
",
        "full: start 7
turn: handled
history: 1
refused E4
nothing
turn: idle
nothing
turn: UnknownPort
waiting: None
record: 1
",
    )
}

#[test]
fn outs_wait_for_a_place(rt: HostRuntime) -> Result<(), Fail> {
    assert_told(
        &rt,
        rt.alloc(),
        A,
        &[console(1)],
        "send 0 create A 1000
turn 0
take 0
send 0 start 1
turn 0
waiting 0
turn 0
waiting 0
take 0
turn 0
take 0
turn 0
take 0
turn 0
waiting 0
take 0
turn 0
take 0
turn 0
take 0
turn 0
waiting 0
take 0
take 0
",
        "turn: handled
created 1 A 1000
turn: handled
waiting: Some(6)
turn: idle
waiting: Some(6)
ok start 1 running
turn: idle
begin 1 0 A
turn: idle
ask 1 0.0 R1
turn: idle
waiting: Some(3)
grant 1 0.0 R1
turn: idle
begin 1 0.0 MAKE
turn: idle
begin 1 0.0.0 CHARGE
turn: idle
waiting: Some(0)
start 1 0.0.0.0 R1 ADD
nothing
",
    )
}

/// A start of this recipe has 164 moves. An event that comes between is taken at the fourth turn.
#[test]
fn moves_go_on_at_the_next_turns(rt: HostRuntime) -> Result<(), Fail> {
    assert_told(
        &rt,
        rt.alloc(),
        Z,
        &[console(8), console(8)],
        "send 0 create Z 1000
turn 0
send 0 start 1
turn 0
send 1 hold 1
turn 1
turn 1
record 0
history 0
turn 1
history 0
waiting 0
waiting 1
",
        "turn: handled
turn: moves left
turn: moves left
turn: handled
record: 166
history: 2
turn: handled
history: 3
waiting: Some(158)
waiting: Some(157)
",
    )
}

/// The port of a unit gets the starts of its phases, the commands sent to them, and the replies to its own events.
#[test]
fn ports_of_units(rt: HostRuntime) -> Result<(), Fail> {
    assert_told(
        &rt,
        rt.alloc(),
        A,
        &[console(32), link(0, 4), link(1, 4)],
        "send 0 create A 1000
send 0 start 1
send 0 hold 1
turn 0
turn 0
turn 0
send 1 report R1 ADD held
turn 1
turn 2
take 1
take 1
take 1
take 1
take 2
",
        "turn: handled
turn: handled
turn: handled
turn: handled
turn: idle
start 1 0.0.0.0 R1 ADD
send 1 0.0.0.0 R1 ADD hold
ok report R1 ADD held 1 0.0.0.0 holding
nothing
nothing
",
    )
}
