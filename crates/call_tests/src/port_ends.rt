//! The end of a port: its desk finishes, it is closed or cut and sealed, and the outs left are taken.
use crate::documents::A;
use crate::hub_script::assert_told;
use crate::ports::console;
use std::test::Fail;

/// All that a port is due is in its ring when it is sealed: so many are left, and so many are taken.
#[test]
fn eight_outs_are_left(rt: HostRuntime) -> Result<(), Fail> {
    assert_told(
        &rt,
        rt.alloc(),
        A,
        &[console(8)],
        "send 0 create A 1000
send 0 start 1
turn 0
turn 0
finish
seal 0
close 0
seal 0
take 0
take 0
take 0
take 0
take 0
take 0
take 0
take 0
take 0
seal 0
",
        "turn: handled
turn: handled
seal: Err(NotSealable)
close: Ok(())
seal: Ok(Some(8))
created 1 A 1000
ok start 1 running
begin 1 0 A
ask 1 0.0 R1
grant 1 0.0 R1
begin 1 0.0 MAKE
begin 1 0.0.0 CHARGE
start 1 0.0.0.0 R1 ADD
nothing
seal: Err(NotSealable)
0: create A 1000, 0 roles
0: start 1
batch 1: running
",
    )
}

/// A port isn't closed while an event of its desk remains. The other port goes on.
#[test]
fn events_remain(rt: HostRuntime) -> Result<(), Fail> {
    assert_told(
        &rt,
        rt.alloc(),
        A,
        &[console(16), console(16)],
        "send 0 create A 1000
turn 0
send 0 start 1
finish
close 0
turn 0
close 0
send 1 report R1 ADD done
turn 1
seal 0
cut 0
turn 0
cut 2
",
        "turn: handled
close: Err(EventsRemain)
turn: handled
close: Ok(())
turn: handled
seal: Ok(Some(8))
cut: Err(Closed)
turn: idle
cut: Err(UnknownPort)
0: create A 1000, 0 roles
0: start 1
1: report R1 ADD done, 0 outputs
batch 1: complete
",
    )
}

/// No event of a cut port is taken, and it can't be closed. The outs that wait are still put.
#[test]
fn cut_port_takes_nothing(rt: HostRuntime) -> Result<(), Fail> {
    assert_told(
        &rt,
        rt.alloc(),
        A,
        &[console(16), console(16)],
        "send 0 create A 1000
turn 0
send 0 start 1
finish
close 0
cut 0
turn 0
close 0
cut 0
history 0
send 1 report R1 ADD done
turn 1
take 1
seal 0
take 0
take 0
",
        "turn: handled
close: Err(EventsRemain)
cut: Ok(())
turn: idle
close: Err(Closed)
cut: Err(Closed)
history: 1
turn: handled
refused E4
seal: Ok(Some(1))
created 1 A 1000
nothing
0: create A 1000, 0 roles
1: report R1 ADD done, 0 outputs
batch 1: idle
",
    )
}

/// The port of a desk that was lost is cut and sealed, and there is no token.
#[test]
fn lost_desk(rt: HostRuntime) -> Result<(), Fail> {
    assert_told(
        &rt,
        rt.alloc(),
        A,
        &[console(2), console(2)],
        "send 0 create A 1000
lose all
seal 0
cut 0
turn 0
history 0
seal 0
turn 0
seal 0
seal 2
",
        "seal: Err(NotSealable)
cut: Ok(())
turn: idle
history: 0
seal: Ok(false)
turn: idle
seal: Err(NotSealable)
seal: Err(UnknownPort)
",
    )
}
