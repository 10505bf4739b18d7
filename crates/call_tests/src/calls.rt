//! Events at any point, and the engine's answers on acts and values between them.
use crate::documents::{A, L};
use crate::script::assert_told;
use std::test::Fail;

#[test]
fn event_while_moves_pend(rt: HostRuntime) -> Result<(), Fail> {
    assert_told(
        &rt,
        rt.alloc(),
        A,
        "accept create A 1000
settled
move
accept start 1
settled
accept hold 1
accept start 9
accept create ZZ 1
accept create A 1000
accept remove 1
accept report R1 ADD done
settled
state 1 0
state 1 0.0
state 1 0.0.0.0
moves
settled
",
        "created 1 A 1000
settled: true
no move
ok start 1 running
settled: false
refused E10
refused E10
refused E10
refused E10
refused E10
refused E10
settled: false
state 1 0: running
state 1 0.0: idle
state 1 0.0.0.0: idle
begin 1 0 A
ask 1 0.0 R1
grant 1 0.0 R1
begin 1 0.0 MAKE
begin 1 0.0.0 CHARGE
start 1 0.0.0.0 R1 ADD
settled: true
",
    )
}

#[test]
fn value_of_a_batch(rt: HostRuntime) -> Result<(), Fail> {
    assert_told(
        &rt,
        rt.alloc(),
        L,
        "accept create L 1000
accept start 1
moves
value 1 X
accept report R1 ADD done X=1
value 1 X
value 1 Y
value 2 X
",
        "created 1 L 1000
ok start 1 running
begin 1 0 L
ask 1 0.0 R1
grant 1 0.0 R1
begin 1 0.0 MAKE
begin 1 0.0.0 CHARGE
start 1 0.0.0.0.0 R1 ADD
value 1 X: Some(0)
ok report R1 ADD done 1 0.0.0.0.0 running
value 1 X: Some(1)
value 1 Y: None
value 2 X: None
",
    )
}

#[test]
fn event_that_would_create(rt: HostRuntime) -> Result<(), Fail> {
    assert_told(
        &rt,
        rt.alloc(),
        A,
        "would create A 1000
would create ZZ 1000
would start 1
would remove 1
would report R1 ADD done
accept create A 1000
accept start 1
would create A 1000
moves
would create A 1000
",
        "would create: true
would create: false
would create: false
would create: false
would create: false
created 1 A 1000
ok start 1 running
would create: false
begin 1 0 A
ask 1 0.0 R1
grant 1 0.0 R1
begin 1 0.0 MAKE
begin 1 0.0.0 CHARGE
start 1 0.0.0.0 R1 ADD
would create: true
",
    )
}
