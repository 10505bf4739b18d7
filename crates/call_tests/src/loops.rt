//! The loops of a hub and of a console, one after the other in one thread.
use crate::documents::{A, Z};
use crate::hub_script::assert_told;
use crate::ports::console;
use std::alloc::Global;
use std::process::Abort;
use std::test::Fail;

/// Checks that the answers of a hub of two consoles to the script are the text expected.
fn assert_looped(rt: &impl Abort, alloc: Global, script: &str, expected: &str) -> Result<(), Fail> {
    let plans = [console(16), console(16)];
    assert_told(rt, alloc, A, &plans, script, expected)
}

/// The ports have their turns one after the other. The loop isn't done before the outs of the last moves are put for the first port.
#[test]
fn hub_turns_in_a_circle(rt: HostRuntime) -> Result<(), Fail> {
    assert_looped(
        &rt,
        rt.alloc(),
        "send 0 create A 1000
send 0 start 1
hub 1 3 shut
history 0
hub 1 3 open
history 0
send 1 report R1 ADD done
hub 1 1 open
history 0
hub 1 2 open
history 0
waiting 0
hub 2 1 open
waiting 0
hub 1 0 shut
hub 2 9 open
",
        "hub: turns out
history: 0
hub: turns out
history: 2
hub: turns out
history: 2
hub: turns out
history: 3
waiting: Some(5)
hub: turns out
waiting: Some(0)
hub: done
hub: turns out
",
    )
}

#[test]
fn console_waits_for_an_answer(rt: HostRuntime) -> Result<(), Fail> {
    assert_looped(
        &rt,
        rt.alloc(),
        "console 2 3 shut
hub 2 4 open
history 0
console 2 9 open
hub 2 4 open
history 0
take 0
take 0
console 0 0 shut
",
        "console: turns out
hub: turns out
history: 0
console: turns out
hub: turns out
history: 1
created 1 A 1000
nothing
console: done
",
    )
}

/// A turn takes one out. So twelve turns take the outs of a start and of a report, of which the last is `state 1 complete`.
#[test]
fn console_starts_and_counts(rt: HostRuntime) -> Result<(), Fail> {
    assert_looped(
        &rt,
        rt.alloc(),
        "send 0 create A 1000
hub 1 1 open
console 1 1 open
hub 1 1 open
history 0
send 1 report R1 ADD done
hub 1 3 open
console 1 11 open
console 1 1 open
take 0
",
        "hub: turns out
console: turns out
hub: turns out
history: 2
hub: done
console: turns out
console: done
nothing
",
    )
}

/// There is no recipe A, so the console's create is refused.
#[test]
fn console_ends_by_a_refusal(rt: HostRuntime) -> Result<(), Fail> {
    let plans = [console(16), console(16)];
    let script = "console 1 1 open
hub 1 1 open
console 1 9 open
history 0
";
    let expected = "console: turns out
hub: turns out
console: refused
history: 1
";
    assert_told(&rt, rt.alloc(), Z, &plans, script, expected)
}
