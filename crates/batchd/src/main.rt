//! The batch server.
#![tactic(auto)]

use batch_program::run_process;
use std::process::ExitCode;

fn main(rt: HostRuntime) -> ExitCode {
    run_process(&rt, &rt)
}
