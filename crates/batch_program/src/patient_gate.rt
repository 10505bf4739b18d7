//! The gate of a worker of the program.
use batch_desk::Gate;
use std::thread;
use std::time::Duration;

/// How often a worker rests: at every turn of this many.
const TURNS_TO_A_REST: u64 = 100;

/// Lets each turn pass, and rests for a millisecond at every 100th, so that a worker that has nothing to do leaves the processor
/// to the others.
#[derive(Drop)]
pub(crate) struct PatientGate(pub(crate) HostRuntime);

impl Gate for PatientGate {
    ghost passes = { λ _ _ _ _. Unit {0} };

    fn lets_pass(&mut self, turn: u64) -> bool {
        if turn % TURNS_TO_A_REST == TURNS_TO_A_REST - 1 {
            thread::sleep(&self.0, Duration::from_millis(1));
        }
        true
    }
}
