//! Gates of the tests.
use batch_desk::Gate;
use std::alloc::Global;
use std::sync::Arc;
use std::sync::atomic::{AtomicU64, Ordering};
use std::thread;

/// A gate that lets every turn be made, and lets other threads run before it.
#[derive(Drop)]
pub(crate) struct Open;

impl Gate for Open {
    ghost passes = { λ _ _ _ _. Unit {0} };

    fn lets_pass(&mut self, _turn: u64) -> bool {
        thread::yield_now();
        true
    }
}

/// A gate that sets its own flag at its first turn, and looks at the other's until that is set, or many times.
#[derive(Drop)]
pub(crate) struct Meeting {
    pub(crate) mine: Arc<AtomicU64, Global>,
    pub(crate) other: Arc<AtomicU64, Global>,
    /// How many gates saw the other's flag.
    pub(crate) met: Arc<AtomicU64, Global>,
}

impl Gate for Meeting {
    ghost passes = { λ _ _ _ _. Unit {0} };

    fn lets_pass(&mut self, turn: u64) -> bool {
        if turn == 0 {
            self.mine.store(1, Ordering::SeqCst);
            for _ in 0..10_000_000u64 {
                if self.other.load(Ordering::SeqCst) == 1 {
                    self.met.fetch_add(1, Ordering::SeqCst);
                    break;
                }
                thread::yield_now();
            }
        }
        thread::yield_now();
        true
    }
}
