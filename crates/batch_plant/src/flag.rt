//! The flag that ends a plant's loops.
use batch_desk::{Gate, LoopEnd};
use std::alloc::{AllocError, Global};
use std::sync::Arc;
use std::sync::atomic::{AtomicU64, Ordering};

/// A flag that the workers of a plant share. Once it is raised, no worker makes a turn.
#[derive(Drop)]
pub(crate) struct Flag(Arc<AtomicU64, Global>);

impl Flag {
    pub(crate) fn new(alloc: Global) -> Result<Flag, AllocError> {
        Ok(Flag(Arc::new(alloc, AtomicU64::new(0))?))
    }

    /// A handle of the flag, for another worker.
    pub(crate) fn another(&self) -> Result<Flag, AllocError> {
        Ok(Flag(Arc::try_clone(&self.0)?))
    }

    fn raise(&self) {
        self.0.store(1, Ordering::SeqCst);
    }

    fn is_raised(&self) -> bool {
        self.0.load(Ordering::SeqCst) == 1
    }
}

/// The gate of a worker: it lets no turn be made once the flag is raised.
#[derive(Drop)]
pub(crate) struct FlagGate<G> {
    pub(crate) gate: G,
    pub(crate) flag: Flag,
}

impl<G> FlagGate<G> {
    /// Raises the flag.
    pub(crate) fn shut(&self) {
        self.flag.raise();
    }

    /// Raises the flag unless the worker's loop is done.
    pub(crate) fn shut_unless_done(&self, end: LoopEnd) {
        if end != LoopEnd::Done {
            self.shut();
        }
    }
}

impl<G: Gate> Gate for FlagGate<G> {
    ghost passes = { λ _ _ _ _. Unit {0} };

    fn lets_pass(&mut self, turn: u64) -> bool {
        !self.flag.is_raised() && self.gate.lets_pass(turn)
    }
}
