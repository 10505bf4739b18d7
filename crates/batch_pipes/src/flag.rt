//! A flag that two threads share.
use std::alloc::{AllocError, Global};
use std::sync::Arc;
use std::sync::atomic::{AtomicU64, Ordering};

/// A flag that two threads share. Once raised it stays so.
#[derive(Drop)]
pub(crate) struct Flag(Arc<AtomicU64, Global>);

impl Flag {
    /// A flag that isn't raised.
    pub(crate) fn new(alloc: Global) -> Result<Flag, AllocError> {
        Ok(Flag(Arc::new(alloc, AtomicU64::new(0))?))
    }

    /// A flag that isn't raised, for two threads.
    pub(crate) fn pair(alloc: Global) -> Result<(Flag, Flag), AllocError> {
        let flag = Flag::new(alloc)?;
        let other = flag.another()?;
        Ok((flag, other))
    }

    /// A handle of the flag, for another thread.
    pub(crate) fn another(&self) -> Result<Flag, AllocError> {
        Ok(Flag(Arc::try_clone(&self.0)?))
    }

    pub(crate) fn raise(&self) {
        self.0.store(1, Ordering::SeqCst);
    }

    pub(crate) fn is_raised(&self) -> bool {
        self.0.load(Ordering::SeqCst) == 1
    }
}
