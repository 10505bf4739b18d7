//! Why a text gives no chart.
ghost use Rattle.std.specs.Prelude.{◌≡◌};
ghost use Rattle.batch_reader.specs.declared.chart_fault.Stop.TheVariants.{Memory};

use std::alloc::{AllocError, AllocFailed};
use thiserror::Error;

/// Why a text gives no chart. Offsets count its bytes from 0.
#[derive(Clone, Copy, Debug, Error)]
pub enum ChartFault {
    /// The length of the longest prefix of the text that begins some chart, whatever its numbers.
    #[error("not a chart at byte {0}")]
    NotAChart(usize),
    /// The start of the first number out of range, in a text that is a chart but for that.
    #[error("the number at byte {0} is out of range")]
    OutOfRange(usize),
    #[error("out of memory")]
    Memory,
}

/// Why a text can't be read on.
#[derive(Clone, Copy)]
pub enum Stop {
    NotAChart,
    Memory,
}

impl From<AllocError> for Stop {
    ghost from_gives = { λ _ stop. stop ≡ Memory };

    fn from(_error: AllocError) -> Stop {
        Stop::Memory
    }
}

impl<T: Drop> From<AllocFailed<T>> for Stop {
    ghost from_gives = { λ _ stop. stop ≡ Memory };

    fn from(_error: AllocFailed<T>) -> Stop {
        Stop::Memory
    }
}
