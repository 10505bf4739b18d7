//! Complaints of a stream or a file.
ghost use Rattle.std.specs.Prelude.{◌≡◌, ◌⊎◌};
ghost use Rattle.batch_verdicts.specs.Running.{fault_status, memory_status};

use batch_messages::shown;
use batch_verdicts::{FILE_FAULT, NO_MEMORY, OUT_OF_MEMORY, complain};
use std::alloc::Global;
use std::fmt::Display;
use std::io;
use std::io::Write;
use thiserror::Error;

/// A fault, and the reason that the stream gave.
#[derive(Debug, Error, Drop)]
#[error("{fault}: {reason}")]
struct Reasoned<T: Display> {
    fault: T,
    reason: io::Error,
}

/// A fault of the file at this path.
#[derive(Debug, Error, Drop)]
#[error("{path}: {fault}")]
struct FileFault<T: Display> {
    path: String,
    fault: T,
}

/// Reports the fault, with the stream's reason if it gave one, and gives the exit status.
pub(crate) fn complain_stream<T: Display + Drop, E: Write>(
    fault: T,
    reason: Option<io::Error>,
    status: u8,
    errors: &mut E,
) -> u8
    ensures { result ≡ status }
{
    match reason {
        Some(reason) => complain(errors, Reasoned { fault, reason }, status),
        None => complain(errors, fault, status),
    }
}

/// Reports the fault of the file at the path, and gives the exit status.
pub(crate) fn complain_file<T: Display + Drop, E: Write>(
    alloc: Global,
    path: &str,
    fault: T,
    errors: &mut E,
) -> u8
    ensures { (result ≡ fault_status) ⊎ (result ≡ memory_status) }
{
    match shown(alloc, path) {
        Ok(path) => complain(errors, FileFault { path, fault }, FILE_FAULT),
        Err(_) => complain(errors, OUT_OF_MEMORY, NO_MEMORY),
    }
}
