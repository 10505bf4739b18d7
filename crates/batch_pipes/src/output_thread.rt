//! The thread of a desk's output, and its promise.
ghost use Rattle.std.specs.Prelude.{◌≡◌, IfOk};

use crate::fault::DesksFault;
use crate::pipes::Outputs;
use crate::writing::{OutputEnd, OutputTask, run_output};
use std::alloc::Global;
use std::io::Write;
use std::snapshot::Snapshot;
use std::thread;
use std::thread::{Promise, PromisedHandle, Threads};

/// The promise of the thread of an output, about its result.
#[derive(Drop)]
pub(crate) struct OutputPromise<P: Drop> {
    pub(crate) pipes: Snapshot<P>,
    pub(crate) task: Snapshot<OutputTask>,
}

impl<W: Write + Drop, P: Outputs<W> + Drop> Promise<OutputEnd<W>> for OutputPromise<P> {
    ghost use Rattle.batch_pipes.specs.OutputEnds.{IsHandedBack, IsOutputRun};

    ghost kept_by = { λ p r. IsOutputRun (IsHandedBack W.contents P.stands P.hands_back) p.task.value r };
}

pub(crate) type OutputHandle<W, P> = PromisedHandle<OutputEnd<W>, OutputPromise<P>>;

/// Starts the thread of an output.
///
/// The error is that it can't be started.
pub(crate) fn start_output<
    T: Threads,
    W: Write + Send + Drop + 'static,
    P: Outputs<W> + Send + Drop + 'static,
>(threads: &T, alloc: Global, pipes: P, task: OutputTask) -> Result<OutputHandle<W, P>, DesksFault>
    ensures { IfOk result (λ handle. handle.promise.task.value ≡ task) }
{
    let promise = OutputPromise {
        pipes: Snapshot::of(&pipes),
        task: Snapshot::of(&task),
    };
    match thread::spawn_with(threads, promise, move || run_output(alloc, pipes, task)) {
        Ok(handle) => Ok(handle),
        Err(_) => Err(DesksFault::Thread),
    }
}
