//! The thread of a desk's input, as the thread of the machine sees it.
ghost use Rattle.batch_pipes.specs.Kept.{IsReaderKept};
ghost use Rattle.batch_pipes.specs.Streams.{IsNew};

use crate::fault::{DesksFault, PipeFault};
use crate::flag::Flag;
use crate::pipes::Pipes;
use crate::reading::{InputTask, run_input};
use batch_serve::{Reader, ReaderMessage};
use rtrb::Protocol;
use std::alloc::Global;
use std::thread;
use std::thread::{JoinHandle, Threads};

/// The thread of an input.
#[derive(Drop)]
struct InputThread {
    handle: JoinHandle<Option<PipeFault>>,
    // raised once the thread has nothing more to do than to end
    done: Flag,
}

/// The input of a desk.
#[derive(Drop)]
pub(crate) struct Input {
    // the thread that hands it over, until it has nothing more to do
    thread: Option<InputThread>,
    // why that thread ended before its time
    fault: Option<PipeFault>,
}

impl Input {
    /// The input of a desk that has none.
    pub(crate) fn none() -> Input {
        Input {
            thread: None,
            fault: None,
        }
    }

    /// Starts the thread of an input. The flag is the task's.
    ///
    /// The error is that it can't be started.
    pub(crate) fn start<T: Threads, P: Pipes + Send + Drop + 'static>(
        threads: &T,
        alloc: Global,
        pipes: P,
        task: InputTask<P>,
        done: Flag,
    ) -> Result<Input, DesksFault>
        requires { IsNew task }
    {
        match thread::spawn(threads, move || run_input(alloc, pipes, task)) {
            Ok(handle) => Ok(Input {
                thread: Some(InputThread { handle, done }),
                fault: None,
            }),
            Err(_) => Err(DesksFault::Thread),
        }
    }

    /// The fault of the input, once all lines before it came. A thread that has nothing more to do is joined.
    pub(crate) fn poll<T: Threads, O: Protocol<ReaderMessage>>(
        &mut self,
        threads: &T,
        reader: &mut Reader<O>,
    ) -> Option<PipeFault>
        ensures { IsReaderKept reader.old reader.new }
    {
        self.join_if_done(threads);
        let fault = self.fault?;
        if reader.ring.slots() > 0 {
            return None;
        }
        Some(fault)
    }

    /// Joins the thread, if it has nothing more to do.
    fn join_if_done<T: Threads>(&mut self, threads: &T) {
        if !self.is_done() {
            return;
        }
        if let Some(thread) = self.thread.take() {
            self.fault = thread.handle.join(threads);
        }
    }

    fn is_done(&self) -> bool {
        match &self.thread {
            Some(thread) => thread.done.is_raised(),
            None => false,
        }
    }
}
