//! The pipes of the process.
use batch_pipes::{InputBytes, InputTask, OutputTask, Outputs, PipeFault, Pipes, Written};
use batch_serve::Pause;
use std::alloc::Global;
use std::fs::{File, OpenOptions};
use std::thread;
use std::time::Duration;

/// Pipes, terminals and files that the runtime opens.
#[derive(Drop)]
pub(crate) struct FilePipes {
    clock: HostRuntime,
    // how long the thread of a desk waits at most, in microseconds
    most: u32,
}

impl FilePipes {
    /// The pipes of a server of so many desks.
    pub(crate) fn new(clock: HostRuntime, desks: usize) -> FilePipes {
        let desks = u32::try_from(desks).unwrap_or(u32::MAX);
        FilePipes {
            clock,
            most: desks.saturating_mul(FOR_A_DESK).max(MOST).min(MOST_OF_ALL),
        }
    }

    /// How the machine's thread waits.
    pub(crate) fn rest(&self) -> GrowingPause {
        GrowingPause::new(self.clock, MOST)
    }

    /// How a desk's thread waits.
    fn desk_rest(&self) -> GrowingPause {
        GrowingPause::new(self.clock, self.most)
    }
}

impl InputBytes for FilePipes {}

impl Pipes for FilePipes {
    fn another(&self) -> FilePipes {
        FilePipes {
            clock: self.clock,
            most: self.most,
        }
    }

    fn run_input(&self, alloc: Global, task: &mut InputTask<FilePipes>) -> Result<(), PipeFault> {
        let opened = OpenOptions::new()
            .read(true)
            .write(task.stays())
            .open(&self.clock, task.path());
        match opened {
            Ok(file) => task.read(alloc, file, self.desk_rest()),
            Err(error) => Err(PipeFault::InputUnopened(error)),
        }
    }
}

impl Outputs<File> for FilePipes {
    /// A file is written behind its contents.
    fn run_output(&self, alloc: Global, task: &mut OutputTask) -> Written<File> {
        let opened = OpenOptions::new()
            .append(true)
            .open(&self.clock, task.path());
        match opened {
            Ok(file) => task.write(alloc, file, self.desk_rest()),
            Err(error) => Written::unopened(PipeFault::OutputUnopened(error)),
        }
    }
}

/// The part of the time without work that a pause takes.
const PART: u32 = 16;

/// The shortest pause, in microseconds.
const LEAST: u32 = 1_000;

/// The longest pause of the machine's thread, in microseconds: so much later it may see the first line after a silence.
const MOST: u32 = 10_000;

/// The longest pause of a desk's thread, in microseconds for each desk: so many desks make no more pauses a second than a dozen.
const FOR_A_DESK: u32 = 800;

/// The longest pause of a desk's thread, however many desks there are, in microseconds.
const MOST_OF_ALL: u32 = 50_000;

/// Waits for a millisecond after some work, and longer the longer there was none, so that idle desks cost little.
#[derive(Drop)]
pub(crate) struct GrowingPause {
    clock: HostRuntime,
    // in microseconds
    most: u32,
    // for how many microseconds it waited since the last work
    idle: u32,
}

impl GrowingPause {
    fn new(clock: HostRuntime, most: u32) -> GrowingPause {
        GrowingPause {
            clock,
            most,
            idle: 0,
        }
    }
}

impl Pause for GrowingPause {
    fn pause(&mut self) -> bool {
        let time = (self.idle / PART).max(LEAST).min(self.most);
        thread::sleep(&self.clock, Duration::from_micros(u64::from(time)));
        self.idle = self.idle.saturating_add(time);
        true
    }

    fn is_over(&mut self) -> bool {
        false
    }

    fn note_work(&mut self) {
        self.idle = 0;
    }
}
