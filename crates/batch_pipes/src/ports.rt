//! The ends of desks' rings in the thread of the machine.
ghost use Rattle.std.specs.Prelude.{◌≡◌, [], OnOk};
ghost use Rattle.batch_pipes.specs.Opened.{ArePortsAdded};

use crate::fault::PipeFault;
use crate::flag::Flag;
use crate::input::Input;
use crate::input_order::InputOrder;
use crate::pace::Pace;
use crate::pipes::InputBytes;
use batch_serve::{Reader, Writer};
use std::alloc::{AllocError, Global};

/// The input of a desk, how its output goes on, and whether the desk is cut.
#[derive(Drop)]
pub(crate) struct DeskThreads {
    pub(crate) input: Input,
    /// Raised once the desk is cut.
    pub(crate) stop: Flag,
    pub(crate) pace: Pace,
    /// Why the desk was cut here.
    pub(crate) why: Option<PipeFault>,
    /// Whether it was reported that the desk is cut.
    pub(crate) is_told: bool,
}

impl DeskThreads {
    /// The state of a desk that isn't cut.
    pub(crate) fn new(input: Input, stop: Flag) -> DeskThreads {
        DeskThreads {
            input,
            stop,
            pace: Pace::new(),
            why: None,
            is_told: false,
        }
    }
}

/// The ends of all rings, and the threads of all desks, in the order of the desks.
#[derive(Drop)]
pub(crate) struct Ports<P: InputBytes> {
    pub(crate) readers: Vec<Reader<InputOrder<P>>>,
    pub(crate) writers: Vec<Writer>,
    pub(crate) threads: Vec<DeskThreads>,
}

impl<P: InputBytes> Ports<P> {
    /// The ports of no desk.
    pub(crate) fn new(alloc: Global) -> Ports<P>
        ensures readers { result.readers.items ≡ [] }
        ensures writers { result.writers.items ≡ [] }
        ensures threads { result.threads.items ≡ [] }
    {
        Ports {
            readers: Vec::new(alloc),
            writers: Vec::new(alloc),
            threads: Vec::new(alloc),
        }
    }

    /// Adds the ends and the threads of a desk.
    ///
    /// The error is that there is no memory for them.
    pub(crate) fn add(
        &mut self,
        reader: Reader<InputOrder<P>>,
        writer: Writer,
        threads: DeskThreads,
    ) -> Result<(), AllocError>
        ensures { OnOk result (ArePortsAdded reader writer self.old self.new) }
    {
        self.readers.push(reader)?;
        self.writers.push(writer)?;
        self.threads.push(threads)?;
        Ok(())
    }
}
