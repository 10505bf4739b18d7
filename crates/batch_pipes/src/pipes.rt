//! The places where the inputs and outputs of desks are opened.
ghost use Rattle.std.specs.Prelude.{is_ok, string_bytes};
ghost use Rattle.rtrb.specs.Ring.{SameConsumer, received, sent};
ghost use Rattle.batch_pipes.specs.Streams.{HandsOver, IsNew, IsWrittenOut};

use crate::fault::PipeFault;
use crate::reading::InputTask;
use crate::writing::OutputTask;
use crate::written::Written;
use std::alloc::Global;
use std::io::Write;

/// The bytes of the inputs of desks.
pub trait InputBytes {
    ghost use Rattle.std.specs.Prelude.{ℕ, List, Option, None};

    /// The bytes that the input of a path gives to its end, where they are known. Nobody can give those of a real file.
    ghost given: { List ℕ → Option (List ℕ) } = { λ _. None };
}

/// The place where the inputs of desks are opened, and read in the calling thread.
pub trait Pipes: InputBytes {
    /// A handle of the pipes, for another thread.
    fn another(&self) -> Self;

    /// Opens the task's input, and has it read by `InputTask::read`. Both may wait for whoever is at the other end.
    fn run_input(&self, alloc: Global, task: &mut InputTask<Self>) -> Result<(), PipeFault>
        requires { IsNew task.old }
        ensures { HandsOver (is_ok result) (Self.given (string_bytes task.old.path)) (sent task.old.ring) (sent task.new.ring) };
}

/// The place where the outputs of desks are opened, and written in the calling thread.
pub trait Outputs<W: Write + Drop> {
    ghost use Rattle.std.specs.Prelude.{ℕ, List, Option, None, ⊤};
    ghost use Rattle.batch_pipes.specs.declared.written.Written.{Written as OneWritten};

    /// The bytes in the output of a path when it is opened, where they are known. Nobody can give those of a real file.
    ghost stands: { List ℕ → Option (List ℕ) } = { λ _. None };

    /// The results that may be handed back for the output of a path. Only the clause of `run_output` gives this relation. So in code over
    /// any `Outputs` each result that is known to be in it came from `run_output`.
    ghost hands_back: { List ℕ → OneWritten W → Type 0 } = { λ _ _. ⊤ };

    /// Opens the task's output, and has it written by `OutputTask::write`. Both may wait for whoever is at the other end.
    fn run_output(&self, alloc: Global, task: &mut OutputTask) -> Written<W>
        ensures written { IsWrittenOut W.contents (stands (string_bytes task.old.path)) task.old.front.items (received task.old.ring) (received task.new.ring) result }
        ensures handed { hands_back (string_bytes task.old.path) result }
        ensures ring { SameConsumer task.old.ring task.new.ring };
}
