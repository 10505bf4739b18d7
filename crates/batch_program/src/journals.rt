//! Opening journals.
ghost use Rattle.std.specs.Prelude.{◌≡◌, ℕ, List, [], IfOk, ⊤};

use batch_journal::{Disk, FileDisk};
use batch_verdicts::FilesOf;
use std::io;
use std::time::Clock;

/// A place where journals are opened.
pub trait Journals {
    type File: Disk + Drop;

    type Time: Clock + Drop;

    // The file that is opened at a path, as far as it is known.
    ghost opens: { Self → List ℕ → Self.File → Type 0 };

    /// Opens the journal at the path, and makes it if it is missing. The error is `WouldBlock` if another process has it, and else that of
    /// the system.
    fn open_journal(&self, path: &str) -> io::Result<Self::File>
        ensures opened { IfOk result (λ file. opens self.now path.now file) }
        // After a restart a read returns the bytes on the disk, and none of them was given on.
        ensures fresh { IfOk result (λ file. Self.File.is_disk file → (Self.File.durable file ≡ Self.File.seen file) × (Self.File.given file ≡ [])) };

    /// The clock of the times in a journal's groups.
    fn clock(&self) -> Self::Time;
}

/// The files of the process. No contract says their contents.
impl Journals for FilesOf<'_, HostRuntime> {
    type File = FileDisk;

    type Time = HostRuntime;

    ghost opens = { λ _ _ _. ⊤ };

    fn open_journal(&self, path: &str) -> io::Result<FileDisk> {
        FileDisk::open(self.0, path)
    }

    fn clock(&self) -> HostRuntime {
        *self.0
    }
}
