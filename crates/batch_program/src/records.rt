//! Opening records, and writing certificates.
ghost use Rattle.std.specs.Prelude.{ℕ, List, Option, Some, IfOk, OnOk, ⊤};

use batch_verdicts::FilesOf;
use std::alloc::Global;
use std::fs::OpenFile;
use std::io::{ErrorKind, Read, Write};
use std::rt::Files;
use std::{fs, io};

/// A place where records are opened and certificates written.
pub trait Records {
    type Record: Read + Drop;

    // The bytes that the file at a path has to be read, if they are known.
    ghost holds: { Self → List ℕ → Option (List ℕ) → Type 0 };

    /// Opens the record at the path for reading.
    fn open(&self, path: &str) -> io::Result<Self::Record>
        ensures { IfOk result (λ opened. holds self.now path.now (Self.Record.remaining opened)) };

    /// Replaces the file at the path by one with these bytes. If that fails, the file stays as it was.
    fn replace(&self, alloc: Global, path: &str, bytes: &[u8]) -> io::Result<()>
        ensures { OnOk result (holds self.now path.now (Some bytes.now)) };
}

/// The files that the runtime opens. No contract says their contents.
impl<R: Files> Records for FilesOf<'_, R> {
    type Record = R::File;

    ghost holds = { λ _ _ _. ⊤ };

    fn open(&self, path: &str) -> io::Result<R::File> {
        fs::open(self.0, path)
    }

    /// The bytes are written to `PATH.new`, which takes the path's name once they are synced. A link, a device or a pipe at the path
    /// isn't replaced: `AlreadyExists`.
    fn replace(&self, alloc: Global, path: &str, bytes: &[u8]) -> io::Result<()> {
        check_replaceable(self.0, path)?;
        let draft = format!(in alloc; "{path}.new")?;
        let replaced = replace_by(self.0, draft.as_str(), path, bytes);
        if replaced.is_err() {
            let _ = fs::remove_file(self.0, draft.as_str());
        }
        replaced
    }
}

/// Fails if the path has a file that is neither a regular one nor a folder. Over a folder a rename fails by itself.
fn check_replaceable<R: Files>(rt: &R, path: &str) -> io::Result<()> {
    match fs::symlink_metadata(rt, path) {
        Ok(found) if found.is_file() || found.is_dir() => Ok(()),
        Ok(_) => Err(io::Error::from(ErrorKind::AlreadyExists)),
        Err(reason) if reason.kind() == ErrorKind::NotFound => Ok(()),
        Err(reason) => Err(reason),
    }
}

fn replace_by<R: Files>(rt: &R, draft: &str, path: &str, bytes: &[u8]) -> io::Result<()> {
    let mut file = fs::create(rt, draft)?;
    file.write_all(bytes)?;
    file.flush()?;
    file.sync_all()?;
    fs::rename(rt, draft, path)
}
