//! A journal in a file of the system. Its clauses say nothing: that a file is a disk is a premise, which the README states in words.
ghost use Rattle.std.specs.Prelude.{◌≡◌, [], IfOk};
ghost use Rattle.std.specs.Path.{path_parent};
ghost use Rattle.batch_journal.specs.Folders.{folder_text};

use crate::disk::{Disk, DiskError};
use std::alloc::Global;
use std::fs::{File, OpenOptions};
use std::io;
use std::io::{ErrorKind, Read, Seek, SeekFrom, Write};
use std::path::Path;

/// A file that one process has at a time.
#[derive(Drop)]
pub struct FileDisk {
    file: File,
}

impl FileDisk {
    /// Opens the file, and makes it if it is missing, with its folder synced.
    ///
    /// # Errors
    ///
    /// `WouldBlock` if another process has it; else the error of the system.
    pub fn open(rt: &HostRuntime, path: &str) -> io::Result<FileDisk>
        // The condition of `recover` on a disk after a restart.
        ensures { IfOk result (λ disk. ⟦<FileDisk as Disk>⟧.is_disk disk → (⟦<FileDisk as Disk>⟧.durable disk ≡ ⟦<FileDisk as Disk>⟧.seen disk) × (⟦<FileDisk as Disk>⟧.given disk ≡ [])) }
    {
        let file: File = OpenOptions::new()
            .read(true)
            .write(true)
            .create(true)
            .open(rt, path)?;
        file.try_lock()?;
        // The name of a new file is durable once its folder is.
        let folder: File = File::open(rt, folder_of(path))?;
        folder.sync_all()?;
        Ok(FileDisk { file })
    }
}

/// The folder that a path lies in.
// claim: a journal's folder
fn folder_of(path: &str) -> &str
    ensures { result.now ≡ folder_text (path_parent path.now) }
{
    match Path::new(path).parent() {
        Some(folder) if !folder.as_str().is_empty() => folder.as_str(),
        _ => ".",
    }
}

/// The outcome of a call of the system.
fn done<T: Drop>(outcome: io::Result<T>) -> Result<(), DiskError> {
    match outcome {
        Ok(_) => Ok(()),
        Err(error) if error.kind() == ErrorKind::OutOfMemory => Err(DiskError::Memory),
        Err(_) => Err(DiskError::File),
    }
}

impl Disk for FileDisk {
    ghost is_disk = { λ _. ⊥ };

    ghost durable = { λ _. [] };

    ghost seen = { λ _. [] };

    ghost given = { λ _. [] };

    ghost moment = { λ _. 0 };

    ghost left_since = { λ _ _ _. ⊥ };

    ghost counts_now = { λ _ _ _ is _ _. absurd is };

    ghost only_now = { λ _ _ is _. absurd is };

    fn read(&mut self, alloc: Global) -> Result<Vec<u8>, DiskError> {
        let mut bytes = Vec::new(alloc);
        done(self.file.seek(SeekFrom::Start(0)))?;
        done(self.file.read_to_end(&mut bytes))?;
        Ok(bytes)
    }

    fn cut(&mut self, len: usize) -> Result<(), DiskError> {
        done(self.file.set_len(len as u64))?;
        done(self.file.sync_all())?;
        done(self.file.seek(SeekFrom::End(0)))
    }

    fn append(&mut self, bytes: &[u8]) -> Result<(), DiskError> {
        done(self.file.write_all(bytes))
    }

    fn sync(&mut self) -> Result<(), DiskError> {
        done(self.file.sync_data())
    }

    fn mark_given(&mut self, _bytes: &[u8]) -> Result<(), DiskError> {
        Ok(())
    }
}
