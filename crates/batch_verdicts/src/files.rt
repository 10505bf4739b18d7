//! Files of the process.
ghost use Rattle.std.specs.Prelude.{⊤};
ghost use Rattle.batch_verdicts.specs.Reading.{IsUnread};

use crate::documents::Documents;
use crate::reading::{ReadFault, read_document};
use crate::refusal::Halt;
use batch_messages::shown;
use std::alloc::Global;
use std::fs;
use std::rt::Files;

/// The files that the runtime opens. No contract speaks of their contents.
#[derive(Drop)]
pub struct FilesOf<'a, R>(pub &'a R);

impl<R: Files> Documents for FilesOf<'_, R> {
    ghost gives = { λ _ _ _. ⊤ };

    fn read(&self, alloc: Global, path: &str, limit: usize) -> Result<Vec<u8>, Halt> {
        match read_file(self.0, alloc, path, limit) {
            Ok(bytes) | Err(ReadFault::Long(bytes)) => Ok(bytes),
            Err(fault) => Err(unread(alloc, path, &fault)),
        }
    }
}

fn read_file<R: Files>(
    rt: &R,
    alloc: Global,
    path: &str,
    limit: usize,
) -> Result<Vec<u8>, ReadFault> {
    let mut file = fs::open(rt, path)?;
    read_document(alloc, &mut file, limit)
}

/// Names the file and the cause.
fn unread(alloc: Global, path: &str, fault: &ReadFault) -> Halt
    ensures { IsUnread (λ _ _. ⊤) path.now result }
{
    if matches!(fault, ReadFault::Memory) {
        return Halt::Memory;
    }
    let Ok(path) = shown(alloc, path) else {
        return Halt::Memory;
    };
    match format!(in alloc; "{path}: {fault}") {
        Ok(text) => Halt::Unread(text),
        Err(_) => Halt::Memory,
    }
}
