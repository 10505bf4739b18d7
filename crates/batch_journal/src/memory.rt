//! A disk in memory: it shows that the trait of disks can be met, and keeps the files that a crash might have left.
ghost use Rattle.std.specs.Prelude.{◌≡◌, ◌++◌, ◌∷◌, [], ⊤, length, take, true, false, OnOk, OnErr, IfOk};
ghost use Rattle.std.proofs.Common.{inl};
ghost use Rattle.batch_journal.specs.Past.{LeftSince, only_now};

use crate::disk::{Disk, DiskError};
use std::alloc::Global;

/// A call of the past, in which a crash might have come.
#[derive(Drop)]
pub struct Past {
    pub(crate) is_cut: bool,
    pub(crate) len: usize,
    pub(crate) durable: Vec<u8>,
    pub(crate) seen: Vec<u8>,
    pub(crate) given: Vec<u8>,
}

/// A disk in memory. It is a disk by its clauses, with no premise; each call takes memory for the moments that it adds.
#[derive(Drop)]
pub struct Memory {
    pub(crate) alloc: Global,
    pub(crate) durable: Vec<u8>,
    pub(crate) seen: Vec<u8>,
    pub(crate) given: Vec<u8>,
    pub(crate) past: Vec<Past>,
    ghost front: { take (length durable.items) seen.items ≡ durable.items },
}

fn copy(alloc: Global, bytes: &[u8]) -> Result<Vec<u8>, DiskError>
    ensures { IfOk result (λ v. v.items ≡ bytes.now) }
{
    match bytes.to_vec(alloc) {
        Ok(v) => Ok(v),
        Err(_) => Err(DiskError::Memory),
    }
}

fn joined(alloc: Global, front: &[u8], bytes: &[u8]) -> Result<Vec<u8>, DiskError>
    ensures { IfOk result (λ v. v.items ≡ front.now ++ bytes.now) }
{
    let mut v = copy(alloc, front)?;
    match v.extend_from_slice(bytes) {
        Ok(()) => Ok(v),
        Err(_) => Err(DiskError::Memory),
    }
}

fn moment_of(alloc: Global, durable: &[u8], seen: &[u8], given: &[u8]) -> Result<Past, DiskError>
    ensures { IfOk result (λ p. (p.is_cut ≡ false) × (p.durable.items ≡ durable.now) × (p.seen.items ≡ seen.now) × (p.given.items ≡ given.now)) }
{
    let durable = copy(alloc, durable)?;
    let seen = copy(alloc, seen)?;
    let given = copy(alloc, given)?;
    Ok(Past {
        is_cut: false,
        len: 0,
        durable,
        seen,
        given,
    })
}

fn push_moment(past: &mut Vec<Past>, moment: Past) -> Result<(), DiskError>
    ensures ok { OnOk result (past.new.items ≡ past.old.items ++ moment ∷ []) }
    ensures err { OnErr result (past.new.items ≡ past.old.items) }
{
    match past.push(moment) {
        Ok(()) => Ok(()),
        Err(_) => Err(DiskError::Memory),
    }
}

impl Memory {
    /// An empty file.
    // claim: a disk in memory
    pub fn new(alloc: Global) -> Memory
        ensures empty { result.seen.items ≡ [] }
        ensures synced { result.durable.items ≡ [] }
        ensures none_given { result.given.items ≡ [] }
    {
        Memory {
            alloc,
            durable: Vec::new(alloc),
            seen: Vec::new(alloc),
            given: Vec::new(alloc),
            past: Vec::new(alloc),
        }
    }
}

// claim: a disk in memory
impl Disk for Memory {
    ghost is_disk = { λ _. ⊤ };

    ghost durable = { λ m. m.durable.items };

    ghost seen = { λ m. m.seen.items };

    ghost given = { λ m. m.given.items };

    ghost moment = { λ m. length m.past.items };

    ghost left_since = { λ m t left. LeftSince m.durable.items m.seen.items m.given.items m.past.items t left };

    ghost counts_now = { λ m t left is le now. inl now };

    ghost only_now = { λ m left is since. only_now m.durable.items m.seen.items m.given.items m.past.items left since };

    #[tactic(auto, using(crate::specs::Past::no_call))]
    fn read(&mut self, alloc: Global) -> Result<Vec<u8>, DiskError> {
        copy(alloc, &self.seen)
    }

    #[tactic(auto, using(crate::specs::Past::no_call))]
    fn cut(&mut self, len: usize) -> Result<(), DiskError> {
        let mut moment = moment_of(self.alloc, &self.durable, &self.seen, &self.given)?;
        moment.is_cut = true;
        moment.len = len;
        let next = copy(self.alloc, &self.seen[..len])?;
        let durable = copy(self.alloc, &next)?;
        push_moment(&mut self.past, moment)?;
        self.seen = next;
        self.durable = durable;
        Ok(())
    }

    #[tactic(auto, using(crate::specs::Past::no_call))]
    fn append(&mut self, bytes: &[u8]) -> Result<(), DiskError> {
        let next = joined(self.alloc, &self.seen, bytes)?;
        let moment = moment_of(self.alloc, &self.durable, &next, &self.given)?;
        push_moment(&mut self.past, moment)?;
        self.seen = next;
        Ok(())
    }

    #[tactic(auto, using(crate::specs::Past::no_call))]
    fn sync(&mut self) -> Result<(), DiskError> {
        let next = copy(self.alloc, &self.seen)?;
        let moment = moment_of(self.alloc, &self.durable, &self.seen, &self.given)?;
        push_moment(&mut self.past, moment)?;
        self.durable = next;
        Ok(())
    }

    #[tactic(auto, using(crate::specs::Past::no_call))]
    fn mark_given(&mut self, bytes: &[u8]) -> Result<(), DiskError> {
        let next = joined(self.alloc, &self.given, bytes)?;
        let moment = moment_of(self.alloc, &self.durable, &self.seen, &next)?;
        push_moment(&mut self.past, moment)?;
        self.given = next;
        Ok(())
    }
}
