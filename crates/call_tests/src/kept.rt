//! Serving over a journal that lies in memory, and whose sync fails.
use crate::documents::{A, CELL1};
use crate::expected::assert_so;
use crate::records::engine_of;
use crate::serving::{INPUT, MANY_READS, RECORD};
use batch_engine::Engine;
use batch_journal::{Disk, DiskError, recover};
use batch_keep::{Journal, KeepFault, serve_holding, serve_journalled};
use batch_serve::ServeFault;
use std::alloc::Global;
use std::io;
use std::test::Fail;
use std::time::{Clock, Duration};

/// The digits that stand for the documents.
const DOCUMENTS: [u8; 64] = [b'0'; 64];

/// The journal of the input, in one group.
const FILE: &[u8] =
    b"# batchd journal 1 0000000000000000000000000000000000000000000000000000000000000000
create A 1000
start 1
report R1 ADD done
# sum db57e689b0f06c84 7
";

/// A file of which nothing is promised. It syncs so many times.
#[derive(Drop)]
struct Pages {
    bytes: Vec<u8>,
    syncs: u32,
}

impl Disk for Pages {
    ghost use Rattle.std.specs.Prelude.{[]};

    ghost is_disk = { λ _. ⊥ };

    ghost durable = { λ _. [] };

    ghost seen = { λ _. [] };

    ghost given = { λ _. [] };

    ghost moment = { λ _. 0 };

    ghost left_since = { λ _ _ _. ⊥ };

    ghost counts_now = { λ _ _ _ is _ _. absurd is };

    ghost only_now = { λ _ _ is _. absurd is };

    fn read(&mut self, alloc: Global) -> Result<Vec<u8>, DiskError> {
        self.bytes.to_vec(alloc).map_err(|_| DiskError::Memory)
    }

    fn cut(&mut self, len: usize) -> Result<(), DiskError> {
        self.bytes.truncate(len);
        Ok(())
    }

    fn append(&mut self, bytes: &[u8]) -> Result<(), DiskError> {
        self.bytes
            .extend_from_slice(bytes)
            .map_err(|_| DiskError::Memory)
    }

    fn sync(&mut self) -> Result<(), DiskError> {
        if self.syncs == 0 {
            return Err(DiskError::File);
        }
        self.syncs -= 1;
        Ok(())
    }

    fn mark_given(&mut self, _bytes: &[u8]) -> Result<(), DiskError> {
        Ok(())
    }
}

/// A clock that stands.
#[derive(Clone, Copy, Drop)]
struct Seven;

impl Clock for Seven {
    fn monotonic(&self) -> io::Result<Duration> {
        Ok(Duration::from_millis(7))
    }

    fn since_1970(&self) -> io::Result<Duration> {
        Ok(Duration::from_millis(7))
    }
}

/// A journal that is begun, in a file that syncs so many times.
fn begun(alloc: Global, syncs: u32) -> Result<Journal<Pages, Seven>, Fail> {
    let mut disk = Pages {
        bytes: Vec::new(alloc),
        syncs,
    };
    let recovered = recover(alloc, &mut disk, &DOCUMENTS)?;
    Ok(Journal {
        disk,
        clock: Seven,
        sum: recovered.sum,
        documents: DOCUMENTS,
    })
}

/// How the input is served over a journal.
#[derive(Clone, Copy)]
enum Served {
    /// Up to a read fault, with all of it in the file and no answer given.
    Untold,
    /// To its end, with answers held back.
    Held,
    /// To its end, with no answers held back.
    Told,
}

fn is_untold(alloc: Global, engine: &mut Engine, journal: Journal<Pages, Seven>) -> bool {
    let (ending, disk, told) = serve_holding(
        alloc,
        engine,
        INPUT,
        journal,
        Vec::new(alloc),
        MANY_READS,
    );
    ending == Err(KeepFault::Serve(ServeFault::Read))
        && disk.bytes.as_slice() == FILE
        && told.is_empty()
}

fn is_held(alloc: Global, engine: &mut Engine, journal: Journal<Pages, Seven>) -> bool {
    let (ending, _, told) = serve_holding(
        alloc,
        engine,
        INPUT,
        journal,
        Vec::new(alloc),
        MANY_READS,
    );
    ending.is_ok() && told.as_slice() == RECORD
}

fn is_told(alloc: Global, engine: &mut Engine, journal: Journal<Pages, Seven>) -> bool {
    let mut told = Vec::new(alloc);
    let (ending, _) = serve_journalled(alloc, engine, INPUT, journal, &mut told, MANY_READS);
    ending.is_ok() && told.as_slice() == RECORD
}

fn is_served(
    alloc: Global,
    engine: &mut Engine,
    journal: Journal<Pages, Seven>,
    served: Served,
) -> bool {
    match served {
        Served::Untold => is_untold(alloc, engine, journal),
        Served::Held => is_held(alloc, engine, journal),
        Served::Told => is_told(alloc, engine, journal),
    }
}

/// Whether the input is served so over a journal whose file syncs so many times.
fn is_served_over(
    alloc: Global,
    engine: &mut Engine,
    syncs: u32,
    served: Served,
) -> Result<bool, Fail> {
    let journal = begun(alloc, syncs)?;
    Ok(is_served(alloc, engine, journal, served))
}

fn over_a_journal(alloc: Global, syncs: u32, served: Served) -> Result<bool, Fail> {
    let mut engine = engine_of(alloc, CELL1, &[A])?;
    is_served_over(alloc, &mut engine, syncs, served)
}

#[test]
fn sync_fails(rt: HostRuntime) -> Result<(), Fail> {
    assert_so(&rt, over_a_journal(rt.alloc(), 1, Served::Untold))
}

#[test]
fn held_over_a_journal(rt: HostRuntime) -> Result<(), Fail> {
    assert_so(&rt, over_a_journal(rt.alloc(), 2, Served::Held))
}

#[test]
fn served_over_a_journal(rt: HostRuntime) -> Result<(), Fail> {
    assert_so(&rt, over_a_journal(rt.alloc(), 2, Served::Told))
}
