//! A cache of the places that were written last.
ghost use Rattle.std.specs.Prelude.{◌≡◌, ◌<◌, []};
ghost use Rattle.batch_verify.specs.ClearedSet.{ClearedSet};
ghost use Rattle.batch_wire.specs.Known.{AreKnown, waiting};

use crate::line_room::LineRoom;
use crate::recipe_places::RecipePlaces;
use crate::site::Site;

/// The number of cache entries. A cell has at most 64 units, so at most 64 batches run phases at once.
const ENTRIES: usize = 64;

/// The cache: an entry has the place of a batch that was written last. Batches whose numbers are the same modulo 64 share one, in turn.
#[derive(Drop)]
pub struct KnownPlaces {
    pub(crate) entries: [RecipePlaces; ENTRIES],
    /// The lines that wait to be written.
    pub(crate) line: LineRoom,
}

impl KnownPlaces {
    /// No place is cached yet.
    pub fn new() -> KnownPlaces
        ensures { (cleared : ClearedSet) → AreKnown cleared result }
    {
        KnownPlaces {
            entries: [RecipePlaces::new(); ENTRIES],
            line: LineRoom::new(),
        }
    }
}

impl KnownPlaces {
    /// Forgets the text that waits.
    #[inline(always)]
    pub fn forget_waiting(&mut self)
        ensures known { (cleared : ClearedSet) → AreKnown cleared self.old → AreKnown cleared self.new }
        ensures none { waiting self.new ≡ [] }
    {
        self.line.clear();
    }
}

/// The index of the cache entry of a site's batch.
pub(crate) fn seat_of(site: Option<Site>) -> usize
    ensures { result < 64 }
{
    match site {
        Some(site) => site.batch as usize % ENTRIES,
        None => 0,
    }
}
