//! Serving a cleared set with comments in the record.
ghost use Rattle.std.specs.Prelude.{◌≡◌};
ghost use Rattle.batch_serve.specs.RemarkedSet.{ServesRemarked};

use crate::fault::SetFault;
use crate::held::Start;
use crate::remarked::Remarked;
use crate::remarking::Remarking;
use crate::set::serve_set;
use batch_verify::Cleared;
use std::alloc::Global;
use std::io::{Read, Write};
use std::marker::Brand;
use std::time::Clock;

/// Serves a cleared set as [`serve_set`] does, with comments on the lines in the record. The writer is given back.
// claim: a record without its comments
pub fn serve_remarked<R: Read, W: Write, K: Clock + Drop>(
    alloc: Global,
    cleared: Cleared,
    reader: &mut R,
    writer: W,
    remarking: Remarking<K>,
    max_reads: u64,
) -> (Result<usize, SetFault>, W)
    ensures { ServesRemarked cleared max_reads result.0 (record {
      unread = R.remaining reader.old;
      left = R.remaining reader.new;
      before = W.contents writer;
      after = W.contents result.1;
    }) }
{
    serve_remarked_at::<R, W, K, Brand>(alloc, cleared, reader, writer, remarking, max_reads)
}

fn serve_remarked_at<R: Read, W: Write, K: Clock + Drop, C: Start>(
    alloc: Global,
    cleared: Cleared,
    reader: &mut R,
    writer: W,
    mut remarking: Remarking<K>,
    max_reads: u64,
) -> (Result<usize, SetFault>, W)
    requires { C.contents ≡ W.contents writer }
    ensures { ServesRemarked cleared max_reads result.0 (record {
      unread = R.remaining reader.old;
      left = R.remaining reader.new;
      before = C.contents;
      after = W.contents result.1;
    }) }
{
    let mut remarked: Remarked<W, C> = Remarked::new(writer);
    let served = serve_set(
        alloc,
        cleared,
        reader,
        &mut remarked,
        &mut remarking,
        max_reads,
    );
    (served, remarked.into_inner())
}
