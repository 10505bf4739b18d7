//! All desks of a server.
ghost use Rattle.std.specs.Prelude.{◌<◌, ◌≤◌, length};
ghost use Rattle.std.proofs.Props.{props};
ghost use Rattle.batch_reader.specs.DeskNames.{HaveDistinctNames};
ghost use Rattle.batch_reader.specs.declared.desk_set.TheConstants.{MAX_DESKS};

use crate::desk::Desk;

/// The most desks of a server.
pub const MAX_DESKS: usize = 64;

/// The desks of a server, in the order of their document. Their names differ.
// claim: kept desks
#[derive(Drop)]
pub struct Desks {
    pub desks: Vec<Desk>,
    ghost some_desk: { 0 < length desks.items },
    ghost few_desks: { length desks.items ≤ MAX_DESKS },
    ghost distinct_names: { HaveDistinctNames desks.items } by { Prim.hlevel props },
}
