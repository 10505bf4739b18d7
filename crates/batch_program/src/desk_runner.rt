//! Runners of desks.
ghost use Rattle.std.specs.Prelude.{OnOk};
ghost use Rattle.batch_reader.specs.DeskNames.{desk_names};
ghost use Rattle.batch_engine.specs.View.{plant_of};
ghost use Rattle.batch_pipes.specs.Service.{AreDesksServed};

use batch_engine::Engine;
use batch_pipes::DesksFault;
use batch_reader::Desks;
use batch_serve::{Keep, Lines};
use std::alloc::Global;
use std::io::Write;

/// A runner of desks. That of the program uses threads of its process (`ThreadsOf`).
pub trait DeskRunner {
    /// Serves the desks by the engine until each that has an input has ended or is cut. The fronts are written to the outputs of the
    /// desks before all else, one to each in order. The lines of each turn are kept before they are answered. The record goes to the
    /// output, with the time of each turn if that is asked for. The errors report which desks are cut. Gives how many batches are
    /// neither complete, stopped nor aborted.
    ///
    /// The errors are those of [`serve_desks`](batch_pipes::serve_desks).
    // claim: runner of desks
    fn serve_desks<K: Keep, W: Write, E: Write>(
        &self,
        alloc: Global,
        engine: Engine,
        desks: Desks,
        fronts: &[Lines],
        times: bool,
        keep: &mut K,
        output: &mut W,
        errors: &mut E,
    ) -> Result<usize, DesksFault>
        ensures { OnOk result (AreDesksServed times (record {
          set = engine.cleared;
          names = desk_names desks.desks.items;
          plant = plant_of engine;
          kept = K.kept keep.old;
          recorded = W.contents output.old;
          again = K.again;
        }) (K.is_safe keep.new) (K.kept keep.new) (W.contents output.new)) };
}
