//! Starting over a journal.
ghost use Rattle.std.specs.Prelude.{◌≡◌, ◌⊎◌, List, ℕ, IfErr, IfOk};
ghost use Rattle.batch_model.specs.Plant.{opening};
ghost use Rattle.batch_engine.specs.View.{setup, plant_of};
ghost use Rattle.batch_journal.specs.Disks.{LeavesOnly};
ghost use Rattle.batch_journal.specs.Journals.{recovered, sum_text};
ghost use Rattle.batch_journal.specs.Recovery.{AreRests, IsRecoverable, KeepsLines};
ghost use Rattle.batch_keep.specs.Blocks.{AreBlocksOf, IsBlockOf};
ghost use Rattle.batch_keep.specs.Starts.{IsStartRefused};

use crate::block::{BlockFault, recovery_blocks};
use batch_engine::Engine;
use batch_journal::{Digits, Disk, RecoveryFault, Sum, recover};
use batch_serve::Lines;
use batch_text::Name;
use batch_verify::Cleared;
use std::alloc::Global;
use thiserror::Error;

/// Why there is no start over a journal.
#[derive(Clone, Copy, Debug, Error)]
pub enum StartFault {
    /// The journal wasn't recovered.
    #[error("{0}")]
    Recovery(RecoveryFault),
    /// There was no memory for the engine.
    #[error("out of memory")]
    Memory,
    /// The journal's lines couldn't be replayed.
    #[error("{0}")]
    Block(BlockFault),
}

impl From<RecoveryFault> for StartFault {
    ghost use Rattle.batch_keep.specs.declared.starting.StartFault.TheVariants as faults;

    ghost from_gives = { λ refusal fault. fault ≡ faults.Recovery refusal };

    fn from(fault: RecoveryFault) -> StartFault {
        StartFault::Recovery(fault)
    }
}

impl From<BlockFault> for StartFault {
    ghost use Rattle.batch_keep.specs.declared.starting.StartFault.TheVariants as faults;

    ghost from_gives = { λ block fault. fault ≡ faults.Block block };

    fn from(fault: BlockFault) -> StartFault {
        StartFault::Block(fault)
    }
}

/// A plant in the state to which the lines of its journal led it.
#[derive(Drop)]
pub struct RecoveredPlant {
    /// The engine, which was given these lines again.
    pub engine: Engine,
    /// The sum of the journal's last group.
    pub sum: Sum,
    /// The recovery block, with which the output begins.
    pub block: Vec<u8>,
    /// How many bytes were cut off behind the last group.
    pub cut: usize,
}

/// Recovers the journal of a set whose documents have these digits, makes the set's engine and replays the journal's lines.
///
/// # Errors
///
/// Those of `recover` and `recovery_blocks`; `Memory` if there is none for the engine.
// claim: taken files (taken, untouched); a start
pub fn start<D: Disk>(
    alloc: Global,
    set: Cleared,
    disk: &mut D,
    documents: Digits,
) -> Result<RecoveredPlant, StartFault>
    // After a restart a read returns the bytes on the disk.
    requires { D.is_disk disk.old → D.durable disk.old ≡ D.seen disk.old }
    ensures taken { D.is_disk disk.new → IfOk result (λ _. IsRecoverable documents.text (D.seen disk.old)) }
    // Another file stays as it is.
    ensures untouched { D.is_disk disk.new → IsRecoverable documents.text (D.seen disk.old) ⊎ (D.seen disk.new ≡ D.seen disk.old) }
    // The block is of the lines that the journal had, and the engine is where they led it.
    ensures block { IfOk result (λ started. (lines : List (List ℕ)) × IsBlockOf (setup set) opening lines (plant_of started.engine) started.block.items
        × (D.is_disk disk.new → lines ≡ recovered documents.text (D.seen disk.old))) }
    ensures cleared { IfOk result (λ started. started.engine.cleared ≡ set) }
    ensures at_rest { D.is_disk disk.new → IfOk result (λ started. (text : List ℕ) × AreRests documents.text text (sum_text started.sum) (D.durable disk.new) (D.seen disk.new)
        × (recovered documents.text text ≡ recovered documents.text (D.seen disk.old))) }
    ensures given { D.is_disk disk.new → D.given disk.new ≡ D.given disk.old }
    ensures stays { D.is_disk disk.new → D.is_disk disk.old }
    ensures refused { D.is_disk disk.new → IfErr result (IsStartRefused documents.text (D.seen disk.old)) }
    // A crash at any moment leaves the same lines, and nothing was given meanwhile.
    ensures any_moment { D.is_disk disk.new → LeavesOnly D.moment D.left_since disk.old disk.new (KeepsLines documents.text (D.seen disk.old) (D.given disk.old)) }
{
    let (started, _no_desks) = start_desks(alloc, set, disk, documents, &[])?;
    Ok(started)
}

/// Starts as `start` does, over desks of these names, of which each has a block of its own.
///
/// # Errors
///
/// Those of `start`.
pub fn start_desks<D: Disk>(
    alloc: Global,
    set: Cleared,
    disk: &mut D,
    documents: Digits,
    names: &[Name],
) -> Result<(RecoveredPlant, Vec<Lines>), StartFault>
    // After a restart a read returns the bytes on the disk.
    requires { D.is_disk disk.old → D.durable disk.old ≡ D.seen disk.old }
    ensures taken { D.is_disk disk.new → IfOk result (λ _. IsRecoverable documents.text (D.seen disk.old)) }
    // Another file stays as it is.
    ensures untouched { D.is_disk disk.new → IsRecoverable documents.text (D.seen disk.old) ⊎ (D.seen disk.new ≡ D.seen disk.old) }
    // The blocks are of the lines that the journal had, and the engine is where they led it.
    // claim: recovery blocks of desks
    ensures blocks { IfOk result (λ r. (lines : List (List ℕ)) × AreBlocksOf (setup set) opening lines names.now (plant_of r.0.engine) r.0.block.items r.1.items
        × (D.is_disk disk.new → lines ≡ recovered documents.text (D.seen disk.old))) }
    ensures cleared { IfOk result (λ r. r.0.engine.cleared ≡ set) }
    ensures at_rest { D.is_disk disk.new → IfOk result (λ r. (text : List ℕ) × AreRests documents.text text (sum_text r.0.sum) (D.durable disk.new) (D.seen disk.new)
        × (recovered documents.text text ≡ recovered documents.text (D.seen disk.old))) }
    ensures given { D.is_disk disk.new → D.given disk.new ≡ D.given disk.old }
    ensures stays { D.is_disk disk.new → D.is_disk disk.old }
    ensures refused { D.is_disk disk.new → IfErr result (IsStartRefused documents.text (D.seen disk.old)) }
    // A crash at any moment leaves the same lines, and nothing was given meanwhile.
    ensures any_moment { D.is_disk disk.new → LeavesOnly D.moment D.left_since disk.old disk.new (KeepsLines documents.text (D.seen disk.old) (D.given disk.old)) }
{
    let digits = documents.text();
    let recovered = recover(alloc, disk, &digits)?;
    let Ok(mut engine) = Engine::new(alloc, set) else {
        return Err(StartFault::Memory);
    };
    let (block, desks) = recovery_blocks(alloc, &mut engine, &recovered.text, &digits, names)?;
    let started = RecoveredPlant {
        engine,
        sum: recovered.sum,
        block,
        cut: recovered.cut,
    };
    Ok((started, desks))
}
