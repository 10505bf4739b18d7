//! Recovery blocks: the state of the plant by the replayed lines of a journal.
ghost use Rattle.std.specs.Prelude.{◌≡◌, ℕ, List, length, map, codes, IfOk};
ghost use Rattle.batch_engine.specs.View.{setup, plant_of};
ghost use Rattle.batch_journal.specs.Journals.{IsJournal, recovered};
ghost use Rattle.batch_journal.specs.Lines.{IsLine};
ghost use Rattle.batch_keep.specs.Blocks.{AreBlocksOf, IsReplayed, recovery_block_text};
ghost use Rattle.batch_keep.specs.Counts.{own_lines};
ghost use Rattle.batch_keep.specs.RowsOfBlocks.{BlockRows};
ghost use Rattle.batch_record.specs.Blocks.{Stage};
ghost use Rattle.batch_record.specs.Kept.{Keeps};
ghost use Rattle.batch_record.specs.Listing.{IsTextOf};
ghost use Rattle.batch_record.specs.StatusReading.{LeadsTo};
ghost use Rattle.batch_record.specs.Telling.{Tale};

use crate::counting::{own_count, sent_count};
use crate::replaying::replay;
use batch_engine::Engine;
use batch_record::{Status, StatusFault, read_status};
use batch_serve::{Lines, shows_want};
use batch_text::Name;
use itoa::Buffer;
use std::alloc::{AllocError, Global};
use thiserror::Error;

/// Why there is no recovery block.
#[derive(Clone, Copy, Debug, Error)]
pub enum BlockFault {
    /// There was no memory, or an event or a line of the journal was refused for want of it.
    #[error("out of memory")]
    Memory,
    /// The record of the journal's lines wasn't read.
    #[error("{0}")]
    Status(StatusFault),
}

impl From<AllocError> for BlockFault {
    ghost use Rattle.batch_keep.specs.declared.block.BlockFault.TheVariants as faults;

    ghost from_gives = { λ _ fault. fault ≡ faults.Memory };

    fn from(_error: AllocError) -> BlockFault {
        BlockFault::Memory
    }
}

/// Serves the lines of a recovered journal again, and returns the blocks with which outputs begin: the number of the lines that were
/// sent, and the state to which their record leads. The first is the output's; those of desks, in the order of their names, count the
/// desk's own lines alone.
///
/// # Errors
///
/// `Memory` if an event or a line was refused for want of memory, or there was none for the record; `Status` if the machine's answers
/// aren't a record.
// claim: the recovery block; recovery blocks of desks
pub fn recovery_blocks(
    alloc: Global,
    engine: &mut Engine,
    text: &[u8],
    documents: &[u8; 64],
    names: &[Name],
) -> Result<(Vec<u8>, Vec<Lines>), BlockFault>
    requires journal { (sum : List ℕ) × IsJournal documents.now text.now sum }
    requires digits { IsLine documents.now }
    ensures cleared { engine.new.cleared ≡ engine.old.cleared }
    ensures blocks { IfOk result (λ blocks. AreBlocksOf (setup engine.old.cleared) (plant_of engine.old) (recovered documents.now text.now) names.now (plant_of engine.new) blocks.0.items blocks.1.items) }
{
    let record = replayed(alloc, engine, text, documents)?;
    let status = status_of(alloc, &record)?;
    let rows = rows_of(alloc, status)?;
    let block = block_of(alloc, sent_count(text, documents), &rows)?;
    let desks = desk_blocks(alloc, text, documents, names, &rows)?;
    Ok((block, desks))
}

/// The record of the journal's lines.
fn replayed(
    alloc: Global,
    engine: &mut Engine,
    text: &[u8],
    documents: &[u8; 64],
) -> Result<Vec<u8>, BlockFault>
    requires journal { (sum : List ℕ) × IsJournal documents.now text.now sum }
    requires digits { IsLine documents.now }
    ensures cleared { engine.new.cleared ≡ engine.old.cleared }
    ensures replayed { IfOk result (λ record_bytes. IsReplayed (setup engine.old.cleared) (plant_of engine.old) (recovered documents.now text.now) (plant_of engine.new) record_bytes.items) }
{
    let mut record = Vec::new(alloc);
    match replay(alloc, engine, text, documents, &mut record) {
        Ok(()) if !shows_want(&record) => Ok(record),
        _ => Err(BlockFault::Memory),
    }
}

/// The state to which a record leads.
fn status_of(alloc: Global, told: &[u8]) -> Result<Status, BlockFault>
    ensures { IfOk result (λ status. (stage : Stage) × LeadsTo told.now stage × Keeps status stage.tale) }
{
    let mut rest = told;
    match read_status(alloc, &mut rest, u64::MAX) {
        Ok(status) => Ok(status),
        Err(fault) => Err(BlockFault::Status(fault)),
    }
}

/// The rows of the state.
fn rows_of(alloc: Global, status: Status) -> Result<Vec<u8>, BlockFault>
    ensures { IfOk result (λ rows. (tale : Tale) → Keeps status tale → IsTextOf tale (codes "# ") rows.items) }
{
    match status.text(alloc, b"# ") {
        Ok(rows) => Ok(rows),
        Err(_) => Err(BlockFault::Memory),
    }
}

/// The blocks of desks of these names.
fn desk_blocks(
    alloc: Global,
    text: &[u8],
    documents: &[u8; 64],
    names: &[Name],
    rows: &[u8],
) -> Result<Vec<Lines>, AllocError>
    requires { (sum : List ℕ) × IsJournal documents.now text.now sum }
    ensures { IfOk result (λ blocks. blocks.items ≡ map (λ name. recovery_block_text (length (own_lines name (recovered documents.now text.now))) rows.now) names.now) }
{
    let mut blocks = Vec::new(alloc);
    for name in names {
        let count = own_count(text, documents, name);
        let block = block_of(alloc, count, rows)?;
        blocks.push(Lines::new(block))?;
    }
    Ok(blocks)
}

/// The block of so many lines and these rows.
fn block_of(alloc: Global, count: usize, rows: &[u8]) -> Result<Vec<u8>, AllocError>
    ensures { IfOk result (λ block. block.items ≡ recovery_block_text count rows.now) }
{
    let mut digits = Buffer::new();
    let mut block = Vec::new(alloc);
    block.extend_from_slice(b"# recovered ")?;
    block.extend_from_slice(digits.format(count).as_bytes())?;
    block.extend_from_slice(b" lines\n")?;
    block.extend_from_slice(rows)?;
    block.extend_from_slice(b"# end\n")?;
    Ok(block)
}

/// Recovery blocks, and which lines they count.
// claim: rows of recovery blocks
pub fn block_rows()
    ensures { BlockRows }
{}
