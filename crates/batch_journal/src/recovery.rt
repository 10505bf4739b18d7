//! Recovery: the groups of a journal whose end a crash may have torn.
ghost use Rattle.std.specs.Prelude.{◌≡◌, ◌⊎◌, ◌≤◌, [], None, false, length, IfOk, IfErr, IsTrue, IsFalse, IfSome, MatchOption, nat_eq};
ghost use Rattle.std.specs.List.{list_all, starts_with, zip};
ghost use Rattle.batch_journal.specs.Disks.{IsPart, LeavesOnly};
ghost use Rattle.batch_journal.specs.Journals.{IsJournal, header, recovered, sum_text};
ghost use Rattle.batch_journal.specs.Recovery.{HasNoFeed, IsRecoverable, IsRefusedFor, IsJournalUnbegun, is_like, KeepsLines, AreGroupsTaken, StandsTo, AreRests, ClosesTwice, closing_count, raw_lines};

use crate::disk::{Disk, DiskError};
use crate::group::{closes, is_closing};
use crate::lines::next_line;
use crate::sum::Sum;
use memchr::memchr;
use std::alloc::Global;
use thiserror::Error;

/// Why a file wasn't recovered. It stays as it is, but for `Disk`.
#[derive(Clone, Copy, Debug, Error)]
pub enum RecoveryFault {
    /// A call of the disk failed, or there was no memory for the bytes.
    #[error("{0}")]
    Disk(DiskError),
    /// The file is no journal.
    #[error("the file is no journal")]
    NoJournal,
    /// The file is a journal of other documents.
    #[error("it is a journal of other documents")]
    OtherDocuments,
    /// A group is damaged, and others follow it: the line that closes it, counted from 1.
    #[error("the group that line {0} closes is damaged")]
    Damaged(usize),
}

impl From<DiskError> for RecoveryFault {
    ghost use Rattle.batch_journal.specs.declared.recovery.RecoveryFault.TheVariants as faults;

    ghost from_gives = { λ disk fault. fault ≡ faults.Disk disk };

    fn from(fault: DiskError) -> RecoveryFault {
        RecoveryFault::Disk(fault)
    }
}

/// A journal after recovery.
#[derive(Drop)]
pub struct Recovered {
    /// The bytes of the file: its header and its groups, with the lines that close them.
    pub text: Vec<u8>,
    /// The sum of the last group.
    pub sum: Sum,
    /// How many bytes were cut off behind the last group.
    pub cut: usize,
}

/// How far the groups of a text are whole, with the sum of the last.
#[derive(Clone, Copy)]
pub(crate) struct Taken {
    pub(crate) end: usize,
    pub(crate) sum: Sum,
}

/// Reads the journal of these documents, given by the 64 digits of their SHA-256, and cuts off the rest behind its last whole
/// group. A file in which no group was ever synced is begun anew. A crash may come in each of its calls too.
///
/// # Errors
///
/// `NoJournal`, `OtherDocuments` and `Damaged` leave the file as it is. `Disk` comes if a call failed or memory was refused: the file may be
/// cut or begun anew then, as the next start would do.
// claim: recovered lines (lines, at_rest); taken files (taken, untouched)
pub fn recover<D: Disk>(
    alloc: Global,
    disk: &mut D,
    documents: &[u8; 64],
) -> Result<Recovered, RecoveryFault>
    // After a restart, the bytes that are read are those on the disk.
    requires { D.is_disk disk.old → D.durable disk.old ≡ D.seen disk.old }
    ensures taken { D.is_disk disk.new → IfOk result (λ _. IsRecoverable documents.now (D.seen disk.old)) }
    // Another file stays as it is.
    ensures untouched { D.is_disk disk.new → IsRecoverable documents.now (D.seen disk.old) ⊎ (D.seen disk.new ≡ D.seen disk.old) }
    ensures lines { D.is_disk disk.new → IfOk result (λ r. recovered documents.now r.text.items ≡ recovered documents.now (D.seen disk.old)) }
    ensures journal { IfOk result (λ r. IsJournal documents.now r.text.items (sum_text r.sum)) }
    ensures at_rest { D.is_disk disk.new → IfOk result (λ r. AreRests documents.now r.text.items (sum_text r.sum) (D.durable disk.new) (D.seen disk.new)) }
    ensures given { D.is_disk disk.new → D.given disk.new ≡ D.given disk.old }
    ensures stays { D.is_disk disk.new → D.is_disk disk.old }
    // claim: refused files
    ensures refused { D.is_disk disk.new → IfErr result (IsRefusedFor documents.now (D.seen disk.old)) }
    // A crash at any moment leaves the same lines, and nothing was given meanwhile.
    // claim: a crash in recovery
    ensures any_moment { D.is_disk disk.new → LeavesOnly D.moment D.left_since disk.old disk.new (KeepsLines documents.now (D.seen disk.old) (D.given disk.old)) }
{
    let text = disk.read(alloc)?;
    match standing_of(&text, documents)? {
        Some(taken) => cut_behind(disk, text, taken, documents),
        None => begin(disk, text, documents),
    }
}

/// Cuts off the rest behind the groups taken.
fn cut_behind<D: Disk>(
    disk: &mut D,
    mut text: Vec<u8>,
    taken: Taken,
    documents: &[u8; 64],
) -> Result<Recovered, RecoveryFault>
    requires synced { D.is_disk disk.old → (D.durable disk.old ≡ D.seen disk.old) × (D.seen disk.old ≡ text.items) }
    requires stands { StandsTo documents.now text.items taken.end (sum_text taken.sum) }
    ensures lines { D.is_disk disk.new → IfOk result (λ r. recovered documents.now r.text.items ≡ recovered documents.now (D.seen disk.old)) }
    ensures journal { IfOk result (λ r. IsJournal documents.now r.text.items (sum_text r.sum)) }
    ensures at_rest { D.is_disk disk.new → IfOk result (λ r. AreRests documents.now r.text.items (sum_text r.sum) (D.durable disk.new) (D.seen disk.new)) }
    ensures given { D.is_disk disk.new → D.given disk.new ≡ D.given disk.old }
    ensures stays { D.is_disk disk.new → D.is_disk disk.old }
    ensures refused { D.is_disk disk.new → IfErr result (IsRefusedFor documents.now (D.seen disk.old)) }
    ensures any_moment { D.is_disk disk.new → LeavesOnly D.moment D.left_since disk.old disk.new (KeepsLines documents.now (D.seen disk.old) (D.given disk.old)) }
{
    let cut = text.len() - taken.end;
    disk.cut(taken.end)?;
    text.truncate(taken.end);
    Ok(Recovered {
        text,
        sum: taken.sum,
        cut,
    })
}

/// Begins a journal anew: its header alone.
fn begin<D: Disk>(
    disk: &mut D,
    mut text: Vec<u8>,
    documents: &[u8; 64],
) -> Result<Recovered, RecoveryFault>
    requires synced { D.is_disk disk.old → (D.durable disk.old ≡ D.seen disk.old) × (D.seen disk.old ≡ text.items) }
    requires unbegun { IsJournalUnbegun documents.now text.items }
    ensures lines { D.is_disk disk.new → IfOk result (λ r. recovered documents.now r.text.items ≡ recovered documents.now (D.seen disk.old)) }
    ensures journal { IfOk result (λ r. IsJournal documents.now r.text.items (sum_text r.sum)) }
    ensures at_rest { D.is_disk disk.new → IfOk result (λ r. AreRests documents.now r.text.items (sum_text r.sum) (D.durable disk.new) (D.seen disk.new)) }
    ensures given { D.is_disk disk.new → D.given disk.new ≡ D.given disk.old }
    ensures stays { D.is_disk disk.new → D.is_disk disk.old }
    ensures refused { D.is_disk disk.new → IfErr result (IsRefusedFor documents.now (D.seen disk.old)) }
    ensures any_moment { D.is_disk disk.new → LeavesOnly D.moment D.left_since disk.old disk.new (KeepsLines documents.now (D.seen disk.old) (D.given disk.old)) }
{
    let cut = text.len();
    let header = header_text(documents);
    text.truncate(0);
    if text.extend_from_slice(&header).is_err() {
        return Err(RecoveryFault::Disk(DiskError::Memory));
    }
    disk.cut(0)?;
    disk.append(&header)?;
    disk.sync()?;
    Ok(Recovered {
        text,
        sum: Sum::Documents(*documents),
        cut,
    })
}

/// How far a file is a journal of these documents. None where no group of it was ever synced.
fn standing_of(bytes: &[u8], documents: &[u8; 64]) -> Result<Option<Taken>, RecoveryFault>
    ensures ok { IfOk result (λ found. MatchOption found (IsJournalUnbegun documents.now bytes.now) (λ taken. StandsTo documents.now bytes.now taken.end (sum_text taken.sum))) }
    ensures refused { IfErr result (IsRefusedFor documents.now bytes.now) }
{
    let header = header_text(documents);
    if !bytes.starts_with(&header) {
        return unlike(bytes, documents);
    }
    let taken = end_of_groups(&bytes[header.len()..], documents);
    let end = header.len() + taken.end;
    match closing_before_another(&bytes[end..]) {
        Some(before) => Err(RecoveryFault::Damaged(line_count(&bytes[..end]) + before + 1)),
        None => Ok(Some(Taken {
            end,
            sum: taken.sum,
        })),
    }
}

/// A file without the header: None where it is to be begun anew, or why it is refused.
fn unlike(bytes: &[u8], documents: &[u8; 64]) -> Result<Option<Taken>, RecoveryFault>
    requires { starts_with nat_eq bytes.now (header documents.now) ≡ false }
    ensures ok { IfOk result (λ found. (found ≡ None) × IsJournalUnbegun documents.now bytes.now) }
    ensures refused { IfErr result (IsRefusedFor documents.now bytes.now) }
{
    if is_unbegun(bytes, &header_text(documents)) {
        Ok(None)
    } else if bytes.starts_with(b"# batchd journal 1 ") {
        Err(RecoveryFault::OtherDocuments)
    } else {
        Err(RecoveryFault::NoJournal)
    }
}

/// Whether no line ends in the file, or it is a part of a header, as a crash may leave it: no longer, each byte the header's or zero.
fn is_unbegun(bytes: &[u8], header: &[u8; 84]) -> bool
    ensures yes { IsTrue result → HasNoFeed bytes.now ⊎ IsPart bytes.now header.now }
    ensures no { IsFalse result → HasNoFeed bytes.now ⊎ IsPart bytes.now header.now → ⊥ }
{
    memchr(b'\n', bytes).is_none() || (bytes.len() <= header.len() && is_like(bytes, header))
}

/// Whether each byte that both have at one place is the header's or zero.
fn is_like(bytes: &[u8], header: &[u8; 84]) -> bool
    ensures { result ≡ list_all is_like (zip bytes.now header.now) }
{
    bytes
        .iter()
        .zip(header)
        .all(|(byte, wanted)| *byte == 0 || byte == wanted)
}

/// The end of the whole groups behind a header, up to the first wrong sum, and the sum of the last.
fn end_of_groups(bytes: &[u8], documents: &[u8; 64]) -> Taken
    ensures { AreGroupsTaken documents.now bytes.now result.end (sum_text result.sum) }
{
    let mut sum = Sum::Documents(*documents);
    let mut end = 0;
    let mut at = 0;
    while let Some(len) = next_line(&bytes[at..]) {
        let line = &bytes[at..at + len];
        let lines = &bytes[end..at];
        at += len + 1;
        if is_closing(line) {
            let next = sum.next(lines);
            if !closes(line, &next) {
                return Taken { end, sum };
            }
            sum = Sum::Group(next);
            end = at;
        }
    }
    Taken { end, sum }
}

/// How many lines precede the first one that closes a group, if another closing line follows it.
fn closing_before_another(bytes: &[u8]) -> Option<usize>
    ensures found { MatchOption result (closing_count bytes.now ≤ 1) (λ count. (behind : ClosesTwice (raw_lines bytes.now)) × (count ≡ length behind.front)) }
    ensures within { IfSome result (λ count. count ≤ length bytes.now) }
{
    let mut first = None;
    let mut count = 0;
    let mut at = 0;
    while let Some(len) = memchr(b'\n', &bytes[at..]) {
        let line = &bytes[at..at + len];
        let before = count;
        at += len + 1;
        count += 1;
        if !is_closing(line) {
            continue;
        }
        if first.is_some() {
            return first;
        }
        first = Some(before);
    }
    None
}

/// How many lines end in the bytes.
fn line_count(bytes: &[u8]) -> usize
    ensures count { result ≡ length (raw_lines bytes.now) }
    ensures within { result ≤ length bytes.now }
{
    let mut count = 0;
    let mut at = 0;
    while let Some(len) = memchr(b'\n', &bytes[at..]) {
        at += len + 1;
        count += 1;
    }
    count
}

/// The header of a journal of these documents.
fn header_text(documents: &[u8; 64]) -> [u8; 84]
    ensures { result ≡ header documents.now }
{
    let mut text = [b'\n'; 84];
    text[..19].copy_from_slice(b"# batchd journal 1 ");
    text[19..83].copy_from_slice(documents);
    text
}
