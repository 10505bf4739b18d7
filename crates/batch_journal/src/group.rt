//! Groups of lines, as they are written.
ghost use Rattle.std.specs.Prelude.{◌≡◌, OnOk, decimal, ◌++◌, ◌∷◌, []};
ghost use Rattle.std.specs.Char.{is_ascii_digit};
ghost use Rattle.std.specs.List.{list_all};
ghost use Rattle.batch_journal.specs.Disks.{Elapses};
ghost use Rattle.batch_journal.specs.Journals.{journal_format, closing_start, is_time};
ghost use Rattle.batch_journal.specs.Writing.{group_text, MayKeep};

use crate::disk::{Disk, DiskError};
use itoa::write_digits;

/// Whether the line closes a group, whatever its sum.
pub(crate) fn is_closing(line: &[u8]) -> bool
    ensures { result ≡ journal_format.own line.now }
{
    line.starts_with(b"# sum ")
}

/// Whether the line closes a group of this sum.
pub(crate) fn closes(line: &[u8], sum: &[u8; 16]) -> bool
    ensures { result ≡ journal_format.closes sum.now line.now }
{
    let mark = closing_mark(sum);
    line.starts_with(&mark) && is_time(&line[mark.len()..])
}

/// Whether the bytes are one to twenty decimal digits.
fn is_time(bytes: &[u8]) -> bool
    ensures { result ≡ is_time bytes.now }
{
    !bytes.is_empty() && bytes.len() <= 20 && are_digits(bytes)
}

fn are_digits(bytes: &[u8]) -> bool
    ensures { result ≡ list_all is_ascii_digit bytes.now }
{
    bytes.iter().all(|byte| byte.is_ascii_digit())
}

/// The beginning of the line that closes a group of this sum.
fn closing_mark(sum: &[u8; 16]) -> [u8; 23]
    ensures { result ≡ closing_start sum.now }
{
    let mut text = *b"# sum 0123456789abcdef ";
    text[6..22].copy_from_slice(sum);
    text
}

/// Writes a group of these lines, which has this sum, and syncs it.
pub(crate) fn write_group<D: Disk>(
    disk: &mut D,
    lines: &[u8],
    sum: &[u8; 16],
    milliseconds: u64,
) -> Result<(), DiskError>
    ensures written { D.is_disk disk.new → OnOk result ((D.seen disk.new ≡ D.seen disk.old ++ group_text lines.now sum.now milliseconds) × (D.durable disk.new ≡ D.seen disk.new)) }
    ensures given { D.is_disk disk.new → D.given disk.new ≡ D.given disk.old }
    ensures stays { D.is_disk disk.new → D.is_disk disk.old }
    // A crash meanwhile leaves all that was synced before.
    ensures time { D.is_disk disk.new → Elapses (D.moment disk.old) (D.moment disk.new) (D.left_since disk.old) (D.left_since disk.new) (MayKeep (D.durable disk.old) (D.given disk.old)) }
{
    let mut time = [b'\n'; 21];
    let start = write_digits(milliseconds, &mut time, 20);
    disk.append(lines)?;
    disk.append(&closing_mark(sum))?;
    disk.append(&time[start..])?;
    disk.sync()
}
