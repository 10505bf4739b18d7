//! Lines as a journal has them.
ghost use Rattle.std.specs.Prelude.{◌≡◌, ◌+◌, ◌<◌, ◌≤◌, ℕ, List, [], ◌∷◌, ◌++◌, length, take, map, replicate, option_map, IfOk, OnErr};
ghost use Rattle.std.specs.Io.KnownBytes.{Consumes, IsAtEnd, Keeps};
ghost use Rattle.std.specs.List.{list_all};
ghost use Rattle.std.specs.Str.Lines.{strip_carriage_return};
ghost use Rattle.batch_wire.specs.EventLine.{is_space};
ghost use Rattle.batch_wire.specs.Transcript.{lines_of};
ghost use Rattle.batch_serve.specs.CleanLines.{clean, clean_byte, clean_text, clean_from, clean_lines, gives_nothing};

use crate::line_buffer::LineBuffer;
use batch_wire::{MAX_LINE_LEN, line_feed};
use std::io;
use std::io::{ErrorKind, Read};

/// How many bytes one call of the reader below may give.
const PIECE_LEN: usize = 65_536;

/// A reader of an input's lines as a journal has them. A zero byte becomes `?`, and a line that is too long becomes 1,025 of them.
/// Lines that give nothing are left out. All others are as they were read. The end of the input ends its last line.
///
/// A read of it makes one read of the input, and is interrupted if it has no line to give after that. A read fails without room
/// for two bytes more than the line that it has begun, of which at most 1,026 are kept.
#[derive(Drop)]
pub struct CleanReader<R: Read> {
    inner: R,
    // the line that is being read, as far as it shows whether it is too long
    line: LineBuffer,
    piece: [u8; PIECE_LEN],
}

impl<R: Read> CleanReader<R> {
    /// A reader of the lines of this input.
    // claim: lines as a journal has them
    pub fn new(inner: R) -> CleanReader<R>
        ensures { option_map (clean_from result.line) (R.remaining result.inner) ≡ option_map (λ input. clean_lines (lines_of input)) (R.remaining inner) }
    {
        CleanReader {
            inner,
            line: LineBuffer::new(),
            piece: [0; PIECE_LEN],
        }
    }
}

impl<R: Read> Read for CleanReader<R> {
    // claim: lines as a journal has them
    ghost remaining = { λ r. option_map (clean_from r.line) (R.remaining r.inner) };

    fn read(&mut self, buf: &mut [u8]) -> io::Result<usize> {
        if buf.is_empty() {
            return Ok(0);
        }
        let begun = self.line.as_slice().len();
        if buf.len() <= begun + 1 {
            return Err(io::Error::from(ErrorKind::InvalidInput));
        }
        let most = PIECE_LEN.min(buf.len() - begun - 1);
        let count = read_front(&mut self.inner, &mut self.piece, most)?;
        if count == 0 {
            return Ok(end_line(&mut self.line, buf));
        }
        let written = clean_piece(&mut self.line, &self.piece[..count], buf);
        if written == 0 {
            return Err(io::Error::from(ErrorKind::Interrupted));
        }
        Ok(written)
    }
}

/// Reads at most so many bytes, to the front of the piece.
fn read_front<R: Read>(reader: &mut R, piece: &mut [u8], most: usize) -> io::Result<usize>
    requires some { 0 < most }
    requires within { most ≤ length piece.old }
    ensures ok { IfOk result (λ n. (n ≤ most) × Consumes (R.remaining reader.old) (R.remaining reader.new) (take n piece.new) × (n ≡ 0 → IsAtEnd (R.remaining reader.new))) }
    ensures err { OnErr result (Keeps (R.remaining reader.old) (R.remaining reader.new)) }
{
    reader.read(&mut piece[..most])
}

/// Consumes a piece of the input, and writes each line that ends in it.
fn clean_piece(line: &mut LineBuffer, piece: &[u8], out: &mut [u8]) -> usize
    requires { length line.old + length piece.now + 1 ≤ length out.old }
    ensures within { result ≤ length out.new }
    ensures text { (more : List ℕ) → clean_from line.old (piece.now ++ more) ≡ take result out.new ++ clean_from line.new more }
{
    let mut rest = piece;
    let mut written = 0;
    while let Some(at) = line_feed(rest) {
        line.extend(&rest[..at]);
        written += end_line(line, &mut out[written..]);
        rest = &rest[at + 1..];
    }
    line.extend(rest);
    written
}

/// Writes the line, which has ended, with its line feed.
fn end_line(line: &mut LineBuffer, out: &mut [u8]) -> usize
    requires { length line.old + 1 ≤ length out.old }
    ensures within { result ≤ length line.old + 1 }
    ensures begun { line.new ≡ [] }
    ensures text { take result out.new ≡ clean_text (clean line.old) }
{
    let count = put_clean(line.as_slice(), out);
    line.clear();
    count
}

/// Writes a line as a journal has it.
fn put_clean(line: &[u8], out: &mut [u8]) -> usize
    requires { length line.now + 1 ≤ length out.old }
    ensures within { result ≤ length line.now + 1 }
    ensures text { take result out.new ≡ clean_text (clean line.now) }
{
    let text = without_return(line);
    if text.len() > MAX_LINE_LEN {
        put_long(out);
        return MAX_LINE_LEN + 2;
    }
    if gives_nothing(text) {
        return 0;
    }
    put_bytes(line, out);
    line.len() + 1
}

/// Writes the replacement of a line that is too long.
fn put_long(out: &mut [u8])
    requires { 1026 ≤ length out.old }
    ensures { take 1026 out.new ≡ replicate 1025 63 ++ 10 ∷ [] }
{
    out[..MAX_LINE_LEN + 1].fill(b'?');
    out[MAX_LINE_LEN + 1] = b'\n';
}

/// Writes a line, each zero byte as `?`, and a line feed.
fn put_bytes(line: &[u8], out: &mut [u8])
    requires { length line.now + 1 ≤ length out.old }
    ensures { take (length line.now + 1) out.new ≡ map clean_byte line.now ++ 10 ∷ [] }
{
    for i in 0..line.len() {
        out[i] = clean_byte(line[i]);
    }
    out[line.len()] = b'\n';
}

fn clean_byte(byte: u8) -> u8
    ensures { result ≡ clean_byte byte }
{
    if byte == 0 { b'?' } else { byte }
}

fn gives_nothing(text: &[u8]) -> bool
    ensures { result ≡ gives_nothing text.now }
{
    if text.starts_with(b"#") {
        return true;
    }
    are_spaces(text)
}

fn are_spaces(text: &[u8]) -> bool
    ensures { result ≡ list_all is_space text.now }
{
    text.iter().all(|byte| *byte == b' ')
}

/// The line without a carriage return at its end.
pub(crate) fn without_return(line: &[u8]) -> &[u8]
    ensures { result.now ≡ strip_carriage_return line.now }
{
    match line {
        [front @ .., b'\r'] => front,
        _ => line,
    }
}
