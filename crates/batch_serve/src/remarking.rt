//! Comments on the lines that are served: when they came, and the lines themselves.
ghost use Rattle.std.specs.Prelude.{◌≡◌, ◌<◌, ◌||◌, ℕ, OnOk, false};
ghost use Rattle.std.specs.Io.KnownBytes.{Appends, Keeps};
ghost use Rattle.batch_serve.specs.Comments.{echo_text, echoed, escape, escaped, escaped_byte, hex_digit, is_printable, time_text};
ghost use Rattle.batch_serve.specs.Remarking.{WritesRemark, uncommented};

use crate::clean_lines::without_return;
use crate::held::Start;
use crate::remarked::{Remarked, TextSpot};
use crate::remarks::Remarks;
use batch_wire::{MAX_LINE_LEN, WriteFault};
use itoa::Buffer;
use std::io::Write;
use std::time::Clock;

/// The remarks on the lines that are served.
#[derive(Drop)]
pub struct Remarking<K: Clock> {
    clock: K,
    echo: bool,
    times: bool,
    // the time of the last read is still to be written
    time_is_due: bool,
}

impl<K: Clock> Remarking<K> {
    /// Remarks before each answer the line itself, if `echo`; before the first answer after a read the clock's time, if `times`.
    // claim: comments written
    pub fn new(clock: K, echo: bool, times: bool) -> Remarking<K>
        ensures { (result.echo ≡ echo) × (result.times ≡ times) }
    {
        Remarking {
            clock,
            echo,
            times,
            time_is_due: false,
        }
    }
}

// claim: comments written
impl<W: Write, K: Clock, C: Start> Remarks<Remarked<W, C>> for Remarking<K> {
    fn read_begins(&mut self)
        ensures { (self.new.time_is_due ≡ self.old.times) × (self.new.echo ≡ self.old.echo) × (self.new.times ≡ self.old.times) }
    {
        self.time_is_due = self.times;
    }

    fn is_due(&self) -> bool
        ensures { result ≡ (self.now.time_is_due || self.now.echo) }
    {
        self.time_is_due || self.echo
    }

    fn answer_begins(&mut self, line: &[u8], writer: &mut Remarked<W, C>) -> Result<(), WriteFault>
        ensures kept { Keeps (uncommented C.contents (W.contents writer.old.inner)) (uncommented C.contents (W.contents writer.new.inner)) }
        ensures written { OnOk result (WritesRemark self.old.time_is_due self.old.echo line.now (W.contents writer.old.inner) (W.contents writer.new.inner)) }
        ensures once { OnOk result (self.new.time_is_due ≡ false) }
        ensures asked { (self.new.echo ≡ self.old.echo) × (self.new.times ≡ self.old.times) }
    {
        if self.time_is_due {
            write_time(&self.clock, writer)?;
            self.time_is_due = false;
        }
        if self.echo {
            write_echo(line, writer)?;
        }
        Ok(())
    }
}

/// Writes the time as a comment.
fn write_time<K: Clock, W: Write, C: Start>(
    clock: &K,
    writer: &mut Remarked<W, C>,
) -> Result<(), WriteFault>
    ensures kept { Keeps (uncommented C.contents (W.contents writer.old.inner)) (uncommented C.contents (W.contents writer.new.inner)) }
    ensures written { OnOk result ((milliseconds : ℕ) × Appends (W.contents writer.old.inner) (W.contents writer.new.inner) (time_text milliseconds)) }
{
    write_milliseconds(milliseconds_of(clock), writer)
}

fn write_milliseconds<W: Write, C: Start>(
    milliseconds: u64,
    writer: &mut Remarked<W, C>,
) -> Result<(), WriteFault>
    ensures kept { Keeps (uncommented C.contents (W.contents writer.old.inner)) (uncommented C.contents (W.contents writer.new.inner)) }
    ensures written { OnOk result (Appends (W.contents writer.old.inner) (W.contents writer.new.inner) (time_text milliseconds)) }
{
    let mut buffer = Buffer::new();
    let digits = buffer.format(milliseconds).as_bytes();
    writer.write_part(TextSpot::Start, b"# at ", TextSpot::Comment)?;
    writer.write_part(TextSpot::Comment, digits, TextSpot::Comment)?;
    writer.write_part(TextSpot::Comment, b"\n", TextSpot::Start)
}

/// The time in milliseconds since 1970; 0 if the clock doesn't give it.
fn milliseconds_of<K: Clock>(clock: &K) -> u64 {
    match clock.since_1970() {
        Ok(time) => u64::try_from(time.as_millis()).unwrap_or(u64::MAX),
        Err(_) => 0,
    }
}

/// Writes the line as a comment.
fn write_echo<W: Write, C: Start>(
    line: &[u8],
    writer: &mut Remarked<W, C>,
) -> Result<(), WriteFault>
    ensures kept { Keeps (uncommented C.contents (W.contents writer.old.inner)) (uncommented C.contents (W.contents writer.new.inner)) }
    ensures written { OnOk result (Appends (W.contents writer.old.inner) (W.contents writer.new.inner) (echo_text line.now)) }
{
    writer.write_part(TextSpot::Start, b"# > ", TextSpot::Comment)?;
    write_escaped(echoed(line), writer)?;
    writer.write_part(TextSpot::Comment, b"\n", TextSpot::Start)
}

/// The line without the carriage return at its end; of one that is too long, the first 1,025 bytes.
fn echoed(line: &[u8]) -> &[u8]
    ensures { result.now ≡ echoed line.now }
{
    let text = without_return(line);
    &text[..text.len().min(MAX_LINE_LEN + 1)]
}

/// Writes a text in the midst of a comment, each byte outside printable ASCII by its escape.
fn write_escaped<W: Write, C: Start>(
    text: &[u8],
    writer: &mut Remarked<W, C>,
) -> Result<(), WriteFault>
    ensures kept { Keeps (uncommented C.contents (W.contents writer.old.inner)) (uncommented C.contents (W.contents writer.new.inner)) }
    ensures written { OnOk result (Appends (W.contents writer.old.inner) (W.contents writer.new.inner) (escaped text.now)) }
{
    for byte in text {
        write_byte(*byte, writer)?;
    }
    Ok(())
}

fn write_byte<W: Write, C: Start>(byte: u8, writer: &mut Remarked<W, C>) -> Result<(), WriteFault>
    ensures kept { Keeps (uncommented C.contents (W.contents writer.old.inner)) (uncommented C.contents (W.contents writer.new.inner)) }
    ensures written { OnOk result (Appends (W.contents writer.old.inner) (W.contents writer.new.inner) (escaped_byte byte)) }
{
    if is_printable(byte) {
        writer.write_part(TextSpot::Comment, &[byte], TextSpot::Comment)
    } else {
        writer.write_part(TextSpot::Comment, &escape(byte), TextSpot::Comment)
    }
}

fn is_printable(byte: u8) -> bool
    ensures { result ≡ is_printable byte }
{
    32 <= byte && byte <= 126
}

/// `\x` and two digits.
fn escape(byte: u8) -> [u8; 4]
    ensures { result ≡ escape byte }
{
    [b'\\', b'x', hex_digit(byte / 16), hex_digit(byte % 16)]
}

fn hex_digit(digit: u8) -> u8
    requires { digit < 16 }
    ensures { result ≡ hex_digit digit }
{
    if digit < 10 {
        b'0' + digit
    } else {
        b'a' + (digit - 10)
    }
}
