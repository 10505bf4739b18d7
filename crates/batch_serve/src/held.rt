//! A writer that holds answers back until they show no want of memory.
ghost use Rattle.batch_wire.specs.EventLine.{event_of_line};
ghost use Rattle.std.specs.Prelude.{◌≡◌, ◌⊎◌, ◌<◌, ◌≤◌, ℕ, List, Option, Some, None, Ok, [], length, take, drop, IsTrue, IsFalse, MatchOption, OnOk};
ghost use Rattle.std.specs.Io.KnownBytes.{Appends, Keeps, append_known};
ghost use Rattle.batch_serve.specs.Held.{IsPassed, IsHeldBack, IsUnended, TellsAll, TellsClear};
ghost use Rattle.batch_serve.specs.Replays.{ContainsBytes, ShowsNoWant};
ghost use Rattle.batch_serve.specs.Holding.{FindsFirst, IsWholeTo, StopsAt, sooner};

use crate::remarks::Remarks;
use batch_wire::WriteFault;
use memchr::{memmem, memrchr};
use std::alloc::Global;
use std::io;
use std::io::{ErrorKind, Write};
use std::marker::{Brand, PhantomData};

/// The contents of a writer at the start of a run, as a type: they stay known while code runs that knows only of a writer.
pub trait Start {
    /// The bytes, if they are known.
    ghost contents: { Option (List ℕ) };
}

/// A writer that holds the written text. A flush passes on its whole lines before the first refusal for want of memory.
///
/// Each flush fails from that refusal on, and if there was no memory to hold the written text.
#[derive(Drop)]
pub struct Held<W: Write, C: Start> {
    inner: W,
    // the text that the inner writer doesn't have yet, and the length of its prefix that may be passed on
    held: Vec<u8>,
    cleared: usize,
    has_want: bool,
    of: PhantomData<C>,
    ghost within: { cleared ≤ length held.items },
    // claim: want is held back
    ghost told: { IsPassed C.contents (W.contents inner) (take cleared held.items) },
}

impl<W: Write, C: Start> Held<W, C> {
    /// A writer over this one, which holds no text yet.
    pub fn new(alloc: Global, inner: W) -> Held<W, C>
        requires { C.contents ≡ W.contents inner }
        ensures { append_known (W.contents result.inner) result.held.items ≡ append_known (W.contents inner) [] }
    {
        Held {
            inner,
            held: Vec::new(alloc),
            cleared: 0,
            has_want: false,
            of: PhantomData,
        }
    }

    /// Whether it stopped for want of memory.
    pub fn has_want(&self) -> bool
        ensures { result ≡ self.now.has_want }
    {
        self.has_want
    }

    /// Returns the writer. The text that it got since the start is a prefix of a clear text.
    // claim: want is held back
    pub fn into_inner(self) -> W
        ensures { (held : List ℕ) → C.contents ≡ Some held → TellsClear held (W.contents result) (append_known (W.contents self.inner) self.held.items) }
    {
        self.inner
    }

    /// Flushes, and returns the outcome and the writer. The text that the writer got since the start is a prefix of a clear text.
    /// If all the text is whole lines and the outcome is `Ok`, the writer got all of it.
    // claim: all is told
    pub fn finish(mut self) -> (io::Result<()>, W)
        ensures clear { (held : List ℕ) → C.contents ≡ Some held → TellsClear held (W.contents result.1) (append_known (W.contents self.inner) self.held.items) }
        ensures all { OnOk result.0 (TellsAll C.contents (append_known (W.contents self.inner) self.held.items) (W.contents result.1)) }
    {
        let result = self.flush();
        (result, self.inner)
    }

    /// Passes on all of the held text, and then writes the remarks on a line.
    ///
    /// It fails if a part of that text must be held back: a refusal for want of memory or an unfinished line.
    // claim: remarks on held answers
    pub(crate) fn remark<M: Remarks<W>>(
        &mut self,
        line: &[u8],
        remarks: &mut M,
    ) -> Result<(), WriteFault>
        requires { event_of_line line.now ≡ Ok None → ⊥ }
        ensures bytes { Keeps (append_known (W.contents self.old.inner) self.old.held.items) (append_known (W.contents self.new.inner) self.new.held.items) }
        ensures none { OnOk result (self.new.held.items ≡ []) }
        ensures want { IsTrue self.new.has_want → IsTrue self.old.has_want ⊎ IsHeldBack self.new.held.items }
    {
        self.clear();
        if self.pass_on().is_err() {
            return Err(WriteFault);
        }
        if self.held.is_empty() {
            return remarks.answer_begins(line, &mut self.inner);
        }
        // The flush notes whether memory was wanted.
        match self.flush() {
            Ok(()) | Err(_) => Err(WriteFault),
        }
    }

    /// Clears the held whole lines before the first refusal for want of memory. Returns whether there is one.
    fn clear(&mut self) -> bool
        ensures bytes { Keeps (append_known (W.contents self.old.inner) self.old.held.items) (append_known (W.contents self.new.inner) self.new.held.items) }
        ensures has_want { self.new.has_want ≡ self.old.has_want }
        ensures rest { IsHeldBack (drop self.new.cleared self.new.held.items) }
        ensures none { IsFalse result → IsUnended (drop self.new.cleared self.new.held.items) }
    {
        let group = &self.held.as_slice()[self.cleared..];
        let (end, has_want) = want_or_end(group);
        let len = whole_len(&group[..end]);
        self.cleared += len;
        has_want
    }

    /// Passes on the cleared text.
    fn pass_on(&mut self) -> io::Result<()>
        ensures bytes { Keeps (append_known (W.contents self.old.inner) self.old.held.items) (append_known (W.contents self.new.inner) self.new.held.items) }
        ensures has_want { self.new.has_want ≡ self.old.has_want }
        ensures ok { OnOk result (self.new.held.items ≡ drop self.old.cleared self.old.held.items) }
    {
        let cleared = &self.held.as_slice()[..self.cleared];
        let (count, outcome) = write_out(&mut self.inner, cleared);
        remove_front(&mut self.held, count);
        self.cleared -= count;
        outcome
    }
}

impl<W: Write, C: Start> Write for Held<W, C> {
    ghost contents = { λ w. append_known (W.contents w.inner) w.held.items };

    fn write(&mut self, bytes: &[u8]) -> io::Result<usize> {
        match self.held.extend_from_slice(bytes) {
            Ok(()) => Ok(bytes.len()),
            Err(_) => {
                self.has_want = true;
                Err(io::Error::from(ErrorKind::OutOfMemory))
            }
        }
    }

    // claim: nothing else is held back (passed, want)
    fn flush(&mut self) -> io::Result<()>
        ensures bytes { Keeps (append_known (W.contents self.old.inner) self.old.held.items) (append_known (W.contents self.new.inner) self.new.held.items) }
        // Only an unfinished line is held back, or the text from a refusal for want of memory on.
        ensures passed { OnOk result (IsUnended self.new.held.items) }
        ensures want { IsTrue self.new.has_want → IsTrue self.old.has_want ⊎ IsHeldBack self.new.held.items }
    {
        let has_want = self.clear();
        self.pass_on()?;
        self.inner.flush()?;
        if has_want {
            self.has_want = true;
            return Err(io::Error::from(ErrorKind::OutOfMemory));
        }
        if self.has_want {
            // There was no memory to hold all of the written text.
            return Err(io::Error::from(ErrorKind::OutOfMemory));
        }
        Ok(())
    }
}

/// Writes the bytes. Returns how many were written.
fn write_out<W: Write>(writer: &mut W, bytes: &[u8]) -> (usize, io::Result<()>)
    ensures bound { result.0 ≤ length bytes.now }
    ensures bytes { Appends (W.contents writer.old) (W.contents writer.new) (take result.0 bytes.now) }
    ensures all { OnOk result.1 (result.0 ≡ length bytes.now) }
{
    let mut written = 0;
    while written < bytes.len() {
        match writer.write(&bytes[written..]) {
            Ok(0) => return (written, Err(io::Error::from(ErrorKind::WriteZero))),
            Ok(count) => written += count,
            Err(error) => return (written, Err(error)),
        }
    }
    (written, Ok(()))
}

fn remove_front(bytes: &mut Vec<u8>, count: usize)
    requires { count ≤ length bytes.old.items }
    ensures { bytes.new.items ≡ drop count bytes.old.items }
{
    let len = bytes.len();
    bytes.as_mut_slice().copy_within(count..len, 0);
    bytes.truncate(len - count);
}

/// The start of the first refusal for want of memory, or else the text's end; and whether there is one.
fn want_or_end(text: &[u8]) -> (usize, bool)
    ensures stops { StopsAt text.now result.0 }
    ensures end { IsFalse result.1 → result.0 ≡ length text.now }
{
    match first_want(text) {
        Some(at) => (at, true),
        None => (text.len(), false),
    }
}

/// The start of the first refusal for want of memory.
fn first_want(text: &[u8]) -> Option<usize>
    ensures { MatchOption result (StopsAt text.now (length text.now)) (StopsAt text.now) }
{
    let event = first_of(b"refused E11\n", text);
    let line = first_of(b"refused W6\n", text);
    sooner(event, line)
}

/// The least of the places that there are.
fn sooner(one: Option<usize>, other: Option<usize>) -> Option<usize>
    ensures { result ≡ sooner one other }
{
    match (one, other) {
        (Some(one), Some(other)) => Some(one.min(other)),
        (Some(one), None) => Some(one),
        (None, other) => other,
    }
}

/// Whether a line of the text is a refusal for want of memory.
// claim: want is seen
pub fn shows_want(text: &[u8]) -> bool
    ensures none { IsFalse result → ShowsNoWant text.now }
    ensures some { IsTrue result → ShowsNoWant text.now → ⊥ }
{
    occurs(b"refused E11\n", text) || occurs(b"refused W6\n", text)
}

fn occurs(needle: &[u8], text: &[u8]) -> bool
    requires { 0 < length needle.now }
    ensures none { IsFalse result → ContainsBytes needle.now text.now → ⊥ }
    ensures some { IsTrue result → ContainsBytes needle.now text.now }
{
    first_of(needle, text).is_some()
}

/// The position of the first occurrence of the needle in the text.
fn first_of(needle: &[u8], text: &[u8]) -> Option<usize>
    requires { 0 < length needle.now }
    ensures { FindsFirst needle.now text.now result }
{
    memmem::find(text, needle)
}

/// The length of the text's whole lines.
fn whole_len(text: &[u8]) -> usize
    ensures { IsWholeTo text.now result }
{
    match memrchr(b'\n', text) {
        Some(at) => at + 1,
        None => 0,
    }
}

impl Start for Brand {
    ghost use Rattle.std.specs.Prelude.{None};

    ghost contents = { None };
}
