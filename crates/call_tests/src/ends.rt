//! Readers and writers that give and take in pieces, and fail at one call.
use std::alloc::Global;
use std::io;
use std::io::{ErrorKind, Read, Write};

/// Gives its bytes one a call, and fails at one call in this way. Calls are counted from 1.
#[derive(Drop)]
pub(crate) struct OneByOne<'a> {
    bytes: &'a [u8],
    calls: usize,
    fails_at: usize,
    fault: ErrorKind,
}

impl<'a> OneByOne<'a> {
    /// No call fails.
    pub(crate) fn of(bytes: &'a [u8]) -> OneByOne<'a> {
        OneByOne::failing(bytes, 0, ErrorKind::Other)
    }

    pub(crate) fn failing(bytes: &'a [u8], fails_at: usize, fault: ErrorKind) -> OneByOne<'a> {
        OneByOne {
            bytes,
            calls: 0,
            fails_at,
            fault,
        }
    }
}

impl<'a> Read for OneByOne<'a> {
    fn read(&mut self, buf: &mut [u8]) -> io::Result<usize> {
        self.calls = self.calls.saturating_add(1);
        if self.calls == self.fails_at {
            return Err(io::Error::from(self.fault));
        }
        let count = self.bytes.len().min(buf.len()).min(1);
        let (front, rest) = self.bytes.split_at(count);
        buf[..count].copy_from_slice(front);
        self.bytes = rest;
        Ok(count)
    }
}

/// How a writer fails.
#[derive(Clone, Copy)]
pub(crate) enum Failure {
    /// A call is refused.
    Refuses,
    /// A call takes nothing.
    TakesNone,
    /// A flush is refused.
    KeepsBack,
}

/// Takes one byte a call, and fails at one call in this way. Flushes are counted by themselves, from 1.
#[derive(Drop)]
pub(crate) struct Narrow {
    pub(crate) taken: Vec<u8>,
    calls: usize,
    handed_on: usize,
    fails_at: usize,
    failure: Failure,
}

impl Narrow {
    pub(crate) fn failing(alloc: Global, fails_at: usize, failure: Failure) -> Narrow {
        Narrow {
            taken: Vec::new(alloc),
            calls: 0,
            handed_on: 0,
            fails_at,
            failure,
        }
    }
}

impl Write for Narrow {
    fn write(&mut self, buf: &[u8]) -> io::Result<usize> {
        self.calls = self.calls.saturating_add(1);
        if self.calls == self.fails_at {
            match self.failure {
                Failure::Refuses => return Err(io::Error::from(ErrorKind::Other)),
                Failure::TakesNone => return Ok(0),
                Failure::KeepsBack => {}
            }
        }
        let count = buf.len().min(1);
        self.taken.extend_from_slice(&buf[..count])?;
        Ok(count)
    }

    fn flush(&mut self) -> io::Result<()> {
        self.handed_on = self.handed_on.saturating_add(1);
        match self.failure {
            Failure::KeepsBack if self.handed_on == self.fails_at => {
                Err(io::Error::from(ErrorKind::Other))
            }
            _ => Ok(()),
        }
    }
}
