//! Streams that note why they failed.
ghost use Rattle.std.specs.Prelude.{◌≡◌};

use std::io;
use std::io::{Read, Write};

/// A reader or a writer, and why a call of it failed last.
// claim: noted streams
#[derive(Drop)]
pub struct Noted<S> {
    pub stream: S,
    failure: Option<io::Error>,
}

impl<S> Noted<S> {
    /// The stream, of which no call has failed yet.
    pub fn new(stream: S) -> Noted<S>
        ensures { result.stream ≡ stream }
    {
        Noted {
            stream,
            failure: None,
        }
    }

    /// Why a call failed last, if one did.
    pub fn failure(&self) -> Option<io::Error>
        ensures { result ≡ self.now.failure }
    {
        self.failure
    }

    fn record_failure<T>(&mut self, outcome: &io::Result<T>)
        ensures { self.new.stream ≡ self.old.stream }
    {
        if let Err(error) = outcome {
            self.failure = Some(*error);
        }
    }
}

impl<R: Read> Read for Noted<R> {
    ghost remaining = { λ noted. R.remaining noted.stream };

    fn read(&mut self, buffer: &mut [u8]) -> io::Result<usize> {
        let result = self.stream.read(buffer);
        self.record_failure(&result);
        result
    }
}

impl<W: Write> Write for Noted<W> {
    ghost contents = { λ noted. W.contents noted.stream };

    fn write(&mut self, bytes: &[u8]) -> io::Result<usize> {
        match self.stream.write(bytes) {
            Ok(count) => Ok(count),
            Err(error) => {
                self.failure = Some(error);
                Err(error)
            }
        }
    }

    fn flush(&mut self) -> io::Result<()> {
        let result = self.stream.flush();
        self.record_failure(&result);
        result
    }
}
