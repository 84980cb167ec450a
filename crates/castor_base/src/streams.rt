// The real source and sink, over standard input, output and error.
ghost use Rattle.std.specs.Prelude.{◌≡◌};

use crate::{Failed, Sink, Source};
use std::io::{Read, Write};

/// A source over a reader, as standard input. It counts a fault at each error of the reader, and
/// tells its content only where the reader does.
#[derive(Drop)]
pub struct ReaderSource<R: Read> {
    inner: R,
    faults: u64,
}

impl<R: Read> ReaderSource<R> {
    ghost use Rattle.castor_base.specs.Real.{reader_of, reader_faults};

    /// A source of the bytes that the reader has left, with no buffer of its own.
    pub fn new(inner: R) -> Self
        ensures reader { reader_of result ≡ inner }
        ensures faults { reader_faults result ≡ 0 }
    {
        ReaderSource { inner, faults: 0 }
    }

    /// How many calls of `take` failed. The number stops at 2^64 - 1.
    pub(crate) fn faults(&self) -> u64
        ensures { result ≡ reader_faults self.now }
    {
        self.faults
    }
}

impl<R: Read> Source for ReaderSource<R> {
    ghost left = { λ s. R.remaining s.inner };

    ghost faults = { λ s. s.faults };

    fn take(&mut self, buf: &mut [u8]) -> Result<usize, Failed> {
        match self.inner.read(buf) {
            Ok(n) => Ok(n),
            Err(_) => {
                self.faults = self.faults.saturating_add(1);
                Err(Failed)
            }
        }
    }
}

/// A sink over a writer, as standard output and standard error. It counts a fault at each error of
/// the writer, and where the writer takes nothing of a piece. It tells its content only where the
/// writer does.
#[derive(Drop)]
pub struct WriterSink<W: Write> {
    inner: W,
    faults: u64,
}

impl<W: Write> WriterSink<W> {
    ghost use Rattle.castor_base.specs.Real.{writer_of, writer_faults};

    /// A sink that writes what it is given at once, with no buffer of its own.
    pub fn new(inner: W) -> Self
        ensures writer { writer_of result ≡ inner }
        ensures faults { writer_faults result ≡ 0 }
    {
        WriterSink { inner, faults: 0 }
    }

    /// How many calls of `put` failed. The number stops at 2^64 - 1.
    pub(crate) fn faults(&self) -> u64
        ensures { result ≡ writer_faults self.now }
    {
        self.faults
    }
}

impl<W: Write> Sink for WriterSink<W> {
    ghost given = { λ s. W.contents s.inner };

    ghost faults = { λ s. s.faults };

    fn put(&mut self, bytes: &[u8]) -> Result<usize, Failed> {
        if bytes.is_empty() {
            return Ok(0);
        }
        match self.inner.write(bytes) {
            Ok(n) if n != 0 => Ok(n),
            _ => {
                self.faults = self.faults.saturating_add(1);
                Err(Failed)
            }
        }
    }
}
