ghost use Rattle.std.specs.Prelude.{◌≡◌};

use crate::traits::{ReadFault, Sink, Source, WriteFault};
use std::io::{Read, Write};

/// A source over any reader, as standard input.
#[derive(Drop)]
pub struct ReaderSource<R> {
    inner: R,
    faults: u64,
}

impl<R> ReaderSource<R> {
    /// A source that has not failed yet.
    pub fn new(inner: R) -> ReaderSource<R>
        ensures inner { result.inner ≡ inner }
        ensures faults { result.faults ≡ 0 }
    {
        ReaderSource { inner, faults: 0 }
    }
}

impl<R: Read> Source for ReaderSource<R> {
    ghost left = { λ s. R.remaining s.inner };

    ghost faults = { λ s. s.faults };

    fn faults(&self) -> u64 {
        self.faults
    }

    fn read(&mut self, buf: &mut [u8]) -> Result<usize, ReadFault> {
        match self.inner.read(buf) {
            Ok(count) => Ok(count),
            Err(_) => {
                self.faults = self.faults.saturating_add(1);
                Err(ReadFault)
            }
        }
    }
}

/// A sink over any writer, as standard output. A write that takes nothing of a piece that isn't empty is a fault.
#[derive(Drop)]
pub struct WriterSink<W> {
    inner: W,
    faults: u64,
}

impl<W> WriterSink<W> {
    /// A sink that has not failed yet.
    pub fn new(inner: W) -> WriterSink<W>
        ensures inner { result.inner ≡ inner }
        ensures faults { result.faults ≡ 0 }
    {
        WriterSink { inner, faults: 0 }
    }
}

impl<W: Write> Sink for WriterSink<W> {
    ghost written = { λ s. W.contents s.inner };

    ghost faults = { λ s. s.faults };

    fn faults(&self) -> u64 {
        self.faults
    }

    fn write(&mut self, bytes: &[u8]) -> Result<(), WriteFault> {
        let mut at = 0;
        while at < bytes.len() {
            match self.inner.write(&bytes[at..]) {
                Ok(0) | Err(_) => {
                    self.faults = self.faults.saturating_add(1);
                    return Err(WriteFault);
                }
                Ok(count) => at += count,
            }
        }
        Ok(())
    }
}
