ghost use Rattle.std.specs.Prelude.{◌≡◌, false, IfErr};
ghost use Rattle.std.specs.Io.{ReadsAtMost, WritesAtMost};
ghost use Rattle.std.specs.Io.KnownBytes.{Keeps, ReadConsumes, WriteAppends};
ghost use Rattle.tape_edge.specs.Streams.{IsFinal};

use std::io::{self, ErrorKind, Read, Write};
use std::thread;
use std::time::{Clock, Duration};

/// A reader or a writer that is asked again where the system says so: at once where a signal came between, and after a
/// millisecond where there is nothing to read yet, or no room to write, as on a pipe that doesn't block. It gives up
/// after 2^64 - 1 tries.
#[derive(Drop)]
pub struct Patient<T, C> {
    inner: T,
    clock: C,
}

impl<T, C> Patient<T, C> {
    /// The same reader or writer; the clock is asked to let a millisecond go by.
    pub fn new(inner: T, clock: C) -> Patient<T, C>
        ensures { result.inner ≡ inner }
    {
        Patient { inner, clock }
    }
}

impl<R: Read, C: Clock> Read for Patient<R, C> {
    ghost remaining = { λ p. R.remaining p.inner };

    fn read(&mut self, buf: &mut [u8]) -> io::Result<usize>
        ensures bound { ReadsAtMost result buf.new }
        ensures bytes { ReadConsumes (R.remaining self.old.inner) (R.remaining self.new.inner) result buf.new }
        ensures patient { IfErr result IsFinal }
    {
        for _ in 0..u64::MAX {
            match self.inner.read(buf) {
                Ok(count) => return Ok(count),
                Err(error) => {
                    if !is_passing(&self.clock, &error) {
                        return Err(error);
                    }
                }
            }
        }
        Err(ErrorKind::TimedOut.into())
    }
}

impl<W: Write, C: Clock> Write for Patient<W, C> {
    ghost contents = { λ p. W.contents p.inner };

    fn write(&mut self, buf: &[u8]) -> io::Result<usize>
        ensures bound { WritesAtMost result buf.now }
        ensures bytes { WriteAppends (W.contents self.old.inner) (W.contents self.new.inner) result buf.now }
        ensures patient { IfErr result IsFinal }
    {
        for _ in 0..u64::MAX {
            match self.inner.write(buf) {
                Ok(count) => return Ok(count),
                Err(error) => {
                    if !is_passing(&self.clock, &error) {
                        return Err(error);
                    }
                }
            }
        }
        Err(ErrorKind::TimedOut.into())
    }

    fn flush(&mut self) -> io::Result<()>
        ensures bytes { Keeps (W.contents self.old.inner) (W.contents self.new.inner) }
        ensures patient { IfErr result IsFinal }
    {
        for _ in 0..u64::MAX {
            match self.inner.flush() {
                Ok(()) => return Ok(()),
                Err(error) => {
                    if !is_passing(&self.clock, &error) {
                        return Err(error);
                    }
                }
            }
        }
        Err(ErrorKind::TimedOut.into())
    }
}

// Whether the call that met an error is to be made again. Where it would have to wait, a moment has gone by then.
fn is_passing<C: Clock>(clock: &C, error: &io::Error) -> bool
    ensures { result ≡ false → IsFinal error.now }
{
    if error.kind() == ErrorKind::Interrupted {
        return true;
    }
    if error.kind() == ErrorKind::WouldBlock {
        thread::sleep(clock, Duration::from_millis(1));
        return true;
    }
    false
}
