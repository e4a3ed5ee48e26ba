// Bytes of a file that are read before anybody asks for them.
ghost use Rattle.std.specs.Prelude.{◌≡◌, ◌≤◌, length};

use crate::calls::FolderCalls;
use std::alloc::Global;
use std::io::{self, ErrorKind};
use tape_types::NoMemory;

/// How many bytes are read at once at first, and where reads go on one behind the other at most.
const FIRST: usize = 8192;

const MOST: usize = 65536;

/// A piece of a file in memory. It is read anew where bytes are asked for that it lacks, up to where a piece ends: of
/// 8,192 bytes, and twice as many each time that reads go on from the last one, up to 65,536.
#[derive(Drop)]
pub struct Ahead {
    from: u64,
    bytes: Vec<u8>,
    /// Where the last read ended.
    next: u64,
    /// How many bytes are read at once.
    width: usize,
}

impl Ahead {
    /// No bytes.
    pub fn new(alloc: Global) -> Result<Ahead, NoMemory> {
        Ok(Ahead {
            from: 0,
            bytes: Vec::with_capacity(alloc, MOST)?,
            next: 0,
            width: FIRST,
        })
    }

    /// Fills the buffer with the bytes of a file from a place on. The file has them, and ends there.
    pub fn read<R: FolderCalls>(
        &mut self,
        rt: &R,
        file: &R::File,
        at: u64,
        buf: &mut [u8],
        end: u64,
    ) -> io::Result<()>
        ensures { length buf.new ≡ length buf.old }
    {
        let goes_on = at == self.next;
        self.next = at.saturating_add(buf.len() as u64);
        let had = self.take(at, buf);
        let rest = &mut buf[had..];
        if rest.is_empty() {
            return Ok(());
        }
        self.widen(goes_on);
        let at = at.saturating_add(had as u64);
        if rest.len() >= self.width {
            return rt.read_at(file, at, rest);
        }
        self.fill(rt, file, at, end)?;
        if self.take(at, rest) < rest.len() {
            return Err(ErrorKind::UnexpectedEof.into());
        }
        Ok(())
    }

    /// Forgets what it has, where bytes are put in place of some from a place up to another one.
    pub fn forget(&mut self, at: u64, end: u64) {
        if at < self.from.saturating_add(self.bytes.len() as u64) && self.from < end {
            self.bytes.clear();
        }
    }

    // Puts those bytes from a place on that it has at the front of the buffer. Answers how many those are.
    fn take(&self, at: u64, buf: &mut [u8]) -> usize
        ensures size { length buf.new ≡ length buf.old }
        ensures most { result ≤ length buf.old }
    {
        if at < self.from {
            return 0;
        }
        let Some(here) = self.bytes.get((at - self.from) as usize..) else {
            return 0;
        };
        let count = here.len().min(buf.len());
        buf[..count].copy_from_slice(&here[..count]);
        count
    }

    // Sets how many bytes are read at once.
    fn widen(&mut self, goes_on: bool) {
        self.width = if goes_on {
            self.width.saturating_mul(2).min(MOST)
        } else {
            FIRST
        };
    }

    // Reads a piece from a place on.
    fn fill<R: FolderCalls>(
        &mut self,
        rt: &R,
        file: &R::File,
        at: u64,
        end: u64,
    ) -> io::Result<()> {
        let count = end.saturating_sub(at).min(self.width as u64) as usize;
        self.bytes.resize(count, 0)?;
        self.from = at;
        let filled = rt.read_at(file, at, self.bytes.as_mut_slice());
        if filled.is_err() {
            self.bytes.clear();
        }
        filled
    }
}
