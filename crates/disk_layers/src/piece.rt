// A piece of a file that is read before anybody asks for it.
ghost use Rattle.std.specs.Prelude.{◌≡◌, ◌≤◌, ◌<◌, ◌+◌, ◌-◌, ◌^◌, ◌⊎◌, [], List, ℕ, Some, length, take, IfOk};
ghost use Rattle.std.specs.Prelude.{IfSome, OnOk};
ghost use Rattle.byte_disk.specs.Files.{Files, bytes_at, bytes_of};
ghost use Rattle.disk_layers.specs.Ahead.{IsApart, IsIn, IsRight, Looks};

use byte_disk::{ByteDisk, DiskFault, File};
use std::alloc::Global;
use std::marker::Model;
use tape_types::NoMemory;

/// How many bytes are read at once at first, and where reads go on one behind the other at most.
const FIRST: usize = 8192;

const MOST: usize = 65536;

/// A piece of a file in memory. It is read anew where bytes are asked for that it lacks: 8,192 bytes, and twice as many
/// each time that reads go on from the last one, up to 65,536.
#[derive(Drop)]
pub(crate) struct Piece {
    from: u64,
    bytes: Vec<u8>,
    /// Where the last read ended.
    next: u64,
    /// How many bytes are read at once.
    width: usize,
}

impl Model for Piece {
    ghost use Rattle.disk_layers.specs.Ahead.{Span};

    ghost Value = { Span };

    ghost view = { λ p. record { from = p.from; bytes = p.bytes.items } };
}

impl Piece {
    /// No bytes, and room for as many as are read at once.
    pub fn new(alloc: Global) -> Result<Piece, NoMemory>
        ensures { IfOk result (λ p. p.bytes ≡ []) }
    {
        Ok(Piece {
            from: 0,
            bytes: Vec::with_capacity(alloc, MOST)?,
            next: 0,
            width: FIRST,
        })
    }

    /// Fills the buffer with the bytes of a file from a place on: those that it has, and the rest from the disk.
    pub fn read<B: ByteDisk>(
        &mut self,
        disk: &mut B,
        file: File,
        at: u64,
        buf: &mut [u8],
    ) -> Result<(), DiskFault>
        requires within { IfSome (B.held disk.old) (λ d. at + length buf.old ≤ length (bytes_of file d)) }
        requires right { IsRight B.ByteDisk disk.old file self.old }
        ensures size { length buf.new ≡ length buf.old }
        ensures value { (d : Files) → B.held disk.old ≡ Some d
            → OnOk result (buf.new ≡ bytes_at at (length buf.old) (bytes_of file d)) }
        ensures right { IsRight B.ByteDisk disk.new file self.new }
        ensures looks { Looks B.ByteDisk result disk.old disk.new }
    {
        let goes_on = at == self.next;
        self.next = at.saturating_add(buf.len() as u64);
        let had = self.take(at, buf);
        if had == buf.len() {
            return Ok(());
        }
        self.widen(goes_on);
        match disk.length(file) {
            Ok(size) => {
                let rest = at.saturating_add(had as u64);
                self.read_rest(disk, file, rest, &mut buf[had..], size)
            }
            Err(fault) => Err(fault),
        }
    }

    /// Forgets what it has, where some of it lies in a range.
    pub fn forget(&mut self, at: u64, count: usize)
        requires { at + count < 2 ^ 62 }
        ensures apart { IsApart at count self.new }
        ensures same { (self.new.bytes ≡ []) ⊎ (self.new ≡ self.old) }
    {
        let end = at + count as u64;
        if at < self.from.saturating_add(self.bytes.len() as u64) && self.from < end {
            self.bytes.clear();
        }
    }

    // Puts those bytes from a place on that it has at the front of the buffer. Answers how many those are.
    fn take(&self, at: u64, buf: &mut [u8]) -> usize
        ensures size { length buf.new ≡ length buf.old }
        ensures most { result ≤ length buf.old }
        ensures value { (file : List ℕ) → IsIn self.now file → take result buf.new ≡ bytes_at at result file }
    {
        if at < self.from {
            return 0;
        }
        let skipped = at - self.from;
        if skipped >= self.bytes.len() as u64 {
            return 0;
        }
        let skipped = skipped as usize;
        let count = (self.bytes.len() - skipped).min(buf.len());
        buf[..count].copy_from_slice(&self.bytes[skipped..skipped + count]);
        count
    }

    // Sets how many bytes are read at once.
    fn widen(&mut self, goes_on: bool)
        ensures { self.new ≡ self.old }
    {
        self.width = if goes_on {
            self.width.saturating_mul(2).min(MOST)
        } else {
            FIRST
        };
    }

    // Fills the buffer from the disk, whose file has so many bytes: from a piece of it, or at once where that is
    // shorter.
    fn read_rest<B: ByteDisk>(
        &mut self,
        disk: &mut B,
        file: File,
        at: u64,
        buf: &mut [u8],
        size: u64,
    ) -> Result<(), DiskFault>
        requires within { IfSome (B.held disk.old) (λ d. at + length buf.old ≤ length (bytes_of file d)) }
        requires size { IfSome (B.held disk.old) (λ d. size ≡ length (bytes_of file d)) }
        requires right { IsRight B.ByteDisk disk.old file self.old }
        ensures size { length buf.new ≡ length buf.old }
        ensures value { (d : Files) → B.held disk.old ≡ Some d
            → OnOk result (buf.new ≡ bytes_at at (length buf.old) (bytes_of file d)) }
        ensures right { IsRight B.ByteDisk disk.new file self.new }
        ensures looks { Looks B.ByteDisk result disk.old disk.new }
    {
        let count = size.saturating_sub(at).min(self.width as u64) as usize;
        if buf.len() >= self.width {
            return disk.read(file, at, buf);
        }
        if count < buf.len() {
            return disk.read(file, at, buf);
        }
        self.bytes.clear();
        if let Err(_) = self.bytes.resize(count, 0) {
            return disk.read(file, at, buf);
        }
        self.from = at;
        match disk.read(file, at, self.bytes.as_mut_slice()) {
            Ok(()) => {
                buf.copy_from_slice(&self.bytes[..buf.len()]);
                Ok(())
            }
            Err(fault) => {
                self.bytes.clear();
                Err(fault)
            }
        }
    }
}
