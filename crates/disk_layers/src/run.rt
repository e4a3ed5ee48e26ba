// A run of bytes that is held back.
ghost use Rattle.std.specs.Prelude.{◌≡◌, ◌≤◌, ◌<◌, ◌+◌, ◌^◌, [], Some, None, length, IfOk, IsFalse, IsTrue, false};
ghost use Rattle.byte_disk.specs.declared.disk.File.TheVariants.{Cm};
ghost use Rattle.tape_types.specs.Counts.{HasCause};
ghost use Rattle.crash_steps.specs.Crashes.{Crashes};
ghost use Rattle.byte_disk.specs.Files.{AfterWrite, AreBytes, Files};
ghost use Rattle.byte_disk.specs.Commands.{IsOneMore, WithinWrite};
ghost use Rattle.disk_layers.specs.Held.{HeldFirst, HeldOn, IsClear, IsFit, WrittenOut, length_over};

use byte_disk::{ByteDisk, DiskFault, File};
use std::alloc::Global;
use std::marker::Model;
use tape_types::NoMemory;

/// How many bytes are held back at most: two records of the usual block, or one of the greatest.
const MOST: usize = 1114112;

/// Bytes that follow one another in a file from a place on, and aren't written yet.
#[derive(Drop)]
pub(crate) struct HeldRun {
    file: File,
    from: u64,
    bytes: Vec<u8>,
}

impl Model for HeldRun {
    ghost use Rattle.disk_layers.specs.Held.{Run};

    ghost Value = { Run };

    ghost view = { λ r. record { file = r.file; from = r.from; bytes = r.bytes.items } };
}

impl HeldRun {
    /// No bytes, and room for as many as are held back.
    pub fn new(alloc: Global) -> Result<HeldRun, NoMemory>
        ensures { IfOk result (λ r. r ≡ record { file = Cm; from = 0; bytes = [] }) }
    {
        Ok(HeldRun {
            file: File::Cm,
            from: 0,
            bytes: Vec::with_capacity(alloc, MOST)?,
        })
    }

    pub fn file(&self) -> File
        ensures { result ≡ self.now.file }
    {
        self.file
    }

    pub fn is_empty(&self) -> bool
        ensures none { IsTrue result → self.now.bytes ≡ [] }
        ensures some { IsFalse result → 1 ≤ length self.now.bytes }
    {
        self.bytes.is_empty()
    }

    /// How long a file of so many bytes is with these over it.
    pub fn length_of(&self, file: File, size: u64) -> u64
        requires { self.now.from + length self.now.bytes < 2 ^ 62 }
        ensures { result ≡ length_over self.now file size }
    {
        if self.file == file {
            return size.max(self.from + self.bytes.len() as u64);
        }
        size
    }

    /// Whether none of so many bytes of a file from a place on is among these, or lies behind one of them.
    pub fn is_clear(&self, file: File, at: u64, count: usize) -> bool
        ensures { IsTrue result → IsClear self.now file (at + count) }
    {
        if self.bytes.is_empty() {
            return true;
        }
        if self.file != file {
            return true;
        }
        at <= self.from && count as u64 <= self.from - at
    }

    /// Holds bytes behind its own, if they follow these, and there is room. Tells whether it does.
    pub fn hold_on(&mut self, file: File, at: u64, bytes: &[u8]) -> bool
        requires { self.old.from + length self.old.bytes < 2 ^ 62 }
        ensures { HeldOn result file at bytes.now self.old self.new }
    {
        if self.bytes.is_empty() || self.file != file {
            return false;
        }
        if at != self.from + self.bytes.len() as u64
            || bytes.len() > MOST.saturating_sub(self.bytes.len())
        {
            return false;
        }
        self.bytes.extend_from_slice(bytes).is_ok()
    }

    /// Holds bytes as the first ones, if there is room. Tells whether it does.
    pub fn hold_first(&mut self, file: File, at: u64, bytes: &[u8]) -> bool
        requires { self.old.bytes ≡ [] }
        ensures { HeldFirst result file at bytes.now self.old self.new }
    {
        if bytes.len() > MOST {
            return false;
        }
        match self.bytes.extend_from_slice(bytes) {
            Ok(()) => {
                self.file = file;
                self.from = at;
                true
            }
            Err(_) => false,
        }
    }

    /// Writes its bytes to a disk. Where that fails all of them are held as before.
    pub fn write_to<B: ByteDisk>(&mut self, disk: &mut B) -> Result<(), DiskFault>
        requires { IsFit B.ByteDisk (self.old, disk.old) }
        ensures run { WrittenOut result self.old self.new }
        ensures told { (d : Files) → B.held disk.old ≡ Some d → (e : Files) × (B.held disk.new ≡ Some e)
            × AfterWrite result self.old.file self.old.from self.old.bytes d e }
        ensures untold { B.held disk.old ≡ None → B.held disk.new ≡ None }
        ensures count { IsOneMore (B.commands disk.old) (B.commands disk.new) }
        ensures cause { HasCause (B.faults disk.old) (B.faults disk.new) result }
        ensures crash { Crashes (WithinWrite self.old.file self.old.from (length self.old.bytes)) (B.commands disk.old)
            (B.leaves disk.old) (B.leaves disk.new) (B.left_since disk.old) (B.left_since disk.new) }
    {
        match disk.write(self.file, self.from, self.bytes.as_slice()) {
            Ok(()) => {
                self.bytes.clear();
                Ok(())
            }
            Err(fault) => Err(fault),
        }
    }
}

/// Shows that each of the numbers in a slice of bytes is one of a byte.
pub(crate) fn are_bytes(bytes: &[u8])
    ensures { AreBytes bytes.now }
{
    for byte in bytes {
        // It is below 256.
        let _byte = *byte;
    }
}
