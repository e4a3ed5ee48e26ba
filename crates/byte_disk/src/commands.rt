// The commands of the disk in memory.
ghost use Rattle.std.specs.Prelude.{◌≡◌, ◌≤◌, ◌<◌, ◌+◌, ◌^◌, length, take, IfOk, IfSome, OnOk};
ghost use Rattle.byte_disk.specs.Files.{bytes_of, bytes_at, told, AreBytes};
ghost use Rattle.byte_disk.specs.Memory.{Looked, RanWrite, RanSync, IsSane};

use crate::disk::{ByteDisk, DiskFault, File};
use crate::files::are_bytes;
use crate::memory::MemDisk;
use tape_types::NoMemory;

impl ByteDisk for MemDisk {
    ghost use Rattle.byte_disk.specs.Record.{Leaves, LeftSince};
    ghost use Rattle.byte_disk.specs.Laws as laws;

    ghost held = { λ m. told m.held };

    ghost faults = { λ m. m.faults };

    ghost commands = { λ m. m.commands };

    ghost leaves = { λ m image. Leaves m.held m.acts image };

    ghost left_since = { λ m t image. LeftSince m.commands m.held m.acts t image };

    ghost only_now = { λ m image lt h. laws.only_now m.commands m.held m.acts image lt h };

    ghost counts_now = { λ m t image le h. laws.counts_now m.commands m.held m.acts t image h };

    ghost lower = { λ m t u image le h. laws.lower m.commands m.held m.acts t u image le h };

    ghost bytes = { λ m d is. laws.told_bytes m.held d is };

    fn faults(&self) -> u64 {
        self.fault_count()
    }

    fn commands(&self) -> u64 {
        self.command_count()
    }

    fn length(&mut self, file: File) -> Result<u64, DiskFault>
        ensures value { IfOk result (λ n. n ≡ length (bytes_of file self.old.held)) }
        ensures looked { Looked result self.old self.new }
        ensures sane { IsSane self.old }
    {
        match self.look() {
            Ok(()) => Ok(self.bytes(file).len() as u64),
            Err(fault) => Err(fault),
        }
    }

    fn read(&mut self, file: File, at: u64, buf: &mut [u8]) -> Result<(), DiskFault>
        requires { IfSome (told self.old.held) (λ d. at + length buf.old ≤ length (bytes_of file d)) }
        ensures size { length buf.new ≡ length buf.old }
        ensures value { OnOk result (buf.new ≡ bytes_at at (length buf.old) (bytes_of file self.old.held)) }
        ensures looked { Looked result self.old self.new }
        ensures sane { IsSane self.old }
    {
        // What is kept of the commands leads back to what was before them.
        let _sound = self.acts();
        self.fill(file, at, buf)
    }

    fn write(&mut self, file: File, at: u64, bytes: &[u8]) -> Result<(), DiskFault>
        requires within { IfSome (told self.old.held) (λ d. at ≤ length (bytes_of file d)) }
        requires end { at + length bytes.now < 2 ^ 62 }
        ensures ran { RanWrite result file at bytes.now self.old self.new }
        ensures sane { IsSane self.old }
        ensures bytes { AreBytes bytes.now }
    {
        // What is kept of the commands leads back to what was before them.
        let _sound = self.acts();
        are_bytes(bytes);
        self.overwrite(file, at, bytes)
    }

    fn sync(&mut self, file: File) -> Result<(), DiskFault>
        ensures ran { RanSync result file self.old self.new }
        ensures sane { IsSane self.old }
    {
        let number = self.command_count();
        if self.begin() {
            return Err(self.fail());
        }
        match self.record_sync(number, file) {
            Ok(()) => Ok(()),
            Err(NoMemory) => Err(self.starve()),
        }
    }
}

impl MemDisk {
    // Fills the buffer with the bytes of a file from a place on.
    fn fill(&mut self, file: File, at: u64, buf: &mut [u8]) -> Result<(), DiskFault>
        requires { at + length buf.old ≤ length (bytes_of file self.old.held) }
        ensures size { length buf.new ≡ length buf.old }
        ensures value { OnOk result (buf.new ≡ bytes_at at (length buf.old) (bytes_of file self.old.held)) }
        ensures looked { Looked result self.old self.new }
        ensures sane { IsSane self.old }
    {
        match self.look() {
            Ok(()) => {
                let from = at as usize;
                buf.copy_from_slice(&self.bytes(file)[from..from + buf.len()]);
                Ok(())
            }
            Err(fault) => Err(fault),
        }
    }

    // Writes bytes to a file, or those that arrive of a write that is listed to fail.
    fn overwrite(&mut self, file: File, at: u64, bytes: &[u8]) -> Result<(), DiskFault>
        requires within { at ≤ length (bytes_of file self.old.held) }
        requires end { at + length bytes.now < 2 ^ 62 }
        ensures ran { RanWrite result file at bytes.now self.old self.new }
        ensures sane { IsSane self.old }
    {
        let number = self.command_count();
        let count = bytes.len() as u64;
        if self.begin() {
            let arrived = first(bytes, self.arrives());
            return match self.put(number, file, at, count, arrived) {
                Ok(()) => Err(self.fail()),
                Err(NoMemory) => Err(self.starve()),
            };
        }
        match self.put(number, file, at, count, bytes) {
            Ok(()) => Ok(()),
            Err(NoMemory) => Err(self.starve()),
        }
    }
}

// The first bytes, at most so many.
fn first(bytes: &[u8], most: u64) -> &[u8]
    ensures value { result.now ≡ take most bytes.now }
    ensures count { length result.now ≤ length bytes.now }
{
    if most >= bytes.len() as u64 {
        return bytes;
    }
    &bytes[..most as usize]
}
