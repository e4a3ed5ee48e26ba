// A disk in memory.
ghost use Rattle.std.specs.Prelude.{◌≡◌, ◌≤◌, ◌<◌, ◌+◌, ◌-◌, ◌^◌, length, reverse, IsTrue, ◌↔◌, OnOk, OnErr};
ghost use Rattle.byte_disk.specs.declared.disk.File.{File};
ghost use Rattle.byte_disk.specs.Files.{bytes_of};
ghost use Rattle.byte_disk.specs.declared.record.Act.TheVariants.{Synced};
ghost use Rattle.byte_disk.specs.Memory.{made, with_arrives, begun, failed, starved_out, acted, put, Looked, IsSane};
ghost use Rattle.byte_disk.specs.Memory.{IsListed};
ghost use Rattle.byte_disk.specs.Record.{IsSound};

use crate::disk::{DiskFault, File};
use crate::files::{FileBytes, are_bytes};
use crate::record::{Act, DoneCommand};
use std::alloc::Global;
use std::marker::Model;
use tape_types::{Bytes, List, NoMemory};

/// A disk whose files lie in memory. It keeps what its commands have done, so that it can give each image that a crash
/// may leave.
#[derive(Drop)]
pub struct MemDisk {
    alloc: Global,
    files: FileBytes,
    /// The oldest first.
    acts: Vec<DoneCommand>,
    fails: List<u64>,
    arrives: u64,
    commands: u64,
    faults: u64,
    starved: u64,
}

impl Model for MemDisk {
    ghost use Rattle.std.specs.Prelude.{reverse};
    ghost use Rattle.byte_disk.specs.Memory.{View};
    ghost use Rattle.byte_disk.specs.Record.{IsSound};

    ghost Value = { View };

    ghost view = { λ m. record {
      held = m.files;
      acts = reverse m.acts.items;
      fails = m.fails;
      arrives = m.arrives;
      commands = m.commands;
      faults = m.faults;
      starved = m.starved;
    } };

    ghost invariant = { λ m. IsSound m.commands m.files (reverse m.acts.items) };
}

impl MemDisk {
    /// A disk whose files have these bytes, with nothing pending. The commands whose numbers are listed fail, counted
    /// from 1. None of the bytes of a write that is listed arrive, unless `broken_by` says otherwise.
    pub fn new(alloc: Global, ip: Bytes, dp: Bytes, cm: Bytes, fails: List<u64>) -> MemDisk
        ensures { result ≡ made (record { ip = ip; dp = dp; cm = cm }) fails }
    {
        MemDisk {
            alloc,
            files: FileBytes::new(ip, dp, cm),
            acts: Vec::new(alloc),
            fails,
            arrives: 0,
            commands: 0,
            faults: 0,
            starved: 0,
        }
    }

    /// Lets so many bytes of each write that is listed to fail arrive, the first ones.
    pub fn broken_by(&mut self, bytes: u64)
        ensures { self.new ≡ with_arrives bytes self.old }
    {
        self.arrives = bytes;
    }

    /// How often a command has failed for want of memory.
    pub fn starved(&self) -> u64
        ensures { result ≡ self.now.starved }
    {
        self.starved
    }
}

impl MemDisk {
    // Counts a command, and tells whether it is listed.
    pub(crate) fn begin(&mut self) -> bool
        ensures begun { self.new ≡ begun self.old }
        ensures listed { IsTrue result ↔ IsListed self.old }
        ensures sane { IsSane self.old }
    {
        self.commands = self.commands.saturating_add(1);
        self.fails.as_slice().contains(&self.commands)
    }

    pub(crate) fn fail(&mut self) -> DiskFault
        ensures { self.new ≡ failed self.old }
    {
        self.faults = self.faults.saturating_add(1);
        DiskFault
    }

    pub(crate) fn starve(&mut self) -> DiskFault
        ensures { self.new ≡ starved_out self.old }
    {
        self.starved = self.starved.saturating_add(1);
        self.fail()
    }

    // A command that changes nothing.
    pub(crate) fn look(&mut self) -> Result<(), DiskFault>
        ensures looked { Looked result self.old self.new }
        ensures sane { IsSane self.old }
    {
        if self.begin() {
            return Err(self.fail());
        }
        Ok(())
    }

    pub(crate) fn alloc(&self) -> Global {
        self.alloc
    }

    pub(crate) fn fault_count(&self) -> u64
        ensures { result ≡ self.now.faults }
    {
        self.faults
    }

    pub(crate) fn command_count(&self) -> u64
        ensures { result ≡ self.now.commands }
    {
        self.commands
    }

    pub(crate) fn arrives(&self) -> u64
        ensures { result ≡ self.now.arrives }
    {
        self.arrives
    }

    pub(crate) fn bytes(&self, file: File) -> &[u8]
        ensures { result.now ≡ bytes_of file self.now.held }
    {
        self.files.bytes(file)
    }

    // The record, the oldest entry first.
    pub(crate) fn acts(&self) -> &[DoneCommand]
        ensures value { reverse result.now ≡ self.now.acts }
        ensures sound { IsSound self.now.commands self.now.held self.now.acts }
    {
        self.acts.as_slice()
    }

    pub(crate) fn record_sync(&mut self, number: u64, file: File) -> Result<(), NoMemory>
        requires number { self.old.commands < 2 ^ 64 - 1 → number < self.old.commands }
        ensures ok { OnOk result (self.new ≡ acted number (Synced file) self.old.held self.old) }
        ensures err { OnErr result (self.new ≡ self.old) }
    {
        self.acts.push(DoneCommand {
            number,
            act: Act::Synced { file },
        })?;
        Ok(())
    }

    // Puts bytes into a file, of so many that were to be.
    pub(crate) fn put(
        &mut self,
        number: u64,
        file: File,
        at: u64,
        count: u64,
        bytes: &[u8],
    ) -> Result<(), NoMemory>
        requires number { self.old.commands < 2 ^ 64 - 1 → number < self.old.commands }
        requires within { at ≤ length (bytes_of file self.old.held) }
        requires count { length bytes.now ≤ count }
        requires end { at + count < 2 ^ 62 }
        ensures ok { OnOk result (self.new ≡ put number file at count bytes.now self.old) }
        ensures err { OnErr result (self.new ≡ self.old) }
    {
        are_bytes(bytes);
        self.acts.reserve(1)?;
        let change = self.files.put(self.alloc, file, at, count, bytes)?;
        self.acts.push_reserved(DoneCommand {
            number,
            act: Act::Wrote { file, change },
        });
        Ok(())
    }
}
