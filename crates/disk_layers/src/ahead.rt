// A disk that reads ahead.
ghost use Rattle.std.specs.Prelude.{◌≡◌, ◌≤◌, ◌<◌, ◌+◌, ◌-◌, ◌^◌, ◌∷◌, [], length, min, reverse, Some, None, IfOk};
ghost use Rattle.std.specs.Prelude.{IfSome, OnOk};
ghost use Rattle.tape_types.specs.Counts.{HasCause};
ghost use Rattle.crash_steps.specs.Crashes.{NothingNew};
ghost use Rattle.byte_disk.specs.Files.{Files, AfterWrite, bytes_at, bytes_of};
ghost use Rattle.byte_disk.specs.Commands.{IsFileSure, WithinWrite};
ghost use Rattle.disk_layers.specs.Ahead.{IsForgotten, Looks, RunsIn, Stays};
ghost use Rattle.disk_layers.specs.Layers.{HasRun, IsNext, IsPast};

use crate::pieces::Pieces;
use byte_disk::{ByteDisk, DiskFault, File};
use http_server::Log;
use std::alloc::Global;
use std::marker::Model;
use tape_types::NoMemory;

/// A disk over another one, of which it reads more than it is asked for, and answers from that what lies there. It has
/// a count of commands of its own.
#[derive(Drop)]
pub struct ReadAhead<B: ByteDisk> {
    disk: B,
    pieces: Pieces,
    commands: u64,
    /// The disk inside before each command so far. It takes no room.
    past: Log<(), B>,
}

impl<B: ByteDisk> Model for ReadAhead<B> {
    ghost use Rattle.std.specs.Prelude.{reverse};
    ghost use Rattle.disk_layers.specs.Ahead.{IsKept, View};

    ghost Value = { View B };

    ghost view = { λ r. record {
      disk = r.disk;
      spans = r.pieces;
      commands = r.commands;
      past = reverse r.past.items;
    } };

    ghost invariant = { λ r. IsKept B.ByteDisk (record {
      disk = r.disk;
      spans = r.pieces;
      commands = r.commands;
      past = reverse r.past.items;
    }) };
}

impl<B: ByteDisk> ReadAhead<B> {
    /// Over a disk. It reserves all the memory that it ever needs.
    pub fn new(alloc: Global, disk: B) -> Result<ReadAhead<B>, NoMemory>
        ensures { IfOk result (λ r. (r.disk ≡ disk) × (r.past ≡ [])) }
    {
        Ok(ReadAhead {
            disk,
            pieces: Pieces::new(alloc)?,
            commands: 0,
            past: Log::new(),
        })
    }

    /// The disk inside, to be looked at.
    pub fn disk(&self) -> &B
        ensures { result.now ≡ self.now.disk }
    {
        &self.disk
    }

    // The moments that are past once this one is.
    fn moment(&self) -> Log<(), B>
        ensures { IsPast B.ByteDisk self.now.commands self.now.past (tt, self.now.disk) (reverse result.items) }
    {
        self.past.and(&(), &self.disk)
    }

    // Ends a command.
    fn end(&mut self, past: Log<(), B>)
        requires { IsNext B.ByteDisk self.old.commands (reverse past.items) (tt, self.old.disk) }
        ensures { self.new ≡ record {
          disk = self.old.disk;
          spans = self.old.spans;
          commands = min (self.old.commands + 1) (2 ^ 64 - 1);
          past = reverse past.items;
        } }
    {
        self.past = past;
        self.commands = self.commands.saturating_add(1);
    }
}

impl<B: ByteDisk> ByteDisk for ReadAhead<B> {
    ghost use Rattle.own_count.specs.Own.{LeftSince, own};
    ghost use Rattle.own_count.specs.Laws as laws;

    ghost held = { λ r. B.held r.disk };

    ghost faults = { λ r. B.faults r.disk };

    ghost commands = { λ r. own r.past };

    ghost leaves = { λ r image. B.leaves r.disk image };

    ghost left_since = { λ r t image. LeftSince (λ m. B.commands m.1) (λ m d. B.leaves m.1 d)
        (λ m n d. B.left_since m.1 n d) r.past (tt, r.disk) t image };

    ghost only_now = { λ r image short h. laws.only_now (λ m. B.commands m.1) (λ m d. B.leaves m.1 d)
        (λ m n d. B.left_since m.1 n d) r.past (tt, r.disk) image short
        (λ below now. B.only_now r.disk image below now) h };

    ghost counts_now = { λ r t image le h. laws.counts_now (λ m. B.commands m.1) (λ m d. B.leaves m.1 d)
        (λ m n d. B.left_since m.1 n d) r.past (tt, r.disk) t image h };

    ghost lower = { λ r t u image le h. laws.lower (λ m. B.commands m.1) (λ m d. B.leaves m.1 d)
        (λ m n d. B.left_since m.1 n d) r.past (tt, r.disk) t u image le h };

    ghost bytes = { λ r d is. B.bytes r.disk d is };

    fn faults(&self) -> u64 {
        self.disk.faults()
    }

    fn commands(&self) -> u64 {
        self.commands
    }

    fn length(&mut self, file: File) -> Result<u64, DiskFault>
        ensures value { IfOk result (λ n. (d : Files) → B.held self.old.disk ≡ Some d → n ≡ length (bytes_of file d)) }
        ensures looks { Looks B.ByteDisk result self.old.disk self.new.disk }
        ensures ran { HasRun B.ByteDisk self.old.past (tt, self.old.disk) self.new.past }
    {
        let past = self.moment();
        let found = self.measure(file);
        self.end(past);
        found
    }

    fn read(&mut self, file: File, at: u64, buf: &mut [u8]) -> Result<(), DiskFault>
        requires within { IfSome (B.held self.old.disk) (λ d. at + length buf.old ≤ length (bytes_of file d)) }
        ensures size { length buf.new ≡ length buf.old }
        ensures value { (d : Files) → B.held self.old.disk ≡ Some d
            → OnOk result (buf.new ≡ bytes_at at (length buf.old) (bytes_of file d)) }
        ensures looks { Looks B.ByteDisk result self.old.disk self.new.disk }
        ensures ran { HasRun B.ByteDisk self.old.past (tt, self.old.disk) self.new.past }
    {
        let past = self.moment();
        let served = self.serve(file, at, buf);
        self.end(past);
        served
    }

    fn write(&mut self, file: File, at: u64, bytes: &[u8]) -> Result<(), DiskFault>
        requires within { IfSome (B.held self.old.disk) (λ d. at ≤ length (bytes_of file d)) }
        requires end { at + length bytes.now < 2 ^ 62 }
        ensures told { (d : Files) → B.held self.old.disk ≡ Some d
            → (e : Files) × (B.held self.new.disk ≡ Some e) × AfterWrite result file at bytes.now d e }
        ensures untold { B.held self.old.disk ≡ None → B.held self.new.disk ≡ None }
        ensures cause { HasCause (B.faults self.old.disk) (B.faults self.new.disk) result }
        ensures runs { RunsIn B.ByteDisk (WithinWrite file at (length bytes.now)) self.old.disk self.new.disk }
        ensures ran { HasRun B.ByteDisk self.old.past (tt, self.old.disk) self.new.past }
    {
        let past = self.moment();
        let written = self.overwrite(file, at, bytes);
        self.end(past);
        written
    }

    fn sync(&mut self, file: File) -> Result<(), DiskFault>
        ensures sure { OnOk result (IsFileSure file (B.held self.new.disk) (B.leaves self.new.disk)) }
        ensures looks { Looks B.ByteDisk result self.old.disk self.new.disk }
        ensures ran { HasRun B.ByteDisk self.old.past (tt, self.old.disk) self.new.past }
    {
        let past = self.moment();
        let synced = self.make_sure(file);
        self.end(past);
        synced
    }
}

// What each command asks of the disk inside.
impl<B: ByteDisk> ReadAhead<B> {
    fn measure(&mut self, file: File) -> Result<u64, DiskFault>
        ensures value { IfOk result (λ n. (d : Files) → B.held self.old.disk ≡ Some d → n ≡ length (bytes_of file d)) }
        ensures looks { Looks B.ByteDisk result self.old.disk self.new.disk }
        ensures stays { Stays self.old self.new }
    {
        self.disk.length(file)
    }

    fn serve(&mut self, file: File, at: u64, buf: &mut [u8]) -> Result<(), DiskFault>
        requires within { IfSome (B.held self.old.disk) (λ d. at + length buf.old ≤ length (bytes_of file d)) }
        ensures size { length buf.new ≡ length buf.old }
        ensures value { (d : Files) → B.held self.old.disk ≡ Some d
            → OnOk result (buf.new ≡ bytes_at at (length buf.old) (bytes_of file d)) }
        ensures looks { Looks B.ByteDisk result self.old.disk self.new.disk }
        ensures stays { Stays self.old self.new }
    {
        self.pieces.read(&mut self.disk, file, at, buf)
    }

    fn overwrite(&mut self, file: File, at: u64, bytes: &[u8]) -> Result<(), DiskFault>
        requires within { IfSome (B.held self.old.disk) (λ d. at ≤ length (bytes_of file d)) }
        requires end { at + length bytes.now < 2 ^ 62 }
        ensures told { (d : Files) → B.held self.old.disk ≡ Some d
            → (e : Files) × (B.held self.new.disk ≡ Some e) × AfterWrite result file at bytes.now d e }
        ensures untold { B.held self.old.disk ≡ None → B.held self.new.disk ≡ None }
        ensures cause { HasCause (B.faults self.old.disk) (B.faults self.new.disk) result }
        ensures runs { RunsIn B.ByteDisk (WithinWrite file at (length bytes.now)) self.old.disk self.new.disk }
        ensures stays { Stays self.old self.new }
    {
        self.forget(file, at, bytes.len());
        self.disk.write(file, at, bytes)
    }

    fn make_sure(&mut self, file: File) -> Result<(), DiskFault>
        ensures sure { OnOk result (IsFileSure file (B.held self.new.disk) (B.leaves self.new.disk)) }
        ensures looks { Looks B.ByteDisk result self.old.disk self.new.disk }
        ensures stays { Stays self.old self.new }
    {
        self.disk.sync(file)
    }

    // Forgets the piece of a file, where some of it lies in a range.
    fn forget(&mut self, file: File, at: u64, count: usize)
        requires { at + count < 2 ^ 62 }
        ensures forgotten { IsForgotten file at count self.old.spans self.new.spans }
        ensures disk { self.new.disk ≡ self.old.disk }
        ensures stays { Stays self.old self.new }
    {
        self.pieces.forget(file, at, count);
    }
}
