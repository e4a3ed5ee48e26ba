// A disk that holds writes back.
ghost use Rattle.std.specs.Prelude.{◌≡◌, ◌≤◌, ◌<◌, ◌+◌, ◌-◌, ◌^◌, ◌∷◌, [], length, min, reverse, Some, IfOk, IfSome};
ghost use Rattle.std.specs.Prelude.{IsTrue, OnOk};
ghost use Rattle.byte_disk.specs.Files.{Files, bytes_at, bytes_of};
ghost use Rattle.byte_disk.specs.Commands.{IsFileSure};
ghost use Rattle.disk_layers.specs.Held.{IsClear, LooksOver, PutIf, PutsOver, StaysOver};
ghost use Rattle.disk_layers.specs.Held.{held_of, leaves_of, moment};
ghost use Rattle.disk_layers.specs.Layers.{HasRun, IsNext, IsPast};

use crate::known::Known;
use crate::run::{HeldRun, are_bytes};
use byte_disk::{ByteDisk, DiskFault, File};
use http_server::Log;
use std::alloc::Global;
use std::marker::Model;
use tape_types::NoMemory;

/// A disk over another one, from which it holds writes back as long as they follow one another in a file. So the disk
/// inside gets all of them in their order, but in fewer writes. A sync writes out what is held, and asks nothing of the
/// disk inside where the file is known to be durable. It has a count of commands of its own.
#[derive(Drop)]
pub struct HeldWrites<B: ByteDisk> {
    disk: B,
    run: HeldRun,
    known: Known,
    commands: u64,
    /// The run and the disk inside before each command so far. It takes no room.
    past: Log<HeldRun, B>,
}

impl<B: ByteDisk> Model for HeldWrites<B> {
    ghost use Rattle.std.specs.Prelude.{reverse};
    ghost use Rattle.disk_layers.specs.Held.{IsKept, View};

    ghost Value = { View B };

    ghost view = { λ h. record {
      disk = h.disk;
      run = h.run;
      known = h.known;
      commands = h.commands;
      past = reverse h.past.items;
    } };

    ghost invariant = { λ h. IsKept B.ByteDisk (record {
      disk = h.disk;
      run = h.run;
      known = h.known;
      commands = h.commands;
      past = reverse h.past.items;
    }) };
}

impl<B: ByteDisk> HeldWrites<B> {
    /// Over a disk. It reserves all the memory that it ever needs.
    pub fn new(alloc: Global, disk: B) -> Result<HeldWrites<B>, NoMemory>
        ensures { IfOk result (λ h. (h.disk ≡ disk) × (h.run.bytes ≡ []) × (h.past ≡ [])) }
    {
        Ok(HeldWrites {
            disk,
            run: HeldRun::new(alloc)?,
            known: Known::new(),
            commands: 0,
            past: Log::new(),
        })
    }

    /// The disk inside, to be looked at.
    pub fn disk(&self) -> &B
        ensures { result.now ≡ self.now.disk }
    {
        &self.disk
    }

    // The moments that are past once this one is.
    fn moment(&self) -> Log<HeldRun, B>
        ensures { IsPast B.ByteDisk self.now.commands self.now.past (moment self.now) (reverse result.items) }
    {
        self.past.and(&self.run, &self.disk)
    }

    // Ends a command.
    fn end(&mut self, past: Log<HeldRun, B>)
        requires { IsNext B.ByteDisk self.old.commands (reverse past.items) (moment self.old) }
        ensures { self.new ≡ record {
          disk = self.old.disk;
          run = self.old.run;
          known = self.old.known;
          commands = min (self.old.commands + 1) (2 ^ 64 - 1);
          past = reverse past.items;
        } }
    {
        self.past = past;
        self.commands = self.commands.saturating_add(1);
    }
}

impl<B: ByteDisk> ByteDisk for HeldWrites<B> {
    ghost use Rattle.own_count.specs.Own.{LeftSince, own};
    ghost use Rattle.own_count.specs.Laws as laws;
    ghost use Rattle.disk_layers.specs.Held.{IsWide, as_inside, held_over, over_bytes};
    ghost use Rattle.byte_disk.specs.Files.{Files};

    ghost held = { λ h. held_over h.run (B.held h.disk) };

    ghost faults = { λ h. B.faults h.disk };

    ghost commands = { λ h. own h.past };

    ghost leaves = { λ h image. (before : Files) × B.leaves h.disk before × IsWide h.run before image };

    ghost left_since = { λ h t image. LeftSince (λ m. B.commands m.1)
        (λ m image. (before : Files) × B.leaves m.1 before × IsWide m.0 before image)
        (λ m n d. B.left_since m.1 n d) h.past (h.run, h.disk) t image };

    ghost only_now = { λ h image short left. laws.only_now (λ m. B.commands m.1)
        (λ m image. (before : Files) × B.leaves m.1 before × IsWide m.0 before image)
        (λ m n d. B.left_since m.1 n d) h.past (h.run, h.disk) image short
        (λ below now. as_inside (λ d. B.leaves h.disk d) h.run image (B.only_now h.disk image below now)) left };

    ghost counts_now = { λ h t image le left. laws.counts_now (λ m. B.commands m.1)
        (λ m image. (before : Files) × B.leaves m.1 before × IsWide m.0 before image)
        (λ m n d. B.left_since m.1 n d) h.past (h.run, h.disk) t image left };

    ghost lower = { λ h t u image le left. laws.lower (λ m. B.commands m.1)
        (λ m image. (before : Files) × B.leaves m.1 before × IsWide m.0 before image)
        (λ m n d. B.left_since m.1 n d) h.past (h.run, h.disk) t u image le left };

    ghost bytes = { λ h d is. over_bytes h.run (B.held h.disk) d is };

    fn faults(&self) -> u64 {
        self.disk.faults()
    }

    fn commands(&self) -> u64 {
        self.commands
    }

    fn length(&mut self, file: File) -> Result<u64, DiskFault>
        ensures value { IfOk result (λ n. (d : Files) → held_of B.ByteDisk (moment self.old) ≡ Some d
            → n ≡ length (bytes_of file d)) }
        ensures looks { LooksOver B.ByteDisk result (moment self.old) (moment self.new) }
        ensures ran { HasRun B.ByteDisk self.old.past (moment self.old) self.new.past }
    {
        let past = self.moment();
        let found = self.measure(file);
        self.end(past);
        found
    }

    fn read(&mut self, file: File, at: u64, buf: &mut [u8]) -> Result<(), DiskFault>
        requires within { IfSome (held_of B.ByteDisk (moment self.old))
            (λ d. at + length buf.old ≤ length (bytes_of file d)) }
        ensures size { length buf.new ≡ length buf.old }
        ensures value { (d : Files) → held_of B.ByteDisk (moment self.old) ≡ Some d
            → OnOk result (buf.new ≡ bytes_at at (length buf.old) (bytes_of file d)) }
        ensures looks { LooksOver B.ByteDisk result (moment self.old) (moment self.new) }
        ensures ran { HasRun B.ByteDisk self.old.past (moment self.old) self.new.past }
    {
        let past = self.moment();
        let served = self.serve(file, at, buf);
        self.end(past);
        served
    }

    fn write(&mut self, file: File, at: u64, bytes: &[u8]) -> Result<(), DiskFault>
        requires within { IfSome (held_of B.ByteDisk (moment self.old)) (λ d. at ≤ length (bytes_of file d)) }
        requires end { at + length bytes.now < 2 ^ 62 }
        ensures puts { PutsOver B.ByteDisk result file at bytes.now (moment self.old) (moment self.new) }
        ensures ran { HasRun B.ByteDisk self.old.past (moment self.old) self.new.past }
    {
        let past = self.moment();
        let written = self.put(file, at, bytes);
        self.end(past);
        written
    }

    fn sync(&mut self, file: File) -> Result<(), DiskFault>
        ensures sure { OnOk result (IsFileSure file (held_of B.ByteDisk (moment self.new))
            (leaves_of B.ByteDisk (moment self.new))) }
        ensures looks { LooksOver B.ByteDisk result (moment self.old) (moment self.new) }
        ensures ran { HasRun B.ByteDisk self.old.past (moment self.old) self.new.past }
    {
        let past = self.moment();
        let synced = self.make_sure(file);
        self.end(past);
        synced
    }
}

// What each command does to the run, and asks of the disk inside.
impl<B: ByteDisk> HeldWrites<B> {
    fn measure(&mut self, file: File) -> Result<u64, DiskFault>
        ensures value { IfOk result (λ n. (d : Files) → held_of B.ByteDisk (moment self.old) ≡ Some d
            → n ≡ length (bytes_of file d)) }
        ensures looks { LooksOver B.ByteDisk result (moment self.old) (moment self.new) }
        ensures stays { StaysOver self.old self.new }
    {
        match self.disk.length(file) {
            Ok(size) => Ok(self.run.length_of(file, size)),
            Err(fault) => Err(fault),
        }
    }

    // Fills the buffer. What is held is written out first, where some of it is asked for.
    fn serve(&mut self, file: File, at: u64, buf: &mut [u8]) -> Result<(), DiskFault>
        requires within { IfSome (held_of B.ByteDisk (moment self.old))
            (λ d. at + length buf.old ≤ length (bytes_of file d)) }
        ensures size { length buf.new ≡ length buf.old }
        ensures value { (d : Files) → held_of B.ByteDisk (moment self.old) ≡ Some d
            → OnOk result (buf.new ≡ bytes_at at (length buf.old) (bytes_of file d)) }
        ensures looks { LooksOver B.ByteDisk result (moment self.old) (moment self.new) }
        ensures stays { StaysOver self.old self.new }
    {
        if self.is_clear(file, at, buf.len()) {
            return self.read_inside(file, at, buf);
        }
        match self.write_out() {
            Ok(()) => self.read_inside(file, at, buf),
            Err(fault) => Err(fault),
        }
    }

    // Whether none of so many bytes of a file from a place on is held, or lies behind one that is.
    fn is_clear(&self, file: File, at: u64, count: usize) -> bool
        ensures { IsTrue result → IsClear self.now.run file (at + count) }
    {
        self.run.is_clear(file, at, count)
    }

    // Fills the buffer from the disk inside, which has these bytes.
    fn read_inside(&mut self, file: File, at: u64, buf: &mut [u8]) -> Result<(), DiskFault>
        requires within { IfSome (held_of B.ByteDisk (moment self.old))
            (λ d. at + length buf.old ≤ length (bytes_of file d)) }
        requires clear { IsClear self.old.run file (at + length buf.old) }
        ensures size { length buf.new ≡ length buf.old }
        ensures value { (d : Files) → held_of B.ByteDisk (moment self.old) ≡ Some d
            → OnOk result (buf.new ≡ bytes_at at (length buf.old) (bytes_of file d)) }
        ensures looks { LooksOver B.ByteDisk result (moment self.old) (moment self.new) }
        ensures stays { StaysOver self.old self.new }
    {
        self.disk.read(file, at, buf)
    }

    // Holds bytes back, or writes them. They go behind what is held, or that is written out first.
    fn put(&mut self, file: File, at: u64, bytes: &[u8]) -> Result<(), DiskFault>
        requires within { IfSome (held_of B.ByteDisk (moment self.old)) (λ d. at ≤ length (bytes_of file d)) }
        requires end { at + length bytes.now < 2 ^ 62 }
        ensures puts { PutsOver B.ByteDisk result file at bytes.now (moment self.old) (moment self.new) }
        ensures stays { StaysOver self.old self.new }
    {
        if self.hold_on(file, at, bytes) {
            return Ok(());
        }
        match self.write_out() {
            Ok(()) => self.put_first(file, at, bytes),
            Err(fault) => Err(fault),
        }
    }

    // The same once nothing is held.
    fn put_first(&mut self, file: File, at: u64, bytes: &[u8]) -> Result<(), DiskFault>
        requires none { self.old.run.bytes ≡ [] }
        requires within { IfSome (held_of B.ByteDisk (moment self.old)) (λ d. at ≤ length (bytes_of file d)) }
        requires end { at + length bytes.now < 2 ^ 62 }
        ensures puts { PutsOver B.ByteDisk result file at bytes.now (moment self.old) (moment self.new) }
        ensures stays { StaysOver self.old self.new }
    {
        if self.hold_first(file, at, bytes) {
            return Ok(());
        }
        self.write_through(file, at, bytes)
    }

    // Holds bytes behind others, if they follow these, and there is room. Tells whether it does.
    fn hold_on(&mut self, file: File, at: u64, bytes: &[u8]) -> bool
        requires { at + length bytes.now < 2 ^ 62 }
        ensures put { PutIf B.ByteDisk result file at bytes.now (moment self.old) (moment self.new) }
        ensures stays { StaysOver self.old self.new }
    {
        are_bytes(bytes);
        self.run.hold_on(file, at, bytes)
    }

    // Holds bytes as the first ones, if there is room. Tells whether it does.
    fn hold_first(&mut self, file: File, at: u64, bytes: &[u8]) -> bool
        requires none { self.old.run.bytes ≡ [] }
        requires within { IfSome (held_of B.ByteDisk (moment self.old)) (λ d. at ≤ length (bytes_of file d)) }
        requires end { at + length bytes.now < 2 ^ 62 }
        ensures put { PutIf B.ByteDisk result file at bytes.now (moment self.old) (moment self.new) }
        ensures stays { StaysOver self.old self.new }
    {
        are_bytes(bytes);
        self.run.hold_first(file, at, bytes)
    }

    // Writes bytes to the disk inside, while nothing is held.
    fn write_through(&mut self, file: File, at: u64, bytes: &[u8]) -> Result<(), DiskFault>
        requires none { self.old.run.bytes ≡ [] }
        requires within { IfSome (held_of B.ByteDisk (moment self.old)) (λ d. at ≤ length (bytes_of file d)) }
        requires end { at + length bytes.now < 2 ^ 62 }
        ensures puts { PutsOver B.ByteDisk result file at bytes.now (moment self.old) (moment self.new) }
        ensures stays { StaysOver self.old self.new }
    {
        self.known.set(file, false);
        self.disk.write(file, at, bytes)
    }

    // Writes out what is held. Where that fails it is held as before.
    fn write_out(&mut self) -> Result<(), DiskFault>
        ensures none { OnOk result (self.new.run.bytes ≡ []) }
        ensures looks { LooksOver B.ByteDisk result (moment self.old) (moment self.new) }
        ensures stays { StaysOver self.old self.new }
    {
        if self.run.is_empty() {
            return Ok(());
        }
        self.write_run()
    }

    fn write_run(&mut self) -> Result<(), DiskFault>
        requires { 1 ≤ length self.old.run.bytes }
        ensures none { OnOk result (self.new.run.bytes ≡ []) }
        ensures looks { LooksOver B.ByteDisk result (moment self.old) (moment self.new) }
        ensures stays { StaysOver self.old self.new }
    {
        self.known.set(self.run.file(), false);
        self.run.write_to(&mut self.disk)
    }

    // Makes a file durable as it reads.
    fn make_sure(&mut self, file: File) -> Result<(), DiskFault>
        ensures sure { OnOk result (IsFileSure file (held_of B.ByteDisk (moment self.new))
            (leaves_of B.ByteDisk (moment self.new))) }
        ensures looks { LooksOver B.ByteDisk result (moment self.old) (moment self.new) }
        ensures stays { StaysOver self.old self.new }
    {
        match self.write_out() {
            Ok(()) => self.sync_inside(file),
            Err(fault) => Err(fault),
        }
    }

    // The same once nothing is held. Where the file is known to be durable the disk inside isn't asked.
    fn sync_inside(&mut self, file: File) -> Result<(), DiskFault>
        requires { self.old.run.bytes ≡ [] }
        ensures sure { OnOk result (IsFileSure file (held_of B.ByteDisk (moment self.new))
            (leaves_of B.ByteDisk (moment self.new))) }
        ensures looks { LooksOver B.ByteDisk result (moment self.old) (moment self.new) }
        ensures stays { StaysOver self.old self.new }
    {
        if self.known.has(file) {
            return Ok(());
        }
        match self.disk.sync(file) {
            Ok(()) => {
                self.known.set(file, true);
                Ok(())
            }
            Err(fault) => Err(fault),
        }
    }
}
