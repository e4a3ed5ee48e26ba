//! The value of a disk of byte files.
ghost use Rattle.std.specs.Prelude.{◌≡◌, ◌≤◌, ◌<◌, ◌+◌, ◌^◌, length, Some, None, Ok, Err, IfOk, IfErr, IfSome, OnOk};
ghost use Rattle.crash_steps.specs.Crashes.{NothingNew};
ghost use Rattle.byte_disk.specs.Files.{Files, AfterWrite, bytes_at, bytes_of};
ghost use Rattle.byte_disk.specs.Commands.{IsFileSure, WithinWrite};
ghost use Rattle.image_slots.specs.Calls.{IsOpening};
ghost use Rattle.image_slots.specs.Sides.{IsRead};
ghost use Rattle.image_slots.specs.State.{IsCommand, IsKept, IsRecovered, IsSet, file_of, found_of, is_steady};
ghost use Rattle.image_slots.specs.declared.known.Known.TheVariants.{Steady};

use crate::errors::{OpenErr, SetErr};
use crate::finding::{find, settle};
use crate::known::Known;
use crate::pieces::commit;
use crate::sides::{Found, Side, serial_of, value_of};
use byte_disk::{ByteDisk, DiskFault, File};
use std::marker::Model;
use tape_types::Part;

/// A disk with no value, or one that failed.
#[derive(Drop)]
pub struct OpenFail<B: ByteDisk> {
    pub disk: B,
    pub why: OpenErr,
}

/// A disk of byte files with the value of 255 bytes that its header holds. The value is set whole or not at all,
/// whenever a crash comes.
#[derive(Drop)]
pub struct Slots<B: ByteDisk> {
    disk: B,
    /// The slot that counts.
    side: Side,
    value: [u8; 255],
    /// Whether the gate of the other slot is open.
    beside: bool,
    known: Known,
    /// The number of commands that the disk had when its value was found.
    opened: u64,
}

impl<B: ByteDisk> Model for Slots<B> {
    ghost use Rattle.image_slots.specs.State.{IsKept, View};

    ghost Value = { View B };

    ghost view = { λ s. record {
      disk = s.disk;
      side = s.side;
      value = s.value;
      beside = s.beside;
      known = s.known;
      opened = s.opened;
    } };

    ghost invariant = { λ s. IsKept B.ByteDisk (record {
      disk = s.disk;
      side = s.side;
      value = s.value;
      beside = s.beside;
      known = s.known;
      opened = s.opened;
    }) };
}

impl<B: ByteDisk> Slots<B> {
    /// Finds the value of a disk. On a blank one, whose header is short and whose partitions are empty, it makes the
    /// first: the serial number 1, and zeros. A crash meanwhile leaves the disk blank, or with that value.
    pub fn open(disk: B) -> Result<Slots<B>, OpenFail<B>>
        ensures found { IfOk result (λ s. IsOpening B.ByteDisk 14 (Ok (found_of s)) disk s.disk) }
        ensures steady { IfOk result (λ s. (s.known ≡ Steady) × (s.opened ≡ B.commands s.disk)) }
        ensures refused { IfErr result (λ f. IsOpening B.ByteDisk 14 (Err f.why) disk f.disk) }
    {
        let mut disk = disk;
        match find(&mut disk) {
            Ok(found) => Ok(Slots::over(disk, found)),
            Err(why) => Err(OpenFail { disk, why }),
        }
    }

    // The value of a disk on which it was found.
    fn over(disk: B, found: Found) -> Slots<B>
        requires { (d : Files) → B.held disk ≡ Some d → IsRead found.side found.beside found.value d.cm
            × ((image : Files) → B.leaves disk image → image.cm ≡ d.cm) }
        ensures { result ≡ record {
          disk = disk;
          side = found.side;
          value = found.value;
          beside = found.beside;
          known = Steady;
          opened = B.commands disk;
        } }
    {
        let opened = disk.commands();
        let Found {
            side,
            value,
            beside,
        } = found;
        Slots {
            disk,
            side,
            value,
            beside,
            known: Known::Steady,
            opened,
        }
    }

    /// The value that was found or set last: its serial number in eight bytes, and 247 more. Where a set has failed
    /// since, the disk may have another one.
    pub fn get(&self) -> &[u8; 255]
        ensures value { result.now ≡ self.now.value }
        ensures kept { IsKept B.ByteDisk self.now }
    {
        &self.value
    }

    /// Whether what `get` answers is known to be the value: no set has failed since it was read.
    pub fn is_known(&self) -> bool
        ensures { result ≡ is_steady self.now.known }
    {
        match self.known {
            Known::Steady => true,
            Known::Open { .. } => false,
        }
    }

    /// Reads the value anew where a set has failed, and makes durable what reads. `Header` comes of no disk that tells
    /// what it holds.
    pub fn recover(&mut self) -> Result<(), OpenErr>
        ensures { IsRecovered B.ByteDisk result self.old self.new }
    {
        if self.is_known() {
            return Ok(());
        }
        match settle(&mut self.disk) {
            Ok(found) => {
                let Found {
                    side,
                    value,
                    beside,
                } = found;
                self.side = side;
                self.value = value;
                self.beside = beside;
                self.known = Known::Steady;
                Ok(())
            }
            Err(why) => Err(why),
        }
    }

    /// Sets the value: the next serial number, and these bytes. Where a set has failed, `recover` has to succeed first.
    pub fn set(&mut self, rest: &[u8; 247]) -> Result<(), SetErr>
        requires { self.old.known ≡ Steady }
        ensures { IsSet B.ByteDisk rest.now result self.old self.new }
    {
        let serial = serial_of(&self.value);
        if serial == u64::MAX {
            return Err(SetErr::Serial);
        }
        let value = value_of(serial + 1, rest);
        match commit(&mut self.disk, self.side, self.beside, &value) {
            Ok(()) => {
                self.side = self.side.other();
                self.value = value;
                self.beside = true;
                Ok(())
            }
            Err(DiskFault) => {
                self.known = Known::Open { after: value };
                Err(SetErr::Disk)
            }
        }
    }

    /// The disk, to be looked at.
    pub fn disk(&self) -> &B
        ensures { result.now ≡ self.now.disk }
    {
        &self.disk
    }

    /// Gives the disk back.
    pub fn into_disk(self) -> B
        ensures { result ≡ self.disk }
    {
        let Slots {
            disk,
            side: _,
            value: _,
            beside: _,
            known: _,
            opened: _,
        } = self;
        disk
    }
}

/// The partitions' files, of which the value says nothing: they are handed on to the disk as they are.
impl<B: ByteDisk> Slots<B> {
    /// How many bytes the file of a partition has.
    pub fn length(&mut self, part: Part) -> Result<u64, DiskFault>
        ensures value { IfOk result (λ n. (d : Files) → B.held self.old.disk ≡ Some d
            → n ≡ length (bytes_of (file_of part) d)) }
        ensures held { B.held self.new.disk ≡ B.held self.old.disk }
        ensures command { IsCommand B.ByteDisk NothingNew result self.old self.new }
    {
        self.disk.length(file_of(part))
    }

    /// Fills the buffer with the bytes of a partition's file from a place on. All of them lie within the file.
    pub fn read(&mut self, part: Part, at: u64, buf: &mut [u8]) -> Result<(), DiskFault>
        requires within { IfSome (B.held self.old.disk) (λ d. at + length buf.old ≤ length (bytes_of (file_of part) d)) }
        ensures size { length buf.new ≡ length buf.old }
        ensures value { (d : Files) → B.held self.old.disk ≡ Some d
            → OnOk result (buf.new ≡ bytes_at at (length buf.old) (bytes_of (file_of part) d)) }
        ensures held { B.held self.new.disk ≡ B.held self.old.disk }
        ensures command { IsCommand B.ByteDisk NothingNew result self.old self.new }
    {
        self.disk.read(file_of(part), at, buf)
    }

    /// Writes bytes to the file of a partition from a place on that is at most its length. Until a sync of this file
    /// succeeds, a crash leaves any bytes in their place.
    pub fn write(&mut self, part: Part, at: u64, bytes: &[u8]) -> Result<(), DiskFault>
        requires within { IfSome (B.held self.old.disk) (λ d. at ≤ length (bytes_of (file_of part) d)) }
        requires end { at + length bytes.now < 2 ^ 62 }
        ensures told { (d : Files) → B.held self.old.disk ≡ Some d → (e : Files)
            × (B.held self.new.disk ≡ Some e) × AfterWrite result (file_of part) at bytes.now d e }
        ensures untold { B.held self.old.disk ≡ None → B.held self.new.disk ≡ None }
        ensures command { IsCommand B.ByteDisk (WithinWrite (file_of part) at (length bytes.now)) result self.old
            self.new }
    {
        self.disk.write(file_of(part), at, bytes)
    }

    /// Makes the file of a partition durable as it reads.
    pub fn sync(&mut self, part: Part) -> Result<(), DiskFault>
        ensures sure { OnOk result (IsFileSure (file_of part) (B.held self.new.disk) (B.leaves self.new.disk)) }
        ensures held { B.held self.new.disk ≡ B.held self.old.disk }
        ensures command { IsCommand B.ByteDisk NothingNew result self.old self.new }
    {
        self.disk.sync(file_of(part))
    }

    /// How many commands the disk has had.
    pub fn commands(&self) -> u64
        ensures { result ≡ B.commands self.now.disk }
    {
        self.disk.commands()
    }

    /// How often the disk has failed.
    pub fn faults(&self) -> u64
        ensures { result ≡ B.faults self.now.disk }
    {
        self.disk.faults()
    }
}

// The file of a partition.
fn file_of(part: Part) -> File
    ensures { result ≡ file_of part }
{
    match part {
        Part::Ip => File::Ip,
        Part::Dp => File::Dp,
    }
}
