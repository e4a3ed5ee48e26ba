// The tape over a folder's disk.
ghost use Rattle.std.specs.Prelude.{◌≡◌, ◌≤◌, ◌<◌, ◌^◌, length, vec_capacity, IfOk};
ghost use Rattle.tape_types.specs.declared.cartridges.Place.{Place};
ghost use Rattle.tape_types.specs.Cartridges.{capacity};
ghost use Rattle.tape_drive.specs.Commands.{FillsBuffer};
ghost use Rattle.file_drive.specs.Sizes.{folder_limits};

use crate::calls::{Claim, FolderCalls};
use crate::disk::FolderDisk;
use byte_disk::{ByteDisk, DiskFault, File};
use image_format::Room;
use image_tape::{Commits, ImageTape, OpenFail};
use std::marker::Model;
use tape_drive::{Drive, DriveErr, Got};
use tape_types::{Limits, NoMemory, Note, Part, Place};

/// How many bytes a header has.
const HEADER: u64 = 512;

/// How many positions the cartridge has.
pub fn folder_limits() -> Limits
    ensures { result ≡ folder_limits }
{
    Limits {
        cap_ip: 65536,
        cap_dp: 1048576,
    }
}

/// A disk that isn't opened as a tape, and the room for one.
#[derive(Drop)]
pub struct Closed<R: FolderCalls> {
    disk: FolderDisk<R>,
    room: Room,
}

impl<R: FolderCalls> Model for Closed<R> {
    ghost use Rattle.std.specs.Prelude.{◌≡◌};
    ghost use Rattle.file_drive.specs.Sizes.{folder_limits};

    ghost Value = { Unit {0} };

    ghost view = { λ _. tt };

    ghost invariant = { λ c. c.room.limits ≡ folder_limits };
}

impl<R: FolderCalls> Closed<R> {
    pub(crate) fn new(rt: R, path: String, claim: Claim) -> Result<Closed<R>, NoMemory> {
        let room = Room::new(rt.alloc(), folder_limits())?;
        Ok(Closed {
            disk: FolderDisk::new(rt, path, claim)?,
            room,
        })
    }

    /// Whether there is no image: the partitions have no bytes, and the header isn't whole.
    pub(crate) fn is_blank(&mut self) -> Result<bool, DiskFault> {
        if self.disk.length(File::Cm)? >= HEADER {
            return Ok(false);
        }
        if self.disk.length(File::Ip)? > 0 {
            return Ok(false);
        }
        Ok(self.disk.length(File::Dp)? == 0)
    }

    /// Opens the image. Where there is none it is made.
    pub(crate) fn open(self) -> Result<Opened<R>, Closed<R>> {
        let Closed { disk, room } = self;
        match ImageTape::open(disk, room, Commits::AtFlush) {
            Ok(tape) => Ok(Opened { tape }),
            Err(fail) => {
                let OpenFail { disk, room, why: _ } = fail;
                Err(Closed { disk, room })
            }
        }
    }
}

/// A tape over a folder's disk.
#[derive(Drop)]
pub struct Opened<R: FolderCalls> {
    tape: ImageTape<FolderDisk<R>>,
}

impl<R: FolderCalls> Model for Opened<R> {
    ghost use Rattle.std.specs.Prelude.{◌≡◌};
    ghost use Rattle.file_drive.specs.Sizes.{folder_limits};

    ghost Value = { Unit {0} };

    ghost view = { λ _. tt };

    ghost invariant = { λ o. o.tape.room.limits ≡ folder_limits };
}

impl<R: FolderCalls> Opened<R> {
    pub(crate) fn locate(&mut self, place: Place) -> Result<(), DriveErr>
        requires { place.pos < capacity place.part folder_limits }
    {
        self.tape.locate(place)
    }

    /// Reads what stands at a place.
    pub(crate) fn read(&mut self, at: Place, buf: &mut Vec<u8>) -> Result<Got, DriveErr>
        requires inside { at.pos < capacity at.part folder_limits }
        requires room { 1048576 ≤ vec_capacity buf.old }
        ensures room { 1048576 ≤ vec_capacity buf.new }
        ensures bytes { IfOk result (λ answer. FillsBuffer answer buf.new.items) }
    {
        match self.tape.locate(at) {
            Ok(()) => self.tape.read(buf),
            Err(why) => Err(why),
        }
    }

    /// Cuts a partition at a place, and appends a block.
    pub(crate) fn write(&mut self, at: Place, bytes: &[u8]) -> Result<(), DriveErr>
        requires inside { at.pos < capacity at.part folder_limits }
        requires some { 1 ≤ length bytes.now }
        requires size { length bytes.now ≤ 1048576 }
    {
        match self.tape.locate(at) {
            Ok(()) => self.tape.write(bytes),
            Err(why) => Err(why),
        }
    }

    /// Cuts a partition at a place, and appends a file mark.
    pub(crate) fn mark(&mut self, at: Place) -> Result<(), DriveErr>
        requires { at.pos < capacity at.part folder_limits }
    {
        match self.tape.locate(at) {
            Ok(()) => self.tape.mark(),
            Err(why) => Err(why),
        }
    }

    pub(crate) fn flush(&mut self) -> Result<(), DriveErr> {
        self.tape.flush()
    }

    pub(crate) fn read_note(&mut self, part: Part) -> Result<Note, DriveErr> {
        self.tape.read_note(part)
    }

    pub(crate) fn write_note(&mut self, part: Part, note: &[u8; 70]) -> Result<(), DriveErr> {
        self.tape.write_note(part, note)
    }

    pub(crate) fn vcr(&mut self) -> Result<u64, DriveErr> {
        self.tape.vcr()
    }
}
