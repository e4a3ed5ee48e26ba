// The folder of a drive, before its image is opened and then.
ghost use Rattle.std.specs.Prelude.{◌≡◌, ◌≤◌, ◌<◌, length, vec_capacity, IfOk};
ghost use Rattle.tape_types.specs.declared.cartridges.Place.{Place};
ghost use Rattle.tape_types.specs.Cartridges.{capacity};
ghost use Rattle.tape_drive.specs.Commands.{FillsBuffer};
ghost use Rattle.file_drive.specs.Sizes.{folder_limits};

use crate::calls::{Claim, FolderCalls};
use crate::tape::{Closed, Opened};
use tape_drive::{DriveErr, Got};
use tape_types::{NoMemory, Note, Part, Place};

/// The folder: closed, or opened as a tape. One of the two is there.
///
/// Commands that only read take a folder without an image as a blank cartridge, and leave it as it is. All others open
/// the image, and make it where there is none.
#[derive(Drop)]
pub struct Stage<R: FolderCalls> {
    closed: Option<Closed<R>>,
    opened: Option<Opened<R>>,
}

impl<R: FolderCalls> Stage<R> {
    pub(crate) fn new(rt: R, path: String, claim: Claim) -> Result<Stage<R>, NoMemory> {
        Ok(Stage {
            closed: Some(Closed::new(rt, path, claim)?),
            opened: None,
        })
    }

    // Claims the folder, where it can be claimed: whoever looks at it has claimed it.
    pub(crate) fn claim_now(&mut self) {
        let _tried = self.is_blank();
    }

    pub(crate) fn locate(&mut self, place: Place) -> Result<(), DriveErr>
        requires { place.pos < capacity place.part folder_limits }
    {
        match self.to_read()? {
            Some(tape) => tape.locate(place),
            None => Ok(()),
        }
    }

    pub(crate) fn read(&mut self, at: Place, buf: &mut Vec<u8>) -> Result<Got, DriveErr>
        requires inside { at.pos < capacity at.part folder_limits }
        requires room { 1048576 ≤ vec_capacity buf.old }
        ensures room { 1048576 ≤ vec_capacity buf.new }
        ensures bytes { IfOk result (λ answer. FillsBuffer answer buf.new.items) }
    {
        match self.to_read()? {
            Some(tape) => tape.read(at, buf),
            None => {
                buf.clear();
                Ok(Got::End)
            }
        }
    }

    pub(crate) fn write(&mut self, at: Place, bytes: &[u8]) -> Result<(), DriveErr>
        requires inside { at.pos < capacity at.part folder_limits }
        requires some { 1 ≤ length bytes.now }
        requires size { length bytes.now ≤ 1048576 }
    {
        self.to_write_at(at)?.write(at, bytes)
    }

    pub(crate) fn mark(&mut self, at: Place) -> Result<(), DriveErr>
        requires { at.pos < capacity at.part folder_limits }
    {
        self.to_write_at(at)?.mark(at)
    }

    pub(crate) fn flush(&mut self) -> Result<(), DriveErr> {
        self.to_write()?.flush()
    }

    pub(crate) fn read_note(&mut self, part: Part) -> Result<Note, DriveErr> {
        match self.to_read()? {
            Some(tape) => tape.read_note(part),
            None => Ok(Note::Absent),
        }
    }

    pub(crate) fn write_note(&mut self, part: Part, note: &[u8; 70]) -> Result<(), DriveErr> {
        self.to_write()?.write_note(part, note)
    }

    pub(crate) fn vcr(&mut self) -> Result<u64, DriveErr> {
        match self.to_read()? {
            Some(tape) => tape.vcr(),
            None => Ok(0),
        }
    }

    // The tape, or none where there is no image.
    fn to_read(&mut self) -> Result<Option<&mut Opened<R>>, DriveErr> {
        if self.is_blank()? {
            return Ok(None);
        }
        Ok(Some(self.to_write()?))
    }

    // Whether no image is opened, and none is there.
    fn is_blank(&mut self) -> Result<bool, DriveErr> {
        match &mut self.closed {
            Some(closed) => match closed.is_blank() {
                Ok(is_blank) => Ok(is_blank),
                Err(_) => Err(DriveErr::Failed),
            },
            None => Ok(false),
        }
    }

    // The tape, where something is to be written at a place. No image is made for what would stand behind a gap.
    fn to_write_at(&mut self, at: Place) -> Result<&mut Opened<R>, DriveErr> {
        if at.pos > 0 && self.is_blank()? {
            return Err(DriveErr::Failed);
        }
        self.to_write()
    }

    // The tape. It is opened, if it isn't open.
    fn to_write(&mut self) -> Result<&mut Opened<R>, DriveErr> {
        if let Some(closed) = self.closed.take() {
            match closed.open() {
                Ok(tape) => self.opened = Some(tape),
                Err(closed) => self.closed = Some(closed),
            }
        }
        match &mut self.opened {
            Some(tape) => Ok(tape),
            None => Err(DriveErr::Failed),
        }
    }
}
