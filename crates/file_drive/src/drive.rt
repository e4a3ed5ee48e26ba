// The drive over a folder, as far as it keeps count.
ghost use Rattle.std.specs.Prelude.{◌≡◌, ◌≤◌, ◌<◌, ◌+◌, ◌-◌, length, vec_capacity, None, Some, Ok, IfOk, OnOk};
ghost use Rattle.std.specs.Prelude.{OnErr};
ghost use Rattle.tape_types.specs.Bounds.{most_positions};
ghost use Rattle.tape_types.specs.declared.cartridges.Limits.{Limits};
ghost use Rattle.tape_types.specs.declared.cartridges.Place.{Place};
ghost use Rattle.tape_types.specs.Counts.{HasCause};
ghost use Rattle.tape_types.specs.Cartridges.{capacity, next};
ghost use Rattle.tape_drive.specs.Commands.{after_read, Counted};
ghost use Rattle.file_drive.specs.Sizes.{folder_limits};

use crate::calls::{Claim, FolderCalls};
use crate::stage::Stage;
use crate::tape::folder_limits;
use tape_drive::{Drive, DriveErr, Got};
use tape_types::{Limits, NoMemory, Note, Part, Place};

/// A drive over the image in a folder. It tells no content: what it reads is known when it has been read.
///
/// The folder is opened, and its image read, by the first command; a folder without an image counts as a blank
/// cartridge, and one is made by the first command that writes. A command fails where the disk over the folder fails,
/// where its files are no image, where something is to be written past the end, and where the volume change reference
/// is at its end. The head may stand anywhere below the capacity; past the items the end is read.
#[derive(Drop)]
pub struct FileDrive<R: FolderCalls> {
    stage: Stage<R>,
    head: Option<Place>,
    faults: u64,
    commands: u64,
}

impl<R: FolderCalls> FileDrive<R> {
    /// A drive that has had no command, with the room for all that a command needs. A folder that is missing, or that
    /// can't be claimed, is a fault of the first one. Under a claim that is shared each command that writes fails.
    pub fn new(rt: R, folder: String, claim: Claim) -> Result<FileDrive<R>, NoMemory>
        ensures head { IfOk result (λ d. d.head ≡ None) }
        ensures faults { IfOk result (λ d. d.faults ≡ 0) }
        ensures commands { IfOk result (λ d. d.commands ≡ 0) }
    {
        Ok(FileDrive {
            stage: Stage::new(rt, folder, claim)?,
            head: None,
            faults: 0,
            commands: 0,
        })
    }

    /// Claims the folder before the first command. Where that fails, the first command tries again.
    pub fn claim_now(&mut self)
        ensures head { self.new.head ≡ self.old.head }
        ensures faults { self.new.faults ≡ self.old.faults }
        ensures commands { self.new.commands ≡ self.old.commands }
    {
        self.stage.claim_now();
    }

    fn begin(&mut self)
        ensures head { self.new.head ≡ self.old.head }
        ensures faults { self.new.faults ≡ self.old.faults }
        ensures count { Counted 1 self.old.commands self.new.commands }
    {
        self.commands = self.commands.saturating_add(1);
    }

    // How a command ended. Where it failed the head is lost.
    fn ended<T: Drop>(&mut self, outcome: Result<T, DriveErr>) -> Result<T, DriveErr>
        ensures value { IfOk result (λ value. outcome ≡ Ok value) }
        ensures head { OnOk result (self.new.head ≡ self.old.head) }
        ensures lost { OnErr result (self.new.head ≡ None) }
        ensures commands { self.new.commands ≡ self.old.commands }
        ensures cause { HasCause self.old.faults self.new.faults result }
    {
        match outcome {
            Ok(value) => Ok(value),
            Err(why) => {
                self.faults = self.faults.saturating_add(1);
                self.head = None;
                Err(why)
            }
        }
    }
}

impl<R: FolderCalls> Drive for FileDrive<R> {
    const MOST: u64 = 1;

    ghost MOST = { 1 };

    ghost held = { λ _. None };

    ghost head = { λ d. d.head };

    ghost limits = { λ _. folder_limits };

    ghost faults = { λ d. d.faults };

    ghost commands = { λ d. d.commands };

    // Nothing is told: a crash may leave any cartridge.
    ghost leaves = { λ _ _. Unit {0} };

    ghost left_since = { λ _ _ _. Unit {0} };

    ghost allows = { λ image. Unit {0} };

    ghost only_now = { λ _ _ _ left. left };

    ghost counts_now = { λ _ _ _ _ left. left };

    ghost lower = { λ _ _ _ _ _ left. left };

    fn limits(&self) -> Limits {
        folder_limits()
    }

    fn faults(&self) -> u64 {
        self.faults
    }

    fn commands(&self) -> u64 {
        self.commands
    }

    fn locate(&mut self, place: Place) -> Result<(), DriveErr> {
        self.begin();
        let found = self.stage.locate(place);
        self.ended(found)?;
        self.head = Some(place);
        Ok(())
    }

    fn read(&mut self, buf: &mut Vec<u8>) -> Result<Got, DriveErr> {
        let Some(at) = self.head else { unreachable!() };
        self.begin();
        let found = if capacity_of(at.part) <= at.pos {
            buf.clear();
            Ok(Got::End)
        } else {
            self.stage.read(at, buf)
        };
        let got = self.ended(found)?;
        match got {
            Got::Block | Got::Mark => self.head = Some(step(at)),
            Got::End | Got::Torn => {}
        }
        Ok(got)
    }

    fn write(&mut self, bytes: &[u8]) -> Result<(), DriveErr> {
        let Some(at) = self.head else { unreachable!() };
        self.begin();
        let written = self.stage.write(at, bytes);
        self.ended(written)?;
        self.head = Some(step(at));
        Ok(())
    }

    fn mark(&mut self) -> Result<(), DriveErr> {
        let Some(at) = self.head else { unreachable!() };
        self.begin();
        let written = self.stage.mark(at);
        self.ended(written)?;
        self.head = Some(step(at));
        Ok(())
    }

    fn flush(&mut self) -> Result<(), DriveErr> {
        self.begin();
        let flushed = self.stage.flush();
        self.ended(flushed)
    }

    fn read_note(&mut self, part: Part) -> Result<Note, DriveErr> {
        self.begin();
        let found = self.stage.read_note(part);
        self.ended(found)
    }

    fn write_note(&mut self, part: Part, note: &[u8; 70]) -> Result<(), DriveErr> {
        self.begin();
        let written = self.stage.write_note(part, note);
        self.ended(written)
    }

    fn vcr(&mut self) -> Result<u64, DriveErr> {
        self.begin();
        let found = self.stage.vcr();
        self.ended(found)
    }
}

// How many positions a partition has.
fn capacity_of(part: Part) -> u64
    ensures { result ≡ capacity part folder_limits }
{
    let Limits { cap_ip, cap_dp } = folder_limits();
    match part {
        Part::Ip => cap_ip,
        Part::Dp => cap_dp,
    }
}

fn step(at: Place) -> Place
    requires { at.pos < most_positions }
    ensures { result ≡ next at }
{
    Place {
        part: at.part,
        pos: at.pos + 1,
    }
}
