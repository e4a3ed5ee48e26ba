// What reads is made durable.
ghost use Rattle.std.specs.Prelude.{◌≡◌, OnOk};
ghost use Rattle.byte_disk.specs.Commands.{IsFileSure};
ghost use Rattle.byte_disk.specs.Files.{Files};
ghost use Rattle.image_slots.specs.State.{file_of};
ghost use Rattle.image_tape.specs.Blames.{IsBlamed, IsSpent, Never};
ghost use Rattle.image_tape.specs.declared.doubt.Doubt.TheVariants.{Settled};
ghost use Rattle.image_tape.specs.Steps.{AreStored, IsAlike, IsNoteSet, IsStored, Looks};

use crate::halves::{with_note, with_vcr};
use crate::tape::ImageTape;
use byte_disk::{ByteDisk, DiskFault};
use image_format::SlotValue;
use tape_drive::DriveErr;
use tape_types::{Note, Part};

impl<B: ByteDisk> ImageTape<B> {
    // Makes the items of both partitions durable.
    fn store(&mut self) -> Result<(), DriveErr>
        ensures looks { Looks B.ByteDisk 2 self.old self.new }
        ensures alike { IsAlike self.old self.new }
        ensures sure { OnOk result (AreStored B.ByteDisk self.new) }
        ensures blamed { IsBlamed B.ByteDisk Never result self.old self.new }
    {
        match self.store_part(Part::Ip) {
            Ok(()) => self.store_part(Part::Dp),
            Err(why) => Err(why),
        }
    }

    fn store_part(&mut self, part: Part) -> Result<(), DriveErr>
        ensures looks { Looks B.ByteDisk 1 self.old self.new }
        ensures alike { IsAlike self.old self.new }
        ensures held { B.held self.new.slots.disk ≡ B.held self.old.slots.disk }
        ensures left { (image : Files) → B.leaves self.new.slots.disk image → B.leaves self.old.slots.disk image }
        ensures sure { OnOk result
            (IsFileSure (file_of part) (B.held self.new.slots.disk) (B.leaves self.new.slots.disk)) }
        ensures blamed { IsBlamed B.ByteDisk Never result self.old self.new }
    {
        match self.slots.sync(part) {
            Ok(()) => Ok(()),
            Err(DiskFault) => Err(DriveErr::Failed),
        }
    }

    // Makes durable all that reads.
    pub(crate) fn settle_all(&mut self) -> Result<(), DriveErr>
        requires { self.old.doubt ≡ Settled }
        ensures stored { IsStored B.ByteDisk 8 result self.old self.new }
        ensures blamed { IsBlamed B.ByteDisk IsSpent result self.old self.new }
    {
        match self.store() {
            Ok(()) => {
                let reads = self.reads;
                self.count_all(reads)
            }
            Err(why) => Err(why),
        }
    }

    // Lets the header count all that reads, once it is durable.
    fn count_all(&mut self, reads: SlotValue) -> Result<(), DriveErr>
        requires settled { self.old.doubt ≡ Settled }
        requires all { reads ≡ self.old.reads }
        requires stored { AreStored B.ByteDisk self.old }
        ensures stored { IsStored B.ByteDisk 6 result self.old self.new }
        ensures blamed { IsBlamed B.ByteDisk IsSpent result self.old self.new }
    {
        // What is kept of the files tells what they hold.
        let _kept = self.base;
        let end = self.commit(reads, reads);
        // And it does behind that.
        let _counted = self.base;
        end
    }

    // Sets the attribute of a partition.
    pub(crate) fn set_note(&mut self, part: Part, note: Note) -> Result<(), DriveErr>
        requires { self.old.doubt ≡ Settled }
        ensures noted { IsNoteSet B.ByteDisk part note result self.old self.new }
        ensures blamed { IsBlamed B.ByteDisk IsSpent result self.old self.new }
    {
        let noted = with_note(part, note, &self.base);
        let base = with_vcr(self.reads.vcr, &noted);
        let reads = with_note(part, note, &self.reads);
        self.commit(base, reads)
    }
}
