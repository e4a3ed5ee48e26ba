// What is known of a header is made sure, and a header is set.
ghost use Rattle.std.specs.Prelude.{◌≡◌, ◌≤◌, IfSome, IfNone, None, OnOk, drop};
ghost use Rattle.tape_types.specs.Counts.{Rose};
ghost use Rattle.image_slots.specs.declared.known.Known.TheVariants.{Steady};
ghost use Rattle.image_tape.specs.Blames.{IsBlamed, IsSpent, Never};
ghost use Rattle.image_tape.specs.declared.doubt.Doubt.TheVariants.{Open, Settled};
ghost use Rattle.image_tape.specs.Steps.{IsCommit, IsFound, IsSteady, IsTaken, Looks, MayStand};
ghost use Rattle.image_tape.specs.Tape.{Holds, cut_to};

use crate::doubt::Doubt;
use crate::halves::{cut_to, fields_are_sized, with_serial, with_vcr};
use crate::tape::ImageTape;
use byte_disk::{ByteDisk, DiskFault};
use image_format::{SlotValue, decode_header, encode_value};
use image_slots::{SetErr, known_values_are_left};
use tape_drive::DriveErr;
use tape_types::Part;

impl<B: ByteDisk> ImageTape<B> {
    // Begins a command: one of the disk, and then the header is read anew where setting it has failed.
    pub(crate) fn begin(&mut self) -> Result<(), DriveErr>
        ensures looks { Looks B.ByteDisk 3 self.old self.new }
        ensures rose { Rose (B.commands self.old.slots.disk) (B.commands self.new.slots.disk) }
        ensures settled { OnOk result (self.new.doubt ≡ Settled) }
        ensures blamed { IsBlamed B.ByteDisk Never result self.old self.new }
    {
        match self.measure() {
            Ok(()) => self.settle(),
            Err(why) => Err(why),
        }
    }

    // A command of the disk that does nothing.
    fn measure(&mut self) -> Result<(), DriveErr>
        ensures looks { Looks B.ByteDisk 1 self.old self.new }
        ensures rose { Rose (B.commands self.old.slots.disk) (B.commands self.new.slots.disk) }
        ensures blamed { IsBlamed B.ByteDisk Never result self.old self.new }
    {
        match self.slots.length(Part::Ip) {
            Ok(_) => Ok(()),
            Err(DiskFault) => Err(DriveErr::Failed),
        }
    }

    fn settle(&mut self) -> Result<(), DriveErr>
        ensures looks { Looks B.ByteDisk 2 self.old self.new }
        ensures settled { OnOk result (self.new.doubt ≡ Settled) }
        ensures blamed { IsBlamed B.ByteDisk Never result self.old self.new }
    {
        match self.doubt {
            Doubt::Settled => Ok(()),
            Doubt::Open { value, reads } => match self.recover() {
                Ok(()) => self.choose(value, reads),
                Err(why) => Err(why),
            },
        }
    }

    // Reads the header anew.
    fn recover(&mut self) -> Result<(), DriveErr>
        ensures looks { Looks B.ByteDisk 2 self.old self.new }
        ensures doubt { self.new.doubt ≡ self.old.doubt }
        ensures steady { OnOk result (self.new.slots.known ≡ Steady) }
        ensures blamed { IsBlamed B.ByteDisk Never result self.old self.new }
    {
        match self.slots.recover() {
            Ok(()) => Ok(()),
            Err(_) => Err(DriveErr::Failed),
        }
    }

    // Takes the value that the header is found to say.
    fn choose(&mut self, value: SlotValue, reads: SlotValue) -> Result<(), DriveErr>
        requires open { self.old.doubt ≡ Open value reads }
        requires steady { self.old.slots.known ≡ Steady }
        ensures looks { Looks B.ByteDisk 0 self.old self.new }
        ensures settled { OnOk result (self.new.doubt ≡ Settled) }
        ensures blamed { IsBlamed B.ByteDisk Never result self.old self.new }
    {
        let Some(found) = self.found() else {
            return Err(DriveErr::Failed);
        };
        if found.serial == self.base.serial {
            self.doubt = Doubt::Settled;
            return Ok(());
        }
        if found.serial == value.serial {
            cut_to(&reads, &mut self.room);
            self.base = value;
            self.reads = reads;
            self.doubt = Doubt::Settled;
            return Ok(());
        }
        Err(DriveErr::Failed)
    }

    // Makes the reference durable as it reads.
    pub(crate) fn settle_vcr(&mut self) -> Result<(), DriveErr>
        requires { self.old.doubt ≡ Settled }
        ensures looks { Looks B.ByteDisk 6 self.old self.new }
        ensures settled { OnOk result (IsSteady self.new) }
        ensures blamed { IsBlamed B.ByteDisk IsSpent result self.old self.new }
    {
        if self.base.vcr == self.reads.vcr {
            return Ok(());
        }
        let base = with_vcr(self.reads.vcr, &self.base);
        let reads = self.reads;
        self.commit(base, reads)
    }

    // What the header says.
    fn found(&self) -> Option<SlotValue>
        requires { self.now.slots.known ≡ Steady }
        ensures found { IfSome result (λ s. IsFound B.ByteDisk self.now s) }
        ensures none { IfNone result (B.held self.now.slots.disk ≡ None) }
    {
        known_values_are_left::<B>();
        decode_header(self.room.limits(), self.slots.get())
    }

    // Sets the header to a value, whose serial number is the next one. With it so much reads.
    pub(crate) fn commit(&mut self, value: SlotValue, reads: SlotValue) -> Result<(), DriveErr>
        requires settled { self.old.doubt ≡ Settled }
        requires holds { Holds (cut_to reads self.old.room) reads }
        requires stands { MayStand B.ByteDisk value reads self.old }
        requires vcr { value.vcr ≡ reads.vcr }
        requires later { self.old.reads.vcr ≤ value.vcr }
        ensures commit { IsCommit B.ByteDisk value reads result self.old self.new }
        ensures set { OnOk result (IsTaken value reads self.old self.new) }
        ensures blamed { IsBlamed B.ByteDisk IsSpent result self.old self.new }
    {
        let Some(serial) = self.base.serial.checked_add(1) else {
            return Err(DriveErr::Failed);
        };
        let value = with_serial(serial, &value);
        fields_are_sized(&value);
        match self.slots.set(&behind_serial(&encode_value(&value))) {
            Ok(()) => {
                known_values_are_left::<B>();
                // The value that counts is the one that was set.
                let _value = self.slots.get();
                cut_to(&reads, &mut self.room);
                self.base = value;
                self.reads = reads;
                self.head = None;
                Ok(())
            }
            Err(SetErr::Serial) => Err(DriveErr::Failed),
            Err(SetErr::Disk) => {
                self.doubt = Doubt::Open { value, reads };
                self.head = None;
                Err(DriveErr::Failed)
            }
        }
    }
}

// The bytes of a value behind its serial number.
fn behind_serial(bytes: &[u8; 255]) -> [u8; 247]
    ensures { result ≡ drop 8 bytes.now }
{
    let mut rest = [0; 247];
    rest.copy_from_slice(&bytes[8..]);
    rest
}
