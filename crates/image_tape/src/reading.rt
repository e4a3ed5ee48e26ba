// Items are read.
ghost use Rattle.std.specs.Prelude.{◌≡◌, ◌≤◌, ◌<◌, ◌+◌, ◌-◌, ◌^◌, ◌++◌, List, [], length, slice_get, vec_capacity};
ghost use Rattle.std.specs.Prelude.{IfOk, IfSome, OnOk, Some};
ghost use Rattle.tape_types.specs.declared.cartridges.Item.{Item};
ghost use Rattle.tape_drive.specs.Commands.{FillsBuffer, IsRead, after_read};
ghost use Rattle.byte_disk.specs.Files.{Files, bytes_at, bytes_of};
ghost use Rattle.image_slots.specs.State.{file_of};
ghost use Rattle.image_format.specs.Images.{tail_of};
ghost use Rattle.image_format.specs.Values.{flag};
ghost use Rattle.tape_types.specs.declared.cartridges.Place.{Place};
ghost use Rattle.image_tape.specs.Blames.{IsBlamed, Never};
ghost use Rattle.image_tape.specs.Steps.{HasRecord, IsReading, Looks};

use crate::halves::half_of;
use crate::tape::ImageTape;
use byte_disk::{ByteDisk, DiskFault};
use image_format::{Half, Head, decode_head};
use tape_drive::{DriveErr, Got};
use tape_types::{Part, Place};

impl<B: ByteDisk> ImageTape<B> {
    // Reads what stands at a place, and answers where the head stands then.
    pub(crate) fn read_at(&mut self, at: Place, buf: &mut Vec<u8>) -> Result<(Got, Place), DriveErr>
        requires room { 1048576 ≤ vec_capacity buf.old }
        ensures room { 1048576 ≤ vec_capacity buf.new }
        ensures reading { IfOk result (λ found. IsReading B.ByteDisk at found.0 buf.new.items self.old) }
        ensures place { IfOk result (λ found. found.1 ≡ after_read found.0 at) }
        ensures looks { Looks B.ByteDisk 2 self.old self.new }
        ensures blamed { IsBlamed B.ByteDisk Never result self.old self.new }
    {
        let half = half_of(at.part, &self.reads);
        if at.pos < half.count {
            let from = self.room.offsets(at.part)[at.pos as usize];
            return match self.read_record(at.part, from, buf) {
                Ok(got) => Ok((got, step(got, at))),
                Err(why) => Err(why),
            };
        }
        buf.clear();
        Ok((behind(&half, at.pos), at))
    }

    // Reads the item whose record begins there.
    fn read_record(&mut self, part: Part, from: u64, buf: &mut Vec<u8>) -> Result<Got, DriveErr>
        requires room { 1048576 ≤ vec_capacity buf.old }
        requires stands { IfSome (B.held self.old.slots.disk) (λ d. (x : Item)
            × HasRecord from x (bytes_of (file_of part) d)) }
        ensures room { 1048576 ≤ vec_capacity buf.new }
        ensures item { IfOk result (λ got. (d : Files) (x : Item) → B.held self.old.slots.disk ≡ Some d
            → HasRecord from x (bytes_of (file_of part) d) → IsRead (Some x) got buf.new.items) }
        ensures bytes { IfOk result (λ got. FillsBuffer got buf.new.items) }
        ensures looks { Looks B.ByteDisk 2 self.old self.new }
        ensures blamed { IsBlamed B.ByteDisk Never result self.old self.new }
    {
        let mut bytes = [0; 5];
        if let Err(why) = self.fetch(part, from, &mut bytes) {
            return Err(why);
        }
        match decode_head(&bytes) {
            Some(Head::Block(size)) => self.read_block(part, from.saturating_add(5), size, buf),
            Some(Head::Mark) => {
                buf.clear();
                Ok(Got::Mark)
            }
            Some(Head::Torn) => {
                buf.clear();
                Ok(Got::Torn)
            }
            None => {
                buf.clear();
                Ok(Got::Torn)
            }
        }
    }

    // Reads so many bytes from there on, in place of what the buffer has.
    fn read_block(
        &mut self,
        part: Part,
        from: u64,
        size: u32,
        buf: &mut Vec<u8>,
    ) -> Result<Got, DriveErr>
        requires room { 1048576 ≤ vec_capacity buf.old }
        requires least { 1 ≤ size }
        requires most { size ≤ 1048576 }
        requires within { IfSome (B.held self.old.slots.disk) (λ d. from + size ≤ length (bytes_of (file_of part) d)) }
        ensures room { 1048576 ≤ vec_capacity buf.new }
        ensures value { IfOk result (λ got. (d : Files) → B.held self.old.slots.disk ≡ Some d
            → buf.new.items ≡ bytes_at from size (bytes_of (file_of part) d)) }
        ensures block { IfOk result (λ got. got ≡ Got.Block) }
        ensures size { IfOk result (λ got. length buf.new.items ≡ size) }
        ensures looks { Looks B.ByteDisk 1 self.old self.new }
        ensures blamed { IsBlamed B.ByteDisk Never result self.old self.new }
    {
        if buf.resize(size as usize, 0).is_err() {
            unreachable!()
        }
        match self.fetch(part, from, buf.as_mut_slice()) {
            Ok(()) => Ok(Got::Block),
            Err(why) => Err(why),
        }
    }

    // Fills the buffer with the bytes of a partition's file from there on.
    fn fetch(&mut self, part: Part, from: u64, buf: &mut [u8]) -> Result<(), DriveErr>
        requires within { IfSome (B.held self.old.slots.disk)
            (λ d. from + length buf.old ≤ length (bytes_of (file_of part) d)) }
        ensures size { length buf.new ≡ length buf.old }
        ensures value { (d : Files) → B.held self.old.slots.disk ≡ Some d
            → OnOk result (buf.new ≡ bytes_at from (length buf.old) (bytes_of (file_of part) d)) }
        ensures held { B.held self.new.slots.disk ≡ B.held self.old.slots.disk }
        ensures looks { Looks B.ByteDisk 1 self.old self.new }
        ensures blamed { IsBlamed B.ByteDisk Never result self.old self.new }
    {
        match self.slots.read(part, from, buf) {
            Ok(()) => Ok(()),
            Err(DiskFault) => Err(DriveErr::Failed),
        }
    }
}

// What stands behind the records of a partition.
fn behind(half: &Half, pos: u64) -> Got
    requires { half.now.count ≤ pos }
    ensures item { (items : List Item) → length items ≡ half.now.count
        → IsRead (slice_get (items ++ tail_of half.now.torn) pos) result [] }
    ensures end { half.now.count + flag half.now.torn ≤ pos → result ≡ Got.End }
    ensures fills { FillsBuffer result [] }
    ensures still { (at : Place) → at ≡ after_read result at }
{
    if !half.torn {
        return Got::End;
    }
    if pos == half.count {
        return Got::Torn;
    }
    Got::End
}

// Where the head stands after a read.
fn step(got: Got, at: Place) -> Place
    requires { at.pos < 2 ^ 64 - 1 }
    ensures { result ≡ after_read got at }
{
    match got {
        Got::Block | Got::Mark => Place {
            part: at.part,
            pos: at.pos + 1,
        },
        Got::End | Got::Torn => at,
    }
}
