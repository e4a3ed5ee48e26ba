// The commands of the tape.
ghost use Rattle.std.specs.Prelude.{◌≡◌, ◌≤◌, ◌<◌, ◌++◌, length, vec_capacity, IfOk, IfSome, OnOk, Some};
ghost use Rattle.tape_types.specs.Bounds.{most_positions};
ghost use Rattle.tape_types.specs.declared.cartridges.Item.{Item};
ghost use Rattle.image_format.specs.Records.{IsHead, head_bytes, record_bytes};
ghost use Rattle.tape_types.specs.declared.cartridges.Cartridge.{Cartridge};
ghost use Rattle.tape_types.specs.declared.cartridges.Item.TheVariants as item;
ghost use Rattle.tape_types.specs.declared.cartridges.Note.TheVariants as kind;
ghost use Rattle.tape_types.specs.declared.cartridges.Place.{Place};
ghost use Rattle.tape_types.specs.Cartridges.{IsItem, capacity, items_of, next, note_of};
ghost use Rattle.tape_drive.specs.Commands.{HasRoom};
ghost use Rattle.image_tape.specs.Blames.{AreSpent, IsBlamed, IsSpent, Never};
ghost use Rattle.image_tape.specs.declared.doubt.Doubt.TheVariants.{Settled};
ghost use Rattle.image_tape.specs.Ends.{Flushed, HasRead, IsEnded, IsFailed, IsLooked, IsSure, Noted, Wrote};
ghost use Rattle.image_tape.specs.Halves.{half_of};
ghost use Rattle.image_tape.specs.Steps.{IsSteady};
ghost use Rattle.image_tape.specs.Tape.{AreEarlier, IsWithin, Remembers, held_of};

use crate::doubt::Doubt;
use crate::halves::half_of;
use crate::tape::ImageTape;
use byte_disk::ByteDisk;
use http_server::Log;
use image_format::Head;
use image_slots::Slots;
use tape_drive::{Drive, DriveErr, Got};
use tape_types::{Limits, Note, Part, Place};

impl<B: ByteDisk> ImageTape<B> {
    // The moments that are past once this one is.
    fn moment(&self) -> Log<u64, Slots<B>>
        ensures { Remembers B.ByteDisk result.items self.now }
    {
        self.past.and(&self.reads.vcr, &self.slots)
    }

    // A command that changes nothing. Where it succeeds the head stands there.
    fn look(&mut self, head: Option<Place>) -> Result<(), DriveErr>
        requires { IsWithin (held_of B.ByteDisk self.old) head }
        ensures looked { IsLooked B.ByteDisk result self.old self.new }
        ensures head { OnOk result (self.new.head ≡ head) }
        ensures settled { OnOk result (self.new.doubt ≡ Settled) }
        ensures blamed { IsBlamed B.ByteDisk Never result self.old self.new }
    {
        let past = self.moment();
        match self.begin() {
            Ok(()) => {
                self.end(head, past);
                Ok(())
            }
            Err(why) => {
                self.fail(past);
                Err(why)
            }
        }
    }

    // A command that makes the reference durable as it reads, and changes nothing else.
    fn look_surely(&mut self) -> Result<(), DriveErr>
        ensures looked { IsLooked B.ByteDisk result self.old self.new }
        ensures head { OnOk result (self.new.head ≡ self.old.head) }
        ensures settled { OnOk result (IsSteady self.new) }
        ensures blamed { IsBlamed B.ByteDisk IsSpent result self.old self.new }
    {
        let past = self.moment();
        let head = self.head;
        match self.begin() {
            Ok(()) => match self.settle_vcr() {
                Ok(()) => {
                    self.end(head, past);
                    Ok(())
                }
                Err(why) => {
                    self.fail(past);
                    Err(why)
                }
            },
            Err(why) => {
                self.fail(past);
                Err(why)
            }
        }
    }

    // Ends a command that succeeded. The head stands there.
    fn end(&mut self, head: Option<Place>, past: Log<u64, Slots<B>>)
        requires early { AreEarlier B.ByteDisk past.items (B.commands self.old.slots.disk) }
        requires within { IsWithin (held_of B.ByteDisk self.old) head }
        ensures { IsEnded B.ByteDisk head past.items self.old self.new }
    {
        // The number of commands is in its range.
        let _count = self.slots.commands();
        self.head = head;
        self.past = past;
    }

    // Ends a command that failed. It counts as a fault, and the head has to be located again.
    fn fail(&mut self, past: Log<u64, Slots<B>>)
        requires { AreEarlier B.ByteDisk past.items (B.commands self.old.slots.disk) }
        ensures { IsFailed B.ByteDisk past.items self.old self.new }
    {
        // The number of commands is in its range.
        let _count = self.slots.commands();
        self.past = past;
        self.head = None;
        self.faults = self.faults.saturating_add(1);
    }

    // Reads the item at a place.
    fn read_item(&mut self, at: Place, buf: &mut Vec<u8>) -> Result<Got, DriveErr>
        requires within { IsWithin (held_of B.ByteDisk self.old) (Some at) }
        requires room { 1048576 ≤ vec_capacity buf.old }
        ensures room { 1048576 ≤ vec_capacity buf.new }
        ensures ran { HasRead B.ByteDisk at result buf.new.items self.old self.new }
        ensures blamed { IsBlamed B.ByteDisk Never result self.old self.new }
    {
        let past = self.moment();
        match self.begin() {
            Ok(()) => match self.read_at(at, buf) {
                Ok((got, place)) => {
                    self.end(Some(place), past);
                    Ok(got)
                }
                Err(why) => {
                    self.fail(past);
                    Err(why)
                }
            },
            Err(why) => {
                self.fail(past);
                Err(why)
            }
        }
    }

    // Sets the attribute of a partition.
    fn put_note(&mut self, part: Part, note: Note) -> Result<(), DriveErr>
        ensures noted { Noted B.ByteDisk part note result self.old self.new }
        ensures blamed { IsBlamed B.ByteDisk IsSpent result self.old self.new }
    {
        let past = self.moment();
        let head = self.head;
        match self.begin() {
            Ok(()) => match self.set_note(part, note) {
                Ok(()) => {
                    self.end(head, past);
                    Ok(())
                }
                Err(why) => {
                    self.fail(past);
                    Err(why)
                }
            },
            Err(why) => {
                self.fail(past);
                Err(why)
            }
        }
    }

    // Writes an item at a place.
    fn put_item(&mut self, at: Place, head: Head, bytes: &[u8]) -> Result<(), DriveErr>
        requires within { IsWithin (held_of B.ByteDisk self.old) (Some at) }
        requires room { at.pos < capacity at.part self.old.room.limits }
        requires head { IsHead head }
        requires size { length bytes.now ≤ 1048576 }
        requires sound { (x : Item) × IsItem x × (record_bytes x ≡ head_bytes head ++ bytes.now) }
        ensures wrote { (x : Item) → IsItem x → record_bytes x ≡ head_bytes head ++ bytes.now
            → Wrote B.ByteDisk at x result self.old self.new }
        ensures blamed { IsBlamed B.ByteDisk AreSpent result self.old self.new }
    {
        // What is kept of the files tells what they hold.
        let _kept = self.doubt;
        let past = self.moment();
        let behind = next(at);
        match self.begin() {
            Ok(()) => match self.write_at(at, head, bytes) {
                Ok(()) => {
                    self.end(Some(behind), past);
                    Ok(())
                }
                Err(why) => {
                    self.fail(past);
                    Err(why)
                }
            },
            Err(why) => {
                self.fail(past);
                Err(why)
            }
        }
    }
}

// One position further.
fn next(at: Place) -> Place
    requires { at.pos < most_positions }
    ensures { result ≡ next at }
{
    Place {
        part: at.part,
        pos: at.pos + 1,
    }
}

impl<B: ByteDisk> Drive for ImageTape<B> {
    ghost use Rattle.image_tape.specs.Since as laws;
    ghost use Rattle.image_tape.specs.Tape.{LeavesOf, LeftSince, held_of};

    const MOST: u64 = 16;

    ghost MOST = { 16 };

    ghost held = { λ t. held_of B.ByteDisk t };

    ghost head = { λ t. t.head };

    ghost limits = { λ t. t.room.limits };

    ghost faults = { λ t. t.faults };

    ghost commands = { λ t. B.commands t.slots.disk };

    ghost leaves = { λ t image. LeavesOf B.ByteDisk t image };

    ghost left_since = { λ t n image. LeftSince B.ByteDisk t n image };

    ghost allows = { λ image. Unit {0} };

    ghost only_now = { λ t image lt h. laws.from_four h
        (λ left. (image, (left.0, B.only_now t.slots.disk left.0 lt left.1, left.2, left.3), laws.as_it_opens _ image))
        (λ now. now) (λ past. laws.not_past _ lt past.0) (λ before. laws.not_before _ _ before.0 before.1) };

    ghost counts_now = { λ t n image le h. laws.second h };

    ghost lower = { λ t n m image le h. laws.from_four h
        (λ left. laws.first (left.0, B.lower t.slots.disk n m left.0 le left.1, left.2, left.3))
        (λ now. laws.second now)
        (λ past. laws.third (
          laws.rose_lower n m _ le past.0,
          laws.was_lower
              (record { held = B.held; faults = B.faults; commands = B.commands; leaves = B.leaves; left_since = B.left_since })
              _ t.past n m image le past.1,
        ))
        (λ before. laws.fourth (laws.lower_yet _ _ _ le before.0, before.1)) };

    fn limits(&self) -> Limits {
        // What is kept of the files tells what they hold.
        let _kept = self.doubt;
        self.room.limits()
    }

    fn faults(&self) -> u64 {
        self.faults
    }

    fn commands(&self) -> u64 {
        self.slots.commands()
    }

    fn locate(&mut self, place: Place) -> Result<(), DriveErr>
        requires within { IfSome (held_of B.ByteDisk self.old) (λ c. place.pos ≤ length (items_of place.part c)) }
        requires room { place.pos < capacity place.part self.old.room.limits }
        ensures looked { IsLooked B.ByteDisk result self.old self.new }
        ensures head { OnOk result (self.new.head ≡ Some place) }
        ensures blamed { IsBlamed B.ByteDisk Never result self.old self.new }
    {
        self.look(Some(place))
    }

    fn read(&mut self, buf: &mut Vec<u8>) -> Result<Got, DriveErr>
        requires located { (at : Place) × (self.old.head ≡ Some at) }
        requires room { 1048576 ≤ vec_capacity buf.old }
        ensures room { 1048576 ≤ vec_capacity buf.new }
        ensures ran { (at : Place) → self.old.head ≡ Some at
            → HasRead B.ByteDisk at result buf.new.items self.old self.new }
        ensures blamed { IsBlamed B.ByteDisk Never result self.old self.new }
    {
        let Some(at) = self.head else { unreachable!() };
        self.read_item(at, buf)
    }

    fn write(&mut self, bytes: &[u8]) -> Result<(), DriveErr>
        requires located { HasRoom self.old.head self.old.room.limits }
        requires some { 1 ≤ length bytes.now }
        requires size { length bytes.now ≤ 1048576 }
        ensures ran { (at : Place) → self.old.head ≡ Some at
            → Wrote B.ByteDisk at (item.Block bytes.now) result self.old self.new }
        ensures blamed { IsBlamed B.ByteDisk AreSpent result self.old self.new }
    {
        let Some(at) = self.head else { unreachable!() };
        self.put_item(at, Head::Block(bytes.len() as u32), bytes)
    }

    fn mark(&mut self) -> Result<(), DriveErr>
        requires located { HasRoom self.old.head self.old.room.limits }
        ensures ran { (at : Place) → self.old.head ≡ Some at → Wrote B.ByteDisk at item.Mark result self.old self.new }
        ensures blamed { IsBlamed B.ByteDisk AreSpent result self.old self.new }
    {
        let Some(at) = self.head else { unreachable!() };
        self.put_item(at, Head::Mark, &[])
    }

    fn flush(&mut self) -> Result<(), DriveErr>
        ensures flushed { Flushed B.ByteDisk result self.old self.new }
        ensures blamed { IsBlamed B.ByteDisk IsSpent result self.old self.new }
    {
        let past = self.moment();
        let head = self.head;
        match self.begin() {
            Ok(()) => match self.settle_all() {
                Ok(()) => {
                    self.end(head, past);
                    Ok(())
                }
                Err(why) => {
                    self.fail(past);
                    Err(why)
                }
            },
            Err(why) => {
                self.fail(past);
                Err(why)
            }
        }
    }

    fn read_note(&mut self, part: Part) -> Result<Note, DriveErr>
        ensures value { IfOk result (λ note. (c : Cartridge) → held_of B.ByteDisk self.old ≡ Some c
            → note ≡ note_of part c) }
        ensures looked { IsLooked B.ByteDisk result self.old self.new }
        ensures head { OnOk result (self.new.head ≡ self.old.head) }
        ensures settled { OnOk result (IsSure B.ByteDisk self.new) }
        ensures blamed { IsBlamed B.ByteDisk IsSpent result self.old self.new }
    {
        if let Err(why) = self.look_surely() {
            return Err(why);
        }
        Ok(half_of(part, &self.reads).note)
    }

    fn write_note(&mut self, part: Part, note: &[u8; 70]) -> Result<(), DriveErr>
        ensures ran { Noted B.ByteDisk part (kind.Kept note.now) result self.old self.new }
        ensures settled { OnOk result (IsSure B.ByteDisk self.new) }
        ensures blamed { IsBlamed B.ByteDisk IsSpent result self.old self.new }
    {
        let end = self.put_note(part, Note::Kept(*note));
        // What is kept of the files tells what they hold.
        let _kept = self.doubt;
        end
    }

    fn vcr(&mut self) -> Result<u64, DriveErr>
        ensures value { IfOk result (λ n. (c : Cartridge) → held_of B.ByteDisk self.old ≡ Some c → n ≡ c.vcr) }
        ensures looked { IsLooked B.ByteDisk result self.old self.new }
        ensures head { OnOk result (self.new.head ≡ self.old.head) }
        ensures settled { OnOk result (IsSure B.ByteDisk self.new) }
        ensures blamed { IsBlamed B.ByteDisk IsSpent result self.old self.new }
    {
        if let Err(why) = self.look_surely() {
            return Err(why);
        }
        Ok(self.reads.vcr)
    }
}
