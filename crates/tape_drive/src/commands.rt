// The commands of the drive in memory.
ghost use Rattle.std.specs.Prelude.{◌≡◌, ◌≤◌, ◌<◌, ◌+◌, ◌-◌, length, IfOk, OnOk, vec_capacity, Some};
ghost use Rattle.tape_types.specs.Bounds.{most_positions};
ghost use Rattle.tape_types.specs.declared.cartridges.Place.{Place};
ghost use Rattle.tape_types.specs.declared.cartridges.Item.{Item};
ghost use Rattle.tape_types.specs.declared.cartridges.Item.TheVariants as item;
ghost use Rattle.tape_types.specs.declared.cartridges.Note.TheVariants as kind;
ghost use Rattle.tape_types.specs.declared.cartridges.Cartridge.{Cartridge};
ghost use Rattle.tape_types.specs.Cartridges.{items_of, note_of, capacity, next, IsItem};
ghost use Rattle.tape_drive.specs.Commands.{HasRoom, item_at, IsRead, after_read};
ghost use Rattle.tape_drive.specs.Crashes.{IsSettled};
ghost use Rattle.tape_drive.specs.Memory.{RanLocate, RanRead, Ran, RanPut, IsSane};
ghost use Rattle.tape_drive.specs.Record.{with_note, undo};
ghost use Rattle.tape_drive.specs.declared.record.Act.TheVariants.{Flushed, Noted, Settled};

use crate::drive::{Drive, DriveErr, Got};
use crate::memory::MemDrive;
use crate::record::Act;
use crate::schedule::{Cmd, Start};
use std::alloc::Global;
use tape_types::{Bytes, Item, Limits, NoMemory, Note, Part, Place};

impl MemDrive {
    // A command that only goes into the record.
    fn settle(&mut self, kind: Cmd, act: Act) -> Result<(), DriveErr>
        requires { (c : Cartridge) → undo act c ≡ c }
        ensures ran { Ran result kind act self.old.held self.old self.new }
        ensures sane { IsSane self.old }
    {
        let number = self.commands();
        match self.begin(kind) {
            Start::Free => match self.record(number, act) {
                Ok(()) => Ok(()),
                Err(NoMemory) => Err(self.starve()),
            },
            Start::Stopped => Err(self.fail()),
            Start::Listed => Err(self.fail()),
        }
    }

    // Answers what stands at a place, with a block's bytes in the buffer, and where the head stands then.
    fn read_at(&self, at: Place, buf: &mut Vec<u8>) -> (Got, Place)
        requires room { 1048576 ≤ vec_capacity buf.old }
        ensures room { 1048576 ≤ vec_capacity buf.new }
        ensures item { IsRead (item_at at self.now.held) result.0 buf.new.items }
        ensures place { result.1 ≡ after_read result.0 at }
    {
        match self.item_at(at) {
            Some(item) => read_item(item, at, buf),
            None => {
                buf.clear();
                (Got::End, at)
            }
        }
    }

    // A write or a mark at the head, of an item for which there was memory or not.
    fn put_item(&mut self, kind: Cmd, item: Result<Item, NoMemory>) -> Result<(), DriveErr>
        requires located { HasRoom self.old.head self.old.limits }
        requires size { IfOk item IsItem }
        ensures ran { (at : Place) × (self.old.head ≡ Some at)
            × ((x : Item) → IfOk item (λ y. y ≡ x) → RanPut result kind at x self.old self.new) }
        ensures sane { IsSane self.old }
    {
        let Some(at) = self.head() else {
            unreachable!()
        };
        let number = self.commands();
        let start = self.begin(kind);
        if self.is_vcr_at_end() {
            return Err(self.fail());
        }
        match start {
            Start::Stopped => Err(self.fail()),
            Start::Listed => match self.put(number, at, Item::Torn, true) {
                Ok(()) => Err(self.fail()),
                Err(NoMemory) => Err(self.starve()),
            },
            Start::Free => match item {
                Ok(item) => match self.put(number, at, item, false) {
                    Ok(()) => {
                        self.move_to(step(at));
                        Ok(())
                    }
                    Err(NoMemory) => Err(self.starve()),
                },
                Err(NoMemory) => Err(self.starve()),
            },
        }
    }
}

impl Drive for MemDrive {
    ghost use Rattle.tape_drive.specs.Record.{Leaves, LeftSince};
    ghost use Rattle.tape_drive.specs.Laws as laws;

    const MOST: u64 = 1;

    ghost MOST = { 1 };

    ghost held = { λ m. Some m.held };

    ghost head = { λ m. m.head };

    ghost limits = { λ m. m.limits };

    ghost faults = { λ m. m.faults };

    ghost commands = { λ m. m.commands };

    ghost leaves = { λ m image. Leaves m.held m.acts image };

    ghost left_since = { λ m t image. LeftSince m.commands m.held m.acts t image };

    ghost allows = { λ image. Unit {0} };

    ghost only_now = { λ m image lt h. laws.only_now m.commands m.held m.acts image lt h };

    ghost counts_now = { λ m t image le h. laws.counts_now m.commands m.held m.acts t image h };

    ghost lower = { λ m t u image le h. laws.lower m.commands m.held m.acts t u image le h };

    fn limits(&self) -> Limits {
        self.kept_limits()
    }

    fn faults(&self) -> u64 {
        self.fault_count()
    }

    fn commands(&self) -> u64 {
        self.command_count()
    }

    fn locate(&mut self, place: Place) -> Result<(), DriveErr>
        requires within { place.pos ≤ length (items_of place.part self.old.held) }
        requires room { place.pos < capacity place.part self.old.limits }
        ensures ran { RanLocate result place self.old self.new }
        ensures sane { IsSane self.old }
    {
        match self.begin(Cmd::Locate) {
            Start::Free => {
                self.move_to(place);
                Ok(())
            }
            Start::Stopped => Err(self.fail()),
            Start::Listed => Err(self.fail()),
        }
    }

    fn read(&mut self, buf: &mut Vec<u8>) -> Result<Got, DriveErr>
        requires located { (at : Place) × (self.old.head ≡ Some at) }
        requires room { 1048576 ≤ vec_capacity buf.old }
        ensures room { 1048576 ≤ vec_capacity buf.new }
        ensures ran { (at : Place) × (self.old.head ≡ Some at) × RanRead result at buf.new.items self.old self.new }
        ensures sane { IsSane self.old }
    {
        let Some(at) = self.head() else {
            unreachable!()
        };
        match self.begin(Cmd::Read) {
            Start::Free => {
                let (got, place) = self.read_at(at, buf);
                self.move_to(place);
                Ok(got)
            }
            Start::Stopped => Err(self.fail()),
            Start::Listed => Err(self.fail()),
        }
    }

    fn write(&mut self, bytes: &[u8]) -> Result<(), DriveErr>
        requires located { HasRoom self.old.head self.old.limits }
        requires some { 1 ≤ length bytes.now }
        requires size { length bytes.now ≤ 1048576 }
        ensures ran { (at : Place) × (self.old.head ≡ Some at)
            × RanPut result Cmd.Write at (item.Block bytes.now) self.old self.new }
        ensures settled { OnOk result (IsSettled (Some self.new.held) (Leaves self.new.held self.new.acts)) }
        ensures sane { IsSane self.old }
    {
        let item = block(self.alloc(), bytes);
        self.put_item(Cmd::Write, item)
    }

    fn mark(&mut self) -> Result<(), DriveErr>
        requires located { HasRoom self.old.head self.old.limits }
        ensures ran { (at : Place) × (self.old.head ≡ Some at)
            × RanPut result Cmd.Mark at item.Mark self.old self.new }
        ensures settled { OnOk result (IsSettled (Some self.new.held) (Leaves self.new.held self.new.acts)) }
        ensures sane { IsSane self.old }
    {
        self.put_item(Cmd::Mark, Ok(Item::Mark))
    }

    fn flush(&mut self) -> Result<(), DriveErr>
        ensures ran { Ran result Cmd.Flush Flushed self.old.held self.old self.new }
        ensures sane { IsSane self.old }
    {
        self.settle(Cmd::Flush, Act::Flushed)
    }

    fn read_note(&mut self, part: Part) -> Result<Note, DriveErr>
        ensures value { IfOk result (λ note. note ≡ note_of part self.old.held) }
        ensures ran { Ran result Cmd.ReadNote Settled self.old.held self.old self.new }
        ensures sane { IsSane self.old }
    {
        match self.settle(Cmd::ReadNote, Act::Settled) {
            Ok(()) => Ok(self.note_of(part)),
            Err(e) => Err(e),
        }
    }

    fn write_note(&mut self, part: Part, note: &[u8; 70]) -> Result<(), DriveErr>
        ensures ran { Ran result Cmd.WriteNote (Noted part (note_of part self.old.held))
            (with_note part (kind.Kept note.now) self.old.held) self.old self.new }
        ensures sane { IsSane self.old }
    {
        let number = self.commands();
        match self.begin(Cmd::WriteNote) {
            Start::Free => match self.set_note(number, part, Note::Kept(*note)) {
                Ok(()) => Ok(()),
                Err(NoMemory) => Err(self.starve()),
            },
            Start::Stopped => Err(self.fail()),
            Start::Listed => Err(self.fail()),
        }
    }

    fn vcr(&mut self) -> Result<u64, DriveErr>
        ensures value { IfOk result (λ n. n ≡ self.old.held.vcr) }
        ensures ran { Ran result Cmd.Vcr Settled self.old.held self.old self.new }
        ensures sane { IsSane self.old }
    {
        match self.settle(Cmd::Vcr, Act::Settled) {
            Ok(()) => Ok(self.vcr_held()),
            Err(e) => Err(e),
        }
    }
}

// Want of memory for a block's bytes.
fn block(alloc: Global, bytes: &[u8]) -> Result<Item, NoMemory>
    ensures { IfOk result (λ x. x ≡ item.Block bytes.now) }
{
    Ok(Item::Block(Bytes::from_vec(Vec::from_slice(alloc, bytes)?)))
}

fn step(at: Place) -> Place
    requires { at.pos < most_positions }
    ensures { result ≡ next at }
{
    Place {
        part: at.part,
        pos: at.pos + 1,
    }
}

// Answers an item that stands at a place, with a block's bytes in the buffer, and where the head stands then.
fn read_item(found: &Item, at: Place, buf: &mut Vec<u8>) -> (Got, Place)
    requires room { 1048576 ≤ vec_capacity buf.old }
    requires size { IsItem found.now }
    requires inside { at.pos < most_positions }
    ensures room { 1048576 ≤ vec_capacity buf.new }
    ensures item { IsRead (Some found.now) result.0 buf.new.items }
    ensures place { result.1 ≡ after_read result.0 at }
{
    buf.clear();
    match found {
        Item::Block(bytes) => match buf.extend_from_slice(bytes.as_slice()) {
            Ok(()) => (Got::Block, step(at)),
            Err(_) => unreachable!(),
        },
        Item::Mark => (Got::Mark, step(at)),
        Item::Torn => (Got::Torn, at),
    }
}
