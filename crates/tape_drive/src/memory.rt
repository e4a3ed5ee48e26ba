// A drive in memory.
ghost use Rattle.std.specs.Prelude.{◌≡◌, ◌≤◌, ◌<◌, ◌+◌, ◌-◌, ◌^◌, ◌++◌, [], ◌∷◌, length, take, drop, OnOk, OnErr};
ghost use Rattle.std.specs.Prelude.{IfOk, IsTrue, All, ◌↔◌, reverse, Option, Some};
ghost use Rattle.std.specs.Option.{option_copied};
ghost use Rattle.tape_drive.specs.Commands.{item_at};
ghost use Rattle.tape_types.specs.Bounds.{most_positions};
ghost use Rattle.tape_types.specs.declared.cartridges.Place.{Place};
ghost use Rattle.tape_types.specs.declared.cartridges.Item.{Item};
ghost use Rattle.tape_types.specs.declared.cartridges.Cartridge.{Cartridge};
ghost use Rattle.tape_drive.specs.Placed.{IsPlaced, IsNotePlaced};

use crate::drive::DriveErr;
use crate::record::{Act, DoneCommand};
use crate::schedule::{Cmd, Fail, Schedule, Start};
use std::alloc::Global;
use std::marker::Model;
use tape_types::{Cartridge, Item, Limits, List, NoMemory, Note, Part, Place};

/// A drive whose cartridge lies in memory. It keeps what its commands have done, so that it can give each cartridge
/// that a crash may leave.
#[derive(Drop)]
pub struct MemDrive {
    alloc: Global,
    limits: Limits,
    ip: Vec<Item>,
    dp: Vec<Item>,
    vcr: u64,
    note_ip: Note,
    note_dp: Note,
    head: Option<Place>,
    /// The oldest first.
    acts: Vec<DoneCommand>,
    commands: u64,
    faults: u64,
    starved: u64,
    schedule: Schedule,
}

impl Model for MemDrive {
    ghost use Rattle.std.specs.Prelude.{reverse};
    ghost use Rattle.tape_drive.specs.Memory.{View};
    ghost use Rattle.tape_drive.specs.Placed.{reads_as};
    ghost use Rattle.tape_drive.specs.Record.{IsSound};

    ghost Value = { View };

    ghost view = { λ m. record {
      held = reads_as m.ip.items m.dp.items m.vcr m.note_ip m.note_dp;
      acts = reverse m.acts.items;
      head = m.head;
      limits = m.limits;
      commands = m.commands;
      faults = m.faults;
      starved = m.starved;
      schedule = m.schedule;
    } };

    ghost invariant = { λ m. IsSound m.limits m.commands
        (reads_as m.ip.items m.dp.items m.vcr m.note_ip m.note_dp) (reverse m.acts.items) };
}

impl MemDrive {
    ghost use Rattle.tape_types.specs.Cartridges.{IsLimits, FitsLimits};
    ghost use Rattle.tape_drive.specs.Memory.{made, with_schedule};
    ghost use Rattle.tape_drive.specs.Schedule.{stopped_after};

    /// A drive that holds this cartridge, with nothing pending. Capacities are of 4 to 2^40 positions.
    pub fn new(alloc: Global, held: Cartridge, limits: Limits, fails: List<Fail>) -> MemDrive
        requires range { IsLimits limits }
        requires fits { FitsLimits limits held }
        ensures { result ≡ made held limits fails }
    {
        let Cartridge {
            ip,
            dp,
            vcr,
            note_ip,
            note_dp,
        } = held;
        MemDrive {
            alloc,
            limits,
            ip: ip.into_vec(),
            dp: dp.into_vec(),
            vcr,
            note_ip,
            note_dp,
            head: None,
            acts: Vec::new(alloc),
            commands: 0,
            faults: 0,
            starved: 0,
            schedule: Schedule::new(fails),
        }
    }

    /// Lets that many more commands pass. Each later one fails, and changes nothing.
    pub fn stop_after(&mut self, commands: u64)
        ensures { self.new ≡ with_schedule (stopped_after commands self.old.schedule) self.old }
    {
        self.schedule.stop_after(commands);
    }

    /// How often a command has failed for want of memory.
    pub fn starved(&self) -> u64
        ensures { result ≡ self.now.starved }
    {
        self.starved
    }
}

impl MemDrive {
    ghost use Rattle.tape_types.specs.Cartridges.{items_of, note_of, capacity, IsItem};
    ghost use Rattle.tape_drive.specs.Memory.{begun, failed, starved_out, acted, with_item, moved, IsSane};
    ghost use Rattle.tape_drive.specs.Schedule.{IsStart};
    ghost use Rattle.tape_drive.specs.Record.{with_note, undo, IsSound};
    ghost use Rattle.tape_drive.specs.declared.record.Act.TheVariants.{Put, Noted};

    // A command of this kind has come.
    pub(crate) fn begin(&mut self, kind: Cmd) -> Start
        ensures begun { self.new ≡ begun kind self.old }
        ensures start { IsStart result kind self.old.schedule }
        ensures sane { IsSane self.old }
    {
        self.commands = self.commands.saturating_add(1);
        self.schedule.begin(kind)
    }

    pub(crate) fn fail(&mut self) -> DriveErr
        ensures { self.new ≡ failed self.old }
    {
        self.head = None;
        self.faults = self.faults.saturating_add(1);
        DriveErr::Failed
    }

    pub(crate) fn starve(&mut self) -> DriveErr
        ensures { self.new ≡ starved_out self.old }
    {
        self.starved = self.starved.saturating_add(1);
        self.fail()
    }

    pub(crate) fn alloc(&self) -> Global {
        self.alloc
    }

    pub(crate) fn kept_limits(&self) -> Limits
        ensures value { result ≡ self.now.limits }
        ensures sound { IsSound self.now.limits self.now.commands self.now.held self.now.acts }
    {
        self.limits
    }

    pub(crate) fn fault_count(&self) -> u64
        ensures { result ≡ self.now.faults }
    {
        self.faults
    }

    pub(crate) fn command_count(&self) -> u64
        ensures { result ≡ self.now.commands }
    {
        self.commands
    }

    pub(crate) fn head(&self) -> Option<Place>
        ensures { result ≡ self.now.head }
    {
        self.head
    }

    pub(crate) fn move_to(&mut self, place: Place)
        ensures { self.new ≡ moved (Some place) self.old }
    {
        self.head = Some(place);
    }

    pub(crate) fn vcr_held(&self) -> u64
        ensures { result ≡ self.now.held.vcr }
    {
        self.vcr
    }

    pub(crate) fn is_vcr_at_end(&self) -> bool
        ensures { IsTrue result ↔ (2 ^ 64 - 1 ≤ self.now.held.vcr) }
    {
        self.vcr == u64::MAX
    }

    pub(crate) fn note_of(&self, part: Part) -> Note
        ensures { result ≡ note_of part self.now.held }
    {
        match part {
            Part::Ip => self.note_ip,
            Part::Dp => self.note_dp,
        }
    }

    pub(crate) fn item_at(&self, at: Place) -> Option<&Item>
        ensures value { option_copied result ≡ item_at at self.now.held }
        ensures size { (x : Item) → option_copied result ≡ Some x → IsItem x }
        ensures inside { (x : Item) → option_copied result ≡ Some x → at.pos < most_positions }
    {
        self.items_of(at.part).get(at.pos as usize)
    }

    // The record, the oldest entry first.
    pub(crate) fn acts(&self) -> &[DoneCommand]
        ensures value { reverse result.now ≡ self.now.acts }
        ensures sound { IsSound self.now.limits self.now.commands self.now.held self.now.acts }
    {
        self.acts.as_slice()
    }

    pub(crate) fn items_of(&self, part: Part) -> &[Item]
        ensures value { result.now ≡ items_of part self.now.held }
        ensures size { All IsItem result.now }
        ensures count { length result.now ≤ most_positions }
    {
        match part {
            Part::Ip => self.ip.as_slice(),
            Part::Dp => self.dp.as_slice(),
        }
    }

    // An act goes into the record that leaves the cartridge as it reads.
    pub(crate) fn record(&mut self, number: u64, act: Act) -> Result<(), NoMemory>
        requires same { (c : Cartridge) → undo act c ≡ c }
        requires number { self.old.commands < 2 ^ 64 - 1 → number < self.old.commands }
        ensures ok { OnOk result (self.new ≡ acted number act self.old.held self.old) }
        ensures err { OnErr result (self.new ≡ self.old) }
    {
        self.acts.push(DoneCommand { number, act })?;
        Ok(())
    }

    // Cuts the partition and appends the item, with the volume change reference one higher.
    pub(crate) fn put(
        &mut self,
        number: u64,
        at: Place,
        item: Item,
        failed: bool,
    ) -> Result<(), NoMemory>
        requires number { self.old.commands < 2 ^ 64 - 1 → number < self.old.commands }
        requires room { at.pos < capacity at.part self.old.limits }
        requires size { IsItem item }
        requires vcr { self.old.held.vcr < 2 ^ 64 - 1 }
        ensures ok { OnOk result (self.new
            ≡ acted number (Put at.part (drop at.pos (items_of at.part self.old.held)) failed)
            (with_item at item self.old.held) self.old) }
        ensures err { OnErr result (self.new ≡ self.old) }
    {
        self.acts.reserve(1)?;
        let gone = put_at(self.alloc, &mut self.ip, &mut self.dp, at, item)?;
        self.vcr += 1;
        self.acts.push_reserved(DoneCommand {
            number,
            act: Act::Put {
                part: at.part,
                gone,
                failed,
            },
        });
        Ok(())
    }

    pub(crate) fn set_note(&mut self, number: u64, part: Part, note: Note) -> Result<(), NoMemory>
        requires number { self.old.commands < 2 ^ 64 - 1 → number < self.old.commands }
        ensures ok { OnOk result (self.new
            ≡ acted number (Noted part (note_of part self.old.held)) (with_note part note self.old.held) self.old) }
        ensures err { OnErr result (self.new ≡ self.old) }
    {
        self.acts.reserve(1)?;
        let before = put_note(&mut self.note_ip, &mut self.note_dp, part, note);
        self.acts.push_reserved(DoneCommand {
            number,
            act: Act::Noted { part, before },
        });
        Ok(())
    }
}

// Cuts the list at a position and appends the item. Answers what the cut has taken away; without memory all stays.
fn replace_from(
    alloc: Global,
    items: &mut Vec<Item>,
    pos: u64,
    item: Item,
) -> Result<List<Item>, NoMemory>
    ensures gone { IfOk result (λ gone. gone ≡ drop pos items.old.items) }
    ensures ok { OnOk result (items.new.items ≡ take pos items.old.items ++ item ∷ []) }
    ensures err { OnErr result (items.new.items ≡ items.old.items) }
{
    items.reserve(1)?;
    if pos >= items.len() as u64 {
        items.push_reserved(item);
        return Ok(List::new(alloc));
    }
    let gone = items.split_off(pos as usize)?;
    items.push_reserved(item);
    Ok(List::from_vec(gone))
}

fn put_at(
    alloc: Global,
    ip: &mut Vec<Item>,
    dp: &mut Vec<Item>,
    at: Place,
    item: Item,
) -> Result<List<Item>, NoMemory>
    ensures ok { IfOk result (λ gone.
        IsPlaced at.part at.pos item gone ip.old.items dp.old.items ip.new.items dp.new.items) }
    ensures err { OnErr result ((ip.new.items ≡ ip.old.items) × (dp.new.items ≡ dp.old.items)) }
{
    match at.part {
        Part::Ip => replace_from(alloc, ip, at.pos, item),
        Part::Dp => replace_from(alloc, dp, at.pos, item),
    }
}

// Answers the attribute from before.
fn put_note(ip: &mut Note, dp: &mut Note, part: Part, note: Note) -> Note
    ensures { IsNotePlaced part note result ip.old dp.old ip.new dp.new }
{
    match part {
        Part::Ip => {
            let before = *ip;
            *ip = note;
            before
        }
        Part::Dp => {
            let before = *dp;
            *dp = note;
            before
        }
    }
}
