// Room for where the records of both partitions begin.
ghost use Rattle.std.specs.Prelude.{ℕ, ◌≡◌, ◌≤◌, ◌<◌, ◌+◌, ◌^◌, ◌/◌, List, [], ◌∷◌, ◌++◌, min, length, take};
ghost use Rattle.std.specs.Prelude.{vec_capacity, Some, None, IfOk, IfErr, IfSome};
ghost use Rattle.tape_types.specs.Cartridges.{capacity};
ghost use Rattle.byte_disk.specs.Files.{Files, bytes_of};
ghost use Rattle.image_slots.specs.State.{file_of};
ghost use Rattle.image_slots.specs.declared.known.Known.TheVariants.{Steady};
ghost use Rattle.image_format.specs.Images.{header_by};
ghost use Rattle.image_format.specs.Looks.{Looks};
ghost use Rattle.image_format.specs.Offsets.{KeepsOther, offsets_of, with_offsets};
ghost use Rattle.image_format.specs.Reading.{AreSought, IsBlamed, IsFoundIn, IsHeaderOf, IsRead};
ghost use Rattle.image_format.specs.Walks.{HasReason, IsWalked};
ghost use Rattle.image_format.specs.declared.values.Half.{Half};

use crate::header::decode_header;
use crate::refusal::{ReadErr, Refusal, WalkErr};
use crate::values::{Half, SlotValue};
use crate::walks::walk;
use crate::window::{Window, empty_window};
use byte_disk::ByteDisk;
use image_slots::{Slots, known_values_are_left};
use std::alloc::Global;
use std::marker::Model;
use tape_types::{Limits, NoMemory, Part};

/// Room for an offset for each position of a cartridge, and a buffer of 64 KiB. Nothing that is done with it takes
/// memory.
#[derive(Drop)]
pub struct Room {
    limits: Limits,
    ip: Vec<u64>,
    dp: Vec<u64>,
    window: Window,
}

impl Model for Room {
    ghost use Rattle.std.specs.Prelude.{◌≡◌, ◌≤◌, length, vec_capacity};
    ghost use Rattle.image_format.specs.Offsets.{Offsets};

    ghost Value = { Offsets };

    ghost view = { λ r. record { limits = r.limits; ip = r.ip.items; dp = r.dp.items } };

    ghost invariant = { λ r. (r.limits.cap_ip ≤ vec_capacity r.ip) × (r.limits.cap_dp ≤ vec_capacity r.dp)
        × (length r.window.bytes.items ≡ 65536) };
}

impl Room {
    /// Room for a cartridge with these capacities, in which no records are.
    pub fn new(alloc: Global, limits: Limits) -> Result<Room, NoMemory>
        requires ip { 4 ≤ limits.cap_ip }
        requires dp { 4 ≤ limits.cap_dp }
        requires most { limits.cap_ip + limits.cap_dp ≤ 2 ^ 24 }
        ensures { IfOk result (λ r. r ≡ record { limits = limits; ip = []; dp = [] }) }
    {
        Ok(Room {
            limits,
            ip: reserved(alloc, limits.cap_ip)?,
            dp: reserved(alloc, limits.cap_dp)?,
            window: empty_window(alloc)?,
        })
    }

    pub fn limits(&self) -> Limits
        ensures { result ≡ self.now.limits }
    {
        self.limits
    }

    /// Where the records of a partition begin, as they were found last.
    pub fn offsets(&self, part: Part) -> &[u64]
        ensures { result.now ≡ offsets_of part self.now }
    {
        match part {
            Part::Ip => self.ip.as_slice(),
            Part::Dp => self.dp.as_slice(),
        }
    }

    /// Leaves so many of a partition's records, the first ones.
    pub fn cut(&mut self, part: Part, count: u64)
        ensures { self.new ≡ with_offsets part (take count (offsets_of part self.old)) self.old }
    {
        match part {
            Part::Ip => self.ip.truncate(count as usize),
            Part::Dp => self.dp.truncate(count as usize),
        }
    }

    /// Adds a record that begins at a place, behind the others of its partition. There is room for it where they are
    /// fewer than the capacity.
    pub fn push(&mut self, part: Part, at: u64)
        requires { length (offsets_of part self.old) < capacity part self.old.limits }
        ensures { self.new ≡ with_offsets part (offsets_of part self.old ++ at ∷ []) self.old }
    {
        match part {
            Part::Ip => self.ip.push_reserved(at),
            Part::Dp => self.dp.push_reserved(at),
        }
    }

    /// Reads what the value of a disk says, and finds the records of both partitions that count, by their heads alone;
    /// it keeps where each begins. Where the disk tells what it holds, the answer is what its bytes mean, except for
    /// `Disk`: then the disk has failed. The offsets say nothing behind an error.
    pub fn read<B: ByteDisk>(&mut self, slots: &mut Slots<B>) -> Result<SlotValue, ReadErr>
        requires { slots.old.known ≡ Steady }
        ensures told { (d : Files) → B.held slots.old.disk ≡ Some d → IsRead self.old.limits d result self.new }
        ensures value { IfOk result (λ s. header_by self.old.limits (Some slots.old.value) ≡ Some s) }
        ensures limits { self.new.limits ≡ self.old.limits }
        ensures commands { (d : Files) → B.held slots.old.disk ≡ Some d → B.commands slots.new.disk
            ≤ B.commands slots.old.disk + (length d.ip / 65532 + 2) + (length d.dp / 65532 + 2) }
        ensures looks { Looks B.ByteDisk ((self.old.limits.cap_ip + 2) + (self.old.limits.cap_dp + 2)) slots.old
            slots.new }
        ensures cause { IfErr result (IsBlamed (header_by self.old.limits (Some slots.old.value) ≡ None)
            (B.faults slots.old.disk) (B.faults slots.new.disk)) }
    {
        // The number of commands is in its range.
        let _count = slots.commands();
        match self.header(slots) {
            Some(value) => match self.walk_both(slots, &value) {
                Ok(()) => Ok(value),
                Err(why) => Err(why),
            },
            None => Err(ReadErr::Refused(Refusal::Header)),
        }
    }

    // What the value of a disk says.
    fn header<B: ByteDisk>(&self, slots: &Slots<B>) -> Option<SlotValue>
        requires { slots.now.known ≡ Steady }
        ensures said { (d : Files) → B.held slots.now.disk ≡ Some d → IsHeaderOf self.now.limits d result }
        ensures value { header_by self.now.limits (Some slots.now.value) ≡ result }
        ensures ip { IfSome result (λ s. s.ip.count ≤ self.now.limits.cap_ip) }
        ensures dp { IfSome result (λ s. s.dp.count ≤ self.now.limits.cap_dp) }
    {
        known_values_are_left::<B>();
        decode_header(self.limits, slots.get())
    }

    // Finds the records of both partitions.
    fn walk_both<B: ByteDisk>(
        &mut self,
        slots: &mut Slots<B>,
        value: &SlotValue,
    ) -> Result<(), ReadErr>
        requires ip { value.now.ip.count ≤ self.old.limits.cap_ip }
        requires dp { value.now.dp.count ≤ self.old.limits.cap_dp }
        ensures told { (d : Files) → B.held slots.old.disk ≡ Some d → AreSought value.now d result self.new }
        ensures limits { self.new.limits ≡ self.old.limits }
        ensures commands { (d : Files) → B.held slots.old.disk ≡ Some d → B.commands slots.new.disk
            ≤ B.commands slots.old.disk + (length d.ip / 65532 + 2) + (length d.dp / 65532 + 2) }
        ensures looks { Looks B.ByteDisk ((self.old.limits.cap_ip + 2) + (self.old.limits.cap_dp + 2)) slots.old
            slots.new }
        ensures cause { IfErr result (IsBlamed ⊥ (B.faults slots.old.disk) (B.faults slots.new.disk)) }
    {
        match self.walk(slots, Part::Ip, &value.ip) {
            Ok(()) => self.walk(slots, Part::Dp, &value.dp),
            Err(why) => Err(why),
        }
    }

    // Finds the records of one.
    fn walk<B: ByteDisk>(
        &mut self,
        slots: &mut Slots<B>,
        part: Part,
        half: &Half,
    ) -> Result<(), ReadErr>
        requires { half.now.count ≤ capacity part self.old.limits }
        ensures told { (d : Files) → B.held slots.old.disk ≡ Some d
            → IsFoundIn part half.now (bytes_of (file_of part) d) result (offsets_of part self.new) }
        ensures other { KeepsOther part self.old self.new }
        ensures looks { Looks B.ByteDisk (min half.now.count (half.now.end / 65532) + 2) slots.old slots.new }
        ensures commands { (d : Files) → B.held slots.old.disk ≡ Some d
            → B.commands slots.new.disk ≤ B.commands slots.old.disk + length (bytes_of (file_of part) d) / 65532 + 2 }
        ensures cause { IfErr result (IsBlamed ⊥ (B.faults slots.old.disk) (B.faults slots.new.disk)) }
    {
        match part {
            Part::Ip => answered(
                part,
                walk(&mut self.ip, &mut self.window, slots, part, half),
            ),
            Part::Dp => answered(
                part,
                walk(&mut self.dp, &mut self.window, slots, part, half),
            ),
        }
    }
}

// What a walk over a partition tells.
fn answered(part: Part, found: Result<(), WalkErr>) -> Result<(), ReadErr>
    ensures told { (h : Half) (file offsets : List ℕ) → IsWalked h file found offsets
        → IsFoundIn part h file result offsets }
    ensures cause { (before now : ℕ) → IfErr found (HasReason before now) → IfErr result (IsBlamed ⊥ before now) }
{
    match found {
        Ok(()) => Ok(()),
        Err(WalkErr::Record(n)) => Err(ReadErr::Refused(Refusal::Record(part, n))),
        Err(WalkErr::Disk) => Err(ReadErr::Disk),
    }
}

fn reserved(alloc: Global, count: u64) -> Result<Vec<u64>, NoMemory>
    ensures none { IfOk result (λ v. v.items ≡ []) }
    ensures room { IfOk result (λ v. count ≤ vec_capacity v) }
{
    let mut offsets = Vec::new(alloc);
    offsets.reserve(count as usize)?;
    Ok(offsets)
}
