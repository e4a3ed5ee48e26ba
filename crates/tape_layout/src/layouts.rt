ghost use Rattle.std.specs.Prelude.{◌≡◌, ◌+◌, ◌<◌, ◌≤◌, ◌^◌, [], ◌∷◌, ◌++◌, ℕ, List, Option, None, length, drop, true};
ghost use Rattle.std.specs.Prelude.{false, nat_le, slice_get, Some, IfSome, MatchOption, OnOk, OnErr};
ghost use Rattle.std.specs.Int.{div_ceil};
ghost use Rattle.std.specs.List.{All};
ghost use Rattle.std.specs.Option.{option_map};
ghost use Rattle.tape_types.specs.Bounds.{most_positions};
ghost use Rattle.tape_types.specs.Cartridges.{capacity};
ghost use Rattle.tape_layout.specs.Admissions as admissions;
ghost use Rattle.tape_layout.specs.Admissions.{IsAdmitted, close_admission, data_admission, index_admission};
ghost use Rattle.std.specs.List.Sorted.{IsPartitionedBy, IsPartitionPoint};
ghost use Rattle.tape_layout.specs.declared.ops.Op.{Op};
ghost use Rattle.tape_layout.specs.declared.standing.Ends.{Ends};
ghost use Rattle.tape_layout.specs.declared.standing.Standing.{Standing};
ghost use Rattle.tape_layout.specs.Ops.{AreNext, HasRoom, after_ops, counted, end_of, held_by, held_in, IsFirstPast};
ghost use Rattle.tape_layout.specs.Ops.{IsHeld, place_of};
ghost use Rattle.tape_layout.specs.Plans.{AreStanding, CanAdmit, CanBe, Lead, plan};

use crate::drafts::Draft;
use crate::errors::AdmitErr;
use crate::index_construct::blocks;
use crate::ops::Op;
use crate::standing::{Ends, Standing};
use std::alloc::Global;
use std::collections::VecDeque;
use std::marker::Model;
use tape_types::{Bytes, Limits, NoMemory, Part, Place};

/// The greatest generation.
const LAST_GENERATION: u64 = 1 << 62;

/// Where the next item of each partition goes, and the ops that are admitted and not done yet.
#[derive(Drop)]
pub struct Layout {
    limits: Limits,
    block: u32,
    ends: Ends,
    todo: VecDeque<Standing>,
    flush_due: bool,
    ip_on: bool,
}

impl Model for Layout {
    ghost use Rattle.tape_layout.specs.Ops.{ops_of};
    ghost use Rattle.tape_layout.specs.Plans.{AreKept, Plan, plan};

    ghost Value = { Plan };

    ghost view = { λ a. plan a.limits a.block a.ends (ops_of a.todo.items) a.flush_due a.ip_on };

    ghost invariant = { λ a. AreKept a.limits a.block a.ends a.todo.items };
}

impl Layout {
    /// No ops, on partitions that end so, with blocks of this size. `ip_on` tells whether files may go to the index
    /// partition. Takes no memory.
    pub fn new(
        alloc: Global,
        limits: Limits,
        block: u32,
        end_ip: u64,
        end_dp: u64,
        ip_on: bool,
    ) -> Layout
        requires { CanBe limits block (record { ip = end_ip; dp = end_dp }) }
        ensures { result ≡ plan limits block (record { ip = end_ip; dp = end_dp }) [] false ip_on }
    {
        Layout {
            limits,
            block,
            ends: Ends {
                ip: end_ip,
                dp: end_dp,
            },
            todo: VecDeque::new(alloc),
            flush_due: false,
            ip_on,
        }
    }

    /// Where the next item of the index partition goes, and of the data partition.
    pub fn ends(&self) -> (u64, u64)
        ensures ends { result ≡ record { 0 = self.now.ends.ip; 1 = self.now.ends.dp } }
        ensures standing { AreStanding self.now.limits self.now.block_size self.now.ends self.now.ops }
    {
        (self.ends.ip, self.ends.dp)
    }

    /// How many ops stand.
    pub fn waiting(&self) -> u64
        ensures { result ≡ length self.now.ops }
    {
        self.todo.len() as u64
    }

    /// From now on files may go to the index partition.
    pub fn place_on_ip(&mut self)
        ensures { self.new ≡ record self.old { ip_on = true } }
    {
        self.ip_on = true;
    }

    /// Admits bytes of a file: their blocks go to one run of positions. `ip` tells whether the policy wants the file on
    /// the index partition. Where it may not go there, or doesn't fit, it goes to the data partition.
    pub fn admit_data(&mut self, ip: bool, bytes: &[u8]) -> Result<Place, AdmitErr>
        requires { 1 ≤ length bytes.now }
        ensures { IsAdmitted (data_admission self.old ip bytes.now) self.old self.new result }
    {
        let part = self.part_for(ip, blocks(bytes.len() as u64, self.block));
        self.admit_data_on(part, bytes)
    }

    fn admit_data_on(&mut self, part: Part, bytes: &[u8]) -> Result<Place, AdmitErr>
        requires { 1 ≤ length bytes.now }
        ensures { IsAdmitted (admissions.data_on self.old part bytes.now) self.old self.new result }
    {
        let place = self.place_on(part);
        let need = place.pos + blocks(bytes.len() as u64, self.block);
        let limit = data_limit(self.capacity(part));
        if need > limit {
            return Err(AdmitErr::Full { need, limit });
        }
        let alloc = *self.todo.allocator();
        let mut draft = Draft::new(alloc, self.ends);
        draft.put_all(alloc, place, bytes, self.block)?;
        let flush_due = self.flush_due_after(part);
        self.admit(draft, flush_due)?;
        Ok(place)
    }

    /// Admits the index of a generation on the data partition. What was put on the index partition is flushed before
    /// it.
    pub fn admit_index(&mut self, doc: &[u8], generation: u64) -> Result<Place, AdmitErr>
        requires { 1 ≤ length doc.now }
        ensures { IsAdmitted (index_admission self.old generation doc.now) self.old self.new result }
    {
        if generation > LAST_GENERATION {
            return Err(AdmitErr::Full {
                need: generation,
                limit: LAST_GENERATION,
            });
        }
        let mut first = Draft::new(*self.todo.allocator(), self.ends);
        if self.flush_due {
            first.push(Op::Flush {
                place: Place {
                    part: Part::Ip,
                    pos: self.ends.ip,
                },
            })?;
        }
        self.admit_on(Part::Dp, first, doc)
    }

    /// Admits the index of a close on the index partition.
    pub fn admit_close(&mut self, doc: &[u8]) -> Result<Place, AdmitErr>
        requires { 1 ≤ length doc.now }
        ensures { IsAdmitted (close_admission self.old doc.now) self.old self.new result }
    {
        let first = Draft::new(*self.todo.allocator(), self.ends);
        self.admit_on(Part::Ip, first, doc)
    }

    /// Admits some ops that leave the ends as they are, and behind them an index on a partition.
    fn admit_on(&mut self, part: Part, first: Draft, doc: &[u8]) -> Result<Place, AdmitErr>
        requires doc { 1 ≤ length doc.now }
        requires start { first.start ≡ self.old.ends }
        requires lead { Lead self.old.limits self.old.block_size self.old.ends self.old.ends first.ops }
        ensures { IsAdmitted (admissions.index_on self.old part first.ops doc.now) self.old self.new result }
    {
        let place = self.place_on(part);
        let need = place.pos + 2 + blocks(doc.len() as u64, self.block);
        let limit = self.capacity(part);
        if need > limit {
            return Err(AdmitErr::Full { need, limit });
        }
        let mut draft = first;
        draft.put_index(*self.todo.allocator(), place, doc, self.block)?;
        self.admit(draft, false)?;
        Ok(Place {
            part,
            pos: place.pos + 1,
        })
    }

    /// The bytes that stand to be written at a place. It costs the logarithm of the ops that stand.
    pub fn held(&self, place: Place) -> Option<&Bytes>
        ensures { option_map (λ b. b.now) result ≡ held_in place self.now.ops }
    {
        find(&self.todo, place)
    }

    /// Where the op is done that stands behind so many others.
    pub fn place_behind(&self, others: u64) -> Place
        requires { others < length self.now.ops }
        ensures { option_map place_of (slice_get self.now.ops others) ≡ Some result }
    {
        self.todo[others as usize].op.place()
    }

    /// The op that is to be done next.
    pub fn next_op(&self) -> Option<&Op>
        ensures first { MatchOption result (self.now.ops ≡ []) (λ op. self.now.ops ≡ op.now ∷ drop 1 self.now.ops) }
        ensures room { IfSome result (λ op. HasRoom self.now.limits self.now.block_size op.now) }
    {
        match self.todo.front() {
            Some(standing) => Some(&standing.op),
            None => None,
        }
    }

    /// The first op was done.
    pub fn done_op(&mut self)
        requires { 1 ≤ length self.old.ops }
        ensures { self.new ≡ record self.old { ops = drop 1 self.old.ops } }
    {
        drop(self.todo.pop_front());
    }

    /// Admits ops that were made from the ends on.
    fn admit(&mut self, draft: Draft, flush_due: bool) -> Result<(), NoMemory>
        requires start { draft.start ≡ self.old.ends }
        requires ready { CanAdmit self.old draft.ops }
        ensures ok { OnOk result (self.new ≡ admissions.with_more self.old draft.ops flush_due) }
        ensures err { OnErr result (self.new ≡ self.old) }
    {
        let ends = draft.ends;
        let mut items = draft.items;
        match self.todo.append(&mut items) {
            Ok(()) => {
                self.ends = ends;
                self.flush_due = flush_due;
                Ok(())
            }
            Err(_) => Err(NoMemory),
        }
    }

    /// Where the next item of a partition goes.
    fn place_on(&self, part: Part) -> Place
        ensures place { result ≡ record { part = part; pos = end_of part self.now.ends } }
        ensures small { result.pos ≤ most_positions }
    {
        Place {
            part,
            pos: self.ends.of(part),
        }
    }

    /// Whether a flush is due once a block is put on a partition.
    fn flush_due_after(&self, part: Part) -> bool
        ensures { result ≡ admissions.due_after self.now.flush_due part }
    {
        match part {
            Part::Ip => true,
            Part::Dp => self.flush_due,
        }
    }

    fn capacity(&self, part: Part) -> u64
        ensures { result ≡ capacity part self.now.limits }
    {
        match part {
            Part::Ip => self.limits.cap_ip,
            Part::Dp => self.limits.cap_dp,
        }
    }

    /// The partition to which so many blocks of a file go.
    fn part_for(&self, wanted: bool, count: u64) -> Part
        requires { count < 2 ^ 63 }
        ensures { result ≡ admissions.part_for self.now wanted count }
    {
        if wanted && self.ip_on && self.ends.ip + count <= data_limit(self.limits.cap_ip) {
            Part::Ip
        } else {
            Part::Dp
        }
    }
}

/// How many positions of a partition are for data: the others are reserved for indexes.
fn data_limit(capacity: u64) -> u64
    ensures { result ≡ admissions.data_limit capacity }
{
    capacity.saturating_sub(8 + capacity / 16)
}

/// The bytes that stand to be written at a place.
fn find(todo: &VecDeque<Standing>, place: Place) -> Option<&Bytes>
    ensures { IsHeld place todo.now.items (option_map (λ b. b.now) result) }
{
    match todo.get(first_past(todo, place)) {
        Some(standing) => bytes_at(&standing.op, place),
        None => None,
    }
}

/// The first of the ops behind which its partition reaches past a place.
fn first_past(todo: &VecDeque<Standing>, place: Place) -> usize
    ensures bound { result ≤ length todo.now.items }
    ensures parts { IsFirstPast place todo.now.items result }
{
    todo.partition_point(|standing| standing.ends.of(place.part) <= place.pos)
}

/// The bytes of an op that writes them at a place.
fn bytes_at(op: &Op, place: Place) -> Option<&Bytes>
    ensures { option_map (λ b. b.now) result ≡ held_by place op.now }
{
    match op {
        Op::Put { place: at, bytes } if *at == place => Some(bytes),
        _ => None,
    }
}
