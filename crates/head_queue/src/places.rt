ghost use Rattle.std.specs.Prelude.{◌≡◌};
ghost use Rattle.tape_types.specs.Cartridges.{other};

use crate::chains::Chain;
use crate::entries::{QueueEntry, get, set, widen};
use crate::walks::{last_before, start};
use std::alloc::Global;
use std::marker::Model;
use tape_types::{NoMemory, Part, Place};

/// The requests that wait, in a chain by place and then arrival.
#[derive(Drop)]
pub struct Places {
    entries: Vec<Option<QueueEntry>>,
    chain: Chain,
    /// The number before the one that was taken out last: where a sweep goes on.
    swept: u32,
    /// The number that was put in last: where a read goes on.
    added: u32,
}

impl Model for Places {
    ghost use Rattle.std.specs.Prelude.{◌-◌, map, min, vec_len, vec_capacity};
    ghost use Rattle.head_queue.specs.Waiting.{Waiting};
    ghost use Rattle.head_queue.specs.Orders.{Order};

    ghost Value = { Order };

    ghost use Rattle.head_queue.specs.Entries.{waiting_at};
    ghost use Rattle.head_queue.specs.Kept.{AreKept};

    ghost view = { λ a. record {
      order = map (waiting_at a.entries.items) a.chain.members;
      size = a.chain.size;
      spare = min a.chain.spare (vec_capacity a.entries - vec_len a.entries);
    } };

    ghost invariant = { λ a. AreKept a.entries.items a.chain.members a.chain.size };
}

impl Places {
    ghost use Rattle.std.specs.Prelude.{◌≡◌, ◌≢◌, ℕ, ◌+◌, ◌<◌, ◌≤◌, ◌∷◌, ◌++◌, [], map, length, None, Some, true};
    ghost use Rattle.std.specs.Prelude.{IfNone, IfSome, OnOk};
    ghost use Rattle.std.specs.List.{AllByRecursion};
    ghost use Rattle.head_queue.specs.Cuts.{Differ};
    ghost use Rattle.head_queue.specs.Waiting.{Waiting};
    ghost use Rattle.head_queue.specs.Orders.{Order, IsIn, HasNode, IsMore};
    ghost use Rattle.head_queue.specs.Entries.{waiting};
    ghost use Rattle.head_queue.specs.Ranks.{rank, rank_of};
    ghost use Rattle.head_queue.specs.Kept.{IsFirst, AreOrdered};
    ghost use Rattle.head_queue.specs.Keys.{comes_first, stands_in};

    /// No requests. Takes no memory.
    pub fn new(alloc: Global) -> Places
        ensures order { result.order ≡ [] }
        ensures size { result.size ≡ 0 }
    {
        Places {
            entries: Vec::new(alloc),
            chain: Chain::new(alloc),
            swept: 0,
            added: 0,
        }
    }

    /// Makes room for the next `more` numbers.
    pub fn reserve(&mut self, more: usize) -> Result<(), NoMemory>
        ensures order { self.new.order ≡ self.old.order }
        ensures size { self.new.size ≡ self.old.size }
        ensures room { OnOk result (more ≤ self.new.spare) }
    {
        self.entries.reserve(more)?;
        self.chain.reserve(more)
    }

    /// Makes one more number. Takes no memory.
    pub fn widen(&mut self)
        requires { 1 ≤ self.old.spare }
        ensures order { self.new.order ≡ self.old.order }
        ensures size { self.new.size ≡ self.old.size + 1 }
        ensures room { self.old.spare ≤ self.new.spare + 1 }
    {
        widen(&mut self.entries);
        self.chain.widen();
    }

    pub fn len(&self) -> usize
        ensures { result ≡ length self.now.order }
    {
        self.chain.len()
    }

    /// How many numbers there are.
    pub fn size(&self) -> usize
        ensures { result ≡ self.now.size }
    {
        self.entries.len()
    }

    /// What waits under a number.
    pub fn get(&self, number: u32) -> Option<QueueEntry>
        ensures some { IfSome result (λ e. IsIn self.now.order (waiting number (Some e))) }
        ensures none { IfNone result (AllByRecursion (λ w. w.node ≢ number) self.now.order) }
        ensures differ { Differ (0 ∷ map (λ w. w.node) self.now.order) }
    {
        get(&self.entries, number)
    }

    /// Has a request wait under a number, behind all that stand before its place or at it. Takes no memory.
    pub fn insert(&mut self, number: u32, entry: QueueEntry)
        requires some { 1 ≤ number }
        requires within { number ≤ self.old.size }
        requires apart { AllByRecursion (λ w. w.node ≢ number) self.old.order }
        requires room { length self.old.order < self.old.size }
        requires latest { AllByRecursion (λ w. w.arrival < entry.arrival) self.old.order }
        ensures order { IsMore self.old.order (waiting number (Some entry)) self.new.order }
        ensures size { self.new.size ≡ self.old.size }
        ensures spare { self.new.spare ≡ self.old.spare }
    {
        let from = start(
            &self.entries,
            self.added,
            self.swept,
            entry.place,
            entry.arrival,
        );
        let at = last_before(&self.chain, &self.entries, from, entry.place, entry.arrival);
        set(&mut self.entries, number, Some(entry));
        self.chain.insert(at, number);
        self.added = number;
    }

    /// Takes a request out.
    pub fn remove(&mut self, number: u32)
        requires { HasNode self.old.order number }
        ensures order { (h : HasNode self.old.order number) → self.new.order ≡ h.front ++ h.behind }
        ensures size { self.new.size ≡ self.old.size }
        ensures spare { self.new.spare ≡ self.old.spare }
    {
        self.swept = self.chain.before(number);
        self.chain.remove(number);
        set(&mut self.entries, number, None);
    }

    /// The first request of a place's partition that stands there or past it.
    fn first_from(&self, place: Place) -> Option<(u32, QueueEntry)>
        ensures some { IfSome result (λ p. IsFirst self.now.order (rank_of place 0) (waiting p.0 (Some p.1))) }
        ensures part { IfSome result (λ p. p.1.place.part ≡ place.part) }
        ensures none { IfNone result
            (AllByRecursion (λ w. w.place.part ≡ place.part → rank w < rank_of place 0) self.now.order) }
        ensures kept { AreOrdered self.now.order }
    {
        let from = start(&self.entries, self.swept, self.added, place, 0);
        let at = last_before(&self.chain, &self.entries, from, place, 0);
        let next = self.chain.after(at);
        let Some(entry) = get(&self.entries, next) else {
            return None;
        };
        if entry.place.part == place.part {
            Some((next, entry))
        } else {
            None
        }
    }

    /// The request of a partition that the head serves first, where it stands at a position.
    fn first_in(&self, part: Part, pos: u64) -> Option<(u32, QueueEntry)>
        ensures some { IfSome result (λ p. IsIn self.now.order (waiting p.0 (Some p.1))) }
        ensures part { IfSome result (λ p. p.1.place.part ≡ part) }
        ensures least { IfSome result (λ p. AllByRecursion (λ w. w.place.part ≡ part
            → comes_first pos (waiting p.0 (Some p.1)) w ≡ true) self.now.order) }
        ensures none { IfNone result (AllByRecursion (λ w. w.place.part ≢ part) self.now.order) }
    {
        match self.first_from(Place { part, pos }) {
            Some(first) => Some(first),
            None => self.first_from(Place { part, pos: 0 }),
        }
    }

    /// The request that the head serves first.
    pub fn first(&self, head: Place) -> Option<(u32, QueueEntry)>
        ensures some { IfSome result (λ p. IsIn self.now.order (waiting p.0 (Some p.1))) }
        ensures least { IfSome result
            (λ p. AllByRecursion (λ w. stands_in head (waiting p.0 (Some p.1)) w ≡ true) self.now.order) }
        ensures none { IfNone result (self.now.order ≡ []) }
    {
        match self.first_in(head.part, head.pos) {
            Some(first) => Some(first),
            None => self.first_in(opposite(head.part), head.pos),
        }
    }
}

/// The other partition.
fn opposite(part: Part) -> Part
    ensures { result ≡ other part }
{
    match part {
        Part::Ip => Part::Dp,
        Part::Dp => Part::Ip,
    }
}
