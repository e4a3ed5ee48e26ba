ghost use Rattle.std.specs.Prelude.{◌≡◌, ℕ, ◌+◌, ◌^◌, ◌<◌, ◌≤◌, ◌∷◌, ◌++◌, [], vec_len, vec_capacity};
ghost use Rattle.head_queue.specs.EventLaws.Waiting.{as_number, key, same_part};
ghost use Rattle.head_queue.specs.Keys.{is_upto};
ghost use Rattle.head_queue.specs.Ready.{AreReady};

use crate::entries::QueueEntry;
use crate::owners::Owners;
use crate::places::Places;
use crate::steps::Steps;
use std::alloc::Global;
use std::marker::Model;
use std::sync::ledger::Ledger;
use tape_types::{NoMemory, Part, Place};

/// What the head serves next.
#[derive(Clone, Copy, Debug, PartialEq, Eq)]
pub enum Pick {
    /// The op that waits.
    Op,
    /// A request: its number in the queue, whose it is, and where its block stands.
    Request { node: u32, owner: u64, place: Place },
}

/// The requests that wait for the head, each under a number of its own, from 1 on.
#[derive(Drop)]
pub struct Queue {
    places: Places,
    owners: Owners,
    free: Vec<u32>,
    arrived: u64,
}

impl Model for Queue {
    ghost use Rattle.std.specs.Prelude.{◌-◌, ◌^◌, min, vec_len, vec_capacity};
    ghost use Rattle.head_queue.specs.Queued.{Queued, by_arrival};
    ghost use Rattle.head_queue.specs.Ready.{AreReady};

    ghost Value = { Queued };

    ghost view = { λ a. record {
      waiting = by_arrival a.places.order;
      arrived = a.arrived;
      spare = min (vec_len a.free) (min a.owners.room (2 ^ 64 - 1 - a.arrived));
    } };

    ghost invariant = { λ a. AreReady a.places.order a.places.size a.owners.pairs a.owners.size a.free.items a.arrived
        (vec_capacity a.free) };
}

impl Queue {
    ghost use Rattle.std.specs.Prelude.{◌≡◌, ◌≢◌, ℕ, ◌+◌, ◌^◌, ◌<◌, ◌≤◌, ◌∷◌, ◌++◌, [], not, nat_eq, length, filter};
    ghost use Rattle.std.specs.Prelude.{count_by, None, IfSome, IfNone, OnOk, MatchOption};
    ghost use Rattle.std.specs.List.{AllByRecursion, list_any};
    ghost use Rattle.head_queue.specs.Waiting.{Waiting};
    ghost use Rattle.head_queue.specs.Orders.{HasNode, HasOwner};
    ghost use Rattle.head_queue.specs.Picks.{IsPick};

    /// No requests. Takes no memory.
    pub fn new(alloc: Global) -> Queue
        ensures waiting { result.waiting ≡ [] }
        ensures arrived { result.arrived ≡ 0 }
    {
        Queue {
            places: Places::new(alloc),
            owners: Owners::new(alloc),
            free: Vec::new(alloc),
            arrived: 0,
        }
    }

    /// How many requests wait.
    pub fn len(&self) -> usize
        ensures { result ≡ length self.now.waiting }
    {
        self.places.len()
    }

    /// Makes room for `n` requests more.
    pub fn reserve(&mut self, n: u32) -> Result<(), NoMemory>
        requires { length self.old.waiting + n < 2 ^ 32 }
        ensures waiting { self.new.waiting ≡ self.old.waiting }
        ensures arrived { self.new.arrived ≡ self.old.arrived }
        ensures room { OnOk result (n ≤ self.new.spare) }
    {
        if u64::from(n) >= u64::MAX - self.arrived {
            return Err(NoMemory);
        }
        let more = (n as usize).saturating_sub(self.free.len());
        self.places.reserve(more)?;
        self.owners.reserve(more, n as usize)?;
        self.free.reserve(self.places.len() + more)?;
        widen(&mut self.places, &mut self.owners, &mut self.free, more);
        Ok(())
    }

    /// Has an owner's request for a block wait, and answers its number. Takes no memory.
    pub fn add(&mut self, owner: u64, place: Place) -> u32
        requires { 1 ≤ self.old.spare }
        ensures waiting { self.new.waiting ≡ self.old.waiting
            ++ record { node = result; owner = owner; place = place; arrival = self.old.arrived } ∷ [] }
        ensures arrived { self.new.arrived ≡ self.old.arrived + 1 }
        ensures node { AllByRecursion (λ w. w.node ≢ result) self.old.waiting }
        ensures spare { self.old.spare ≤ self.new.spare + 1 }
    {
        let Some(node) = self.free.pop() else {
            unreachable!();
        };
        let entry = QueueEntry {
            owner,
            place,
            arrival: self.arrived,
        };
        self.places.insert(node, entry);
        self.owners.add(owner, node);
        self.arrived += 1;
        node
    }

    /// What the head serves next at a place: of the op, where one waits, and the requests, that with the least key.
    pub fn pick(&self, head: Place, op: Option<Place>) -> Option<Pick>
        ensures { MatchOption result ((op ≡ None) × (self.now.waiting ≡ [])) (IsPick head op self.now.waiting) }
    {
        match self.places.first(head) {
            Some((node, entry)) => match op {
                Some(at) if is_first(head, at, entry.place, entry.arrival) => Some(Pick::Op),
                _ => Some(Pick::Request {
                    node,
                    owner: entry.owner,
                    place: entry.place,
                }),
            },
            None => match op {
                Some(_) => Some(Pick::Op),
                None => None,
            },
        }
    }

    /// Whether a request of an owner waits.
    #[tactic(auto, using(crate::proofs::ReadyLemmas::any_owner))]
    pub fn waits(&self, owner: u64) -> bool
        ensures { result ≡ list_any (λ w. nat_eq w.owner owner) self.now.waiting }
    {
        match self.newest(owner) {
            Some(_) => true,
            None => false,
        }
    }

    /// Takes a request out.
    pub fn remove(&mut self, node: u32)
        requires { HasNode self.old.waiting node }
        ensures waiting { (h : HasNode self.old.waiting node) → self.new.waiting ≡ h.front ++ h.behind }
        ensures arrived { self.new.arrived ≡ self.old.arrived }
        ensures spare { self.old.spare ≤ self.new.spare }
    {
        let Some(entry) = self.places.get(node) else {
            unreachable!();
        };
        self.places.remove(node);
        self.owners.remove(entry.owner, node);
        if self.free.push(node).is_err() {
            unreachable!();
        }
    }

    /// Takes out all requests of an owner, each in one step, and visits no others.
    pub fn remove_owner<L: Ledger>(&mut self, owner: u64, steps: &mut Steps<L>)
        ensures waiting { self.new.waiting ≡ filter (λ w. not (nat_eq w.owner owner)) self.old.waiting }
        ensures steps { steps.new ≡ steps.old + count_by (λ w. nat_eq w.owner owner) self.old.waiting }
        ensures arrived { self.new.arrived ≡ self.old.arrived }
        ensures spare { self.old.spare ≤ self.new.spare }
    {
        while let Some(node) = self.newest(owner) {
            self.remove(node);
            steps.take();
        }
    }

    /// The newest request of an owner.
    fn newest(&self, owner: u64) -> Option<u32>
        ensures some { IfSome result (HasOwner self.now.waiting owner) }
        ensures none { IfNone result (AllByRecursion (λ w. w.owner ≢ owner) self.now.waiting) }
    {
        self.owners.newest(owner)
    }
}

/// Whether an op is served before a request that came behind so many.
fn is_first(head: Place, op: Place, request: Place, arrival: u64) -> bool
    ensures { result ≡ is_upto (key head op 0) (key head request (arrival + 1)) }
{
    if op.part != request.part {
        return op.part == head.part;
    }
    let below = request.pos < head.pos;
    if (op.pos < head.pos) != below {
        return below;
    }
    op.pos <= request.pos
}

/// Makes so many more numbers, which are free. Takes no memory.
fn widen(places: &mut Places, owners: &mut Owners, free: &mut Vec<u32>, more: usize)
    requires places { more ≤ places.old.spare }
    requires owners { more ≤ owners.old.spare }
    requires less { vec_len free.old ≤ places.old.size }
    requires room { places.old.size + more ≤ vec_capacity free.old }
    requires fits { 1 ≤ more → places.old.size + more < 2 ^ 32 }
    ensures order { places.new.order ≡ places.old.order }
    ensures pairs { owners.new.pairs ≡ owners.old.pairs }
    ensures room { owners.new.room ≡ owners.old.room }
    ensures len { vec_len free.new ≡ vec_len free.old + more }
    ensures ready { (arrived : ℕ)
        → AreReady places.old.order places.old.size owners.old.pairs owners.old.size free.old.items arrived
        (vec_capacity free.old)
        → AreReady places.new.order places.new.size owners.new.pairs owners.new.size free.new.items arrived
        (vec_capacity free.new) }
{
    for _ in 0..more {
        widen_once(places, owners, free);
    }
}

/// Makes one more number, which is free. Takes no memory.
fn widen_once(places: &mut Places, owners: &mut Owners, free: &mut Vec<u32>)
    requires places { 1 ≤ places.old.spare }
    requires owners { 1 ≤ owners.old.spare }
    requires less { vec_len free.old ≤ places.old.size }
    requires room { places.old.size + 1 ≤ vec_capacity free.old }
    requires fits { places.old.size + 1 < 2 ^ 32 }
    ensures order { places.new.order ≡ places.old.order }
    ensures size { places.new.size ≡ places.old.size + 1 }
    ensures spare { places.old.spare ≤ places.new.spare + 1 }
    ensures pairs { owners.new.pairs ≡ owners.old.pairs }
    ensures wide { owners.new.size ≡ owners.old.size + 1 }
    ensures more { owners.old.spare ≤ owners.new.spare + 1 }
    ensures room { owners.new.room ≡ owners.old.room }
    ensures free { free.new.items ≡ free.old.items ++ (places.old.size + 1) ∷ [] }
    ensures len { vec_len free.new ≡ vec_len free.old + 1 }
    ensures capacity { vec_capacity free.old ≤ vec_capacity free.new }
{
    places.widen();
    owners.widen();
    if free.push(places.size() as u32).is_err() {
        unreachable!();
    }
}
