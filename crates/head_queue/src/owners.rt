ghost use Rattle.std.specs.Prelude.{◌≡◌, ℕ, ◌+◌, ◌-◌, ◌≤◌, cond, nat_eq, length, vec_len, vec_capacity};
ghost use Rattle.head_queue.specs.Newest.{lookup, number_or, Ascending, owner_at, holds, left_over};

use crate::chains::Chain;
use crate::newest::{Owned, forget, newest_of, put};
use std::alloc::Global;
use std::marker::Model;
use tape_types::NoMemory;

/// The numbers of each owner, one after the other in one chain, and the newest of each owner.
#[derive(Drop)]
pub struct Owners {
    owners: Vec<u64>,
    chain: Chain,
    newest: Vec<Owned>,
}

impl Model for Owners {
    ghost use Rattle.std.specs.Prelude.{◌-◌, map, min, vec_len, vec_capacity};
    ghost use Rattle.head_queue.specs.Holdings.{Holdings};

    ghost Value = { Holdings };

    ghost use Rattle.head_queue.specs.Newest.{owned_at};
    ghost use Rattle.head_queue.specs.Grouped.{AreGrouped};

    ghost view = { λ a. record {
      pairs = map (owned_at a.owners.items) a.chain.members;
      size = a.chain.size;
      spare = min a.chain.spare (vec_capacity a.owners - vec_len a.owners);
      room = vec_capacity a.newest - vec_len a.newest;
    } };

    ghost invariant = { λ a. AreGrouped a.owners.items a.chain.members a.chain.size a.newest.items };
}

impl Owners {
    ghost use Rattle.std.specs.Prelude.{◌≡◌, ◌≢◌, ℕ, ◌+◌, ◌<◌, ◌≤◌, [], cond, nat_eq, length, None, Some, IfSome};
    ghost use Rattle.std.specs.Prelude.{IfNone, OnOk};
    ghost use Rattle.head_queue.specs.Holdings.{owner_of};

    /// No numbers. Takes no memory.
    pub fn new(alloc: Global) -> Owners
        ensures pairs { result.pairs ≡ [] }
        ensures size { result.size ≡ 0 }
    {
        Owners {
            owners: Vec::new(alloc),
            chain: Chain::new(alloc),
            newest: Vec::new(alloc),
        }
    }

    /// Makes room for the next `more` numbers, and for as many owners more as `all`.
    pub fn reserve(&mut self, more: usize, all: usize) -> Result<(), NoMemory>
        ensures pairs { self.new.pairs ≡ self.old.pairs }
        ensures size { self.new.size ≡ self.old.size }
        ensures spare { OnOk result (more ≤ self.new.spare) }
        ensures room { OnOk result (all ≤ self.new.room) }
    {
        self.owners.reserve(more)?;
        self.newest.reserve(all)?;
        self.chain.reserve(more)
    }

    /// Makes one more number. Takes no memory.
    pub fn widen(&mut self)
        requires { 1 ≤ self.old.spare }
        ensures pairs { self.new.pairs ≡ self.old.pairs }
        ensures size { self.new.size ≡ self.old.size + 1 }
        ensures spare { self.old.spare ≤ self.new.spare + 1 }
        ensures room { self.new.room ≡ self.old.room }
    {
        widen(&mut self.owners);
        self.chain.widen();
    }

    /// The newest number of an owner.
    pub fn newest(&self, owner: u64) -> Option<u32>
        ensures some { IfSome result (λ k. owner_of k self.now.pairs ≡ Some owner) }
        ensures none { IfNone result ((k : ℕ) → owner_of k self.now.pairs ≢ Some owner) }
    {
        newest_of(&self.newest, owner)
    }

    /// Gives an owner a number. Takes no memory.
    pub fn add(&mut self, owner: u64, number: u32)
        requires some { 1 ≤ number }
        requires within { number ≤ self.old.size }
        requires apart { owner_of number self.old.pairs ≡ None }
        requires less { length self.old.pairs < self.old.size }
        requires room { 1 ≤ self.old.room }
        ensures pairs { (k : ℕ)
            → owner_of k self.new.pairs ≡ cond (nat_eq k number) (Some owner) (owner_of k self.old.pairs) }
        ensures len { length self.new.pairs ≡ length self.old.pairs + 1 }
        ensures size { self.new.size ≡ self.old.size }
        ensures room { self.old.room ≤ self.new.room + 1 }
    {
        let at = last_number(&self.newest, owner);
        set(&mut self.owners, number, owner);
        self.chain.insert(at, number);
        put(&mut self.newest, owner, number);
    }

    /// Takes an owner's number away.
    pub fn remove(&mut self, owner: u64, number: u32)
        requires { owner_of number self.old.pairs ≡ Some owner }
        ensures pairs { (k : ℕ) → owner_of k self.new.pairs ≡ cond (nat_eq k number) None (owner_of k self.old.pairs) }
        ensures len { length self.new.pairs + 1 ≡ length self.old.pairs }
        ensures size { self.new.size ≡ self.old.size }
        ensures room { self.old.room ≤ self.new.room }
    {
        let before = self.chain.before(number);
        self.chain.remove(number);
        let held = is_held(&self.owners, before, owner);
        pass_on(&mut self.newest, owner, number, before, held);
    }
}

/// Has an owner own a number.
fn set(owners: &mut Vec<u64>, number: u32, owner: u64)
    requires some { 1 ≤ number }
    requires within { number ≤ vec_len owners.old }
    ensures owners { (k : ℕ)
        → owner_at owners.new.items k ≡ cond (nat_eq k number) owner (owner_at owners.old.items k) }
    ensures len { vec_len owners.new ≡ vec_len owners.old }
    ensures capacity { vec_capacity owners.new ≡ vec_capacity owners.old }
{
    owners[number as usize - 1] = owner;
}

/// Makes one more number. Takes no memory.
fn widen(owners: &mut Vec<u64>)
    requires { 1 ≤ vec_capacity owners.old - vec_len owners.old }
    ensures owners { (k : ℕ) → owner_at owners.new.items k ≡ owner_at owners.old.items k }
    ensures len { vec_len owners.new ≡ vec_len owners.old + 1 }
    ensures capacity { vec_capacity owners.old ≤ vec_capacity owners.new }
{
    if owners.push(0).is_err() {
        unreachable!();
    }
}

/// The newest number of an owner, or 0.
fn last_number(newest: &[Owned], owner: u64) -> u32
    requires { Ascending newest.now }
    ensures { result ≡ number_or (lookup owner newest.now) }
{
    match newest_of(newest, owner) {
        Some(number) => number,
        None => 0,
    }
}

/// Whether a number, if it isn't 0, is an owner's.
fn is_held(owners: &[u64], number: u32, owner: u64) -> bool
    requires { number ≤ length owners.now }
    ensures { result ≡ holds owners.now number owner }
{
    number != 0 && owner == owners[number as usize - 1]
}

/// Where a number was the newest of its owner, makes the one before it the newest, if that is the same owner's.
fn pass_on(newest: &mut Vec<Owned>, owner: u64, number: u32, before: u32, held: bool)
    requires order { Ascending newest.old.items }
    ensures told { (p : ℕ) → lookup p newest.new.items
        ≡ cond (nat_eq p owner) (left_over (lookup owner newest.old.items) number held before)
        (lookup p newest.old.items) }
    ensures order { Ascending newest.new.items }
    ensures len { vec_len newest.new ≤ vec_len newest.old }
    ensures capacity { vec_capacity newest.old ≤ vec_capacity newest.new }
{
    let Some(last) = newest_of(newest, owner) else {
        return;
    };
    if last != number {
        return;
    }
    if held {
        put(newest, owner, before);
    } else {
        forget(newest, owner);
    }
}
