use crate::links::{Link, number_after, number_before, set_after, set_before, widen};
use std::alloc::Global;
use std::marker::Model;
use tape_types::NoMemory;

/// Some of the numbers from 1 on, each once and in an order, linked in both directions.
#[derive(Drop)]
pub struct Chain {
    /// The last number and the first.
    ends: Link,
    links: Vec<Link>,
    count: usize,
}

impl Model for Chain {
    ghost use Rattle.std.specs.Prelude.{◌-◌, vec_len, vec_capacity};
    ghost use Rattle.head_queue.specs.Links.{after_of, before_of};
    ghost use Rattle.head_queue.specs.Rings.{Ring, IsRing, met_from};

    ghost Value = { Ring };

    ghost view = { λ a. record {
      members = met_from (after_of a.ends a.links.items) a.count (after_of a.ends a.links.items 0);
      size = vec_len a.links;
      spare = vec_capacity a.links - vec_len a.links;
    } };

    ghost invariant = { λ a. IsRing (after_of a.ends a.links.items) (before_of a.ends a.links.items) (vec_len a.links)
        (met_from (after_of a.ends a.links.items) a.count (after_of a.ends a.links.items 0)) a.count };
}

impl Chain {
    ghost use Rattle.std.specs.Prelude.{◌≡◌, ℕ, ◌+◌, ◌-◌, ◌<◌, ◌≤◌, ◌∷◌, ◌++◌, [], length, OnOk};
    ghost use Rattle.head_queue.specs.Cuts.{IsCut, IsMember, Misses, Differ, first_of, last_of};

    /// A chain of no numbers. Takes no memory.
    pub fn new(alloc: Global) -> Chain
        ensures members { result.members ≡ [] }
        ensures size { result.size ≡ 0 }
    {
        Chain {
            ends: Link {
                before: 0,
                after: 0,
            },
            links: Vec::new(alloc),
            count: 0,
        }
    }

    /// Makes room for the next `more` numbers.
    pub fn reserve(&mut self, more: usize) -> Result<(), NoMemory>
        ensures members { self.new.members ≡ self.old.members }
        ensures size { self.new.size ≡ self.old.size }
        ensures room { OnOk result (more ≤ self.new.spare) }
    {
        Ok(self.links.reserve(more)?)
    }

    /// Lets the chain have one more number. Takes no memory.
    pub fn widen(&mut self)
        requires { 1 ≤ self.old.spare }
        ensures members { self.new.members ≡ self.old.members }
        ensures size { self.new.size ≡ self.old.size + 1 }
        ensures room { self.old.spare ≤ self.new.spare + 1 }
    {
        widen(&mut self.links);
    }

    /// How many numbers the chain has.
    pub fn len(&self) -> usize
        ensures { result ≡ length self.now.members }
    {
        self.count
    }

    /// The number after a number, or the first one after 0; 0 at the end.
    pub fn after(&self, at: u32) -> u32
        requires { IsCut self.now.members at }
        ensures { (c : IsCut self.now.members at) → result ≡ first_of 0 c.behind }
    {
        number_after(&self.ends, &self.links, at)
    }

    /// The number before a number, or 0.
    pub fn before(&self, number: u32) -> u32
        requires { IsMember self.now.members number }
        ensures { (m : IsMember self.now.members number) → result ≡ last_of 0 m.front }
    {
        number_before(&self.ends, &self.links, number)
    }

    /// Puts a number after another, or before all after 0. Takes no memory.
    pub fn insert(&mut self, at: u32, number: u32)
        requires on { IsCut self.old.members at }
        requires apart { Misses number (0 ∷ self.old.members) }
        requires within { number ≤ self.old.size }
        requires room { length self.old.members < self.old.size }
        ensures members { (c : IsCut self.old.members at) → self.new.members ≡ c.front ++ number ∷ c.behind }
        ensures size { self.new.size ≡ self.old.size }
        ensures spare { self.new.spare ≡ self.old.spare }
    {
        let next = number_after(&self.ends, &self.links, at);
        set_after(&mut self.ends, &mut self.links, at, number);
        set_after(&mut self.ends, &mut self.links, number, next);
        set_before(&mut self.ends, &mut self.links, number, at);
        set_before(&mut self.ends, &mut self.links, next, number);
        self.count += 1;
    }

    /// Takes a number out.
    pub fn remove(&mut self, number: u32)
        requires { IsMember self.old.members number }
        ensures members { (m : IsMember self.old.members number) → self.new.members ≡ m.front ++ m.behind }
        ensures size { self.new.size ≡ self.old.size }
        ensures spare { self.new.spare ≡ self.old.spare }
    {
        let at = number_before(&self.ends, &self.links, number);
        let next = number_after(&self.ends, &self.links, number);
        set_after(&mut self.ends, &mut self.links, at, next);
        set_before(&mut self.ends, &mut self.links, next, at);
        self.count -= 1;
    }
}
