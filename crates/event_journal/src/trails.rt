//! The events of a served volume, and who waits.

ghost use Rattle.std.specs.Prelude.{◌≡◌, ◌+◌, ◌-◌, ◌≤◌, ◌<◌, ◌*◌, ◌^◌, vec_len, vec_capacity, drop, filter, map};
ghost use Rattle.std.specs.Prelude.{not, ◌==◌, [], ◌∷◌, ◌++◌, length, true, false, OnOk, IfSome, None, Some, Option};
ghost use Rattle.std.specs.Prelude.{option_map, MatchOption};
ghost use Rattle.session_script.specs.declared.logs.Event.TheVariants as events;
ghost use Rattle.head_queue.specs.EventLaws.Waiting.{first_of, ops};
ghost use Rattle.head_queue.specs.EventLaws.Trail.{IsTrail, after, allows};
ghost use Rattle.promises.specs.ServingPromise.Faults.{kept_for};
ghost use Rattle.promises.specs.ServingPromise.Steps.{without_session};
ghost use Rattle.event_journal.specs.Trails.{Journaled, acks_of, asked_by, drains_left, due_ticket, first_waiter};
ghost use Rattle.event_journal.specs.Trails.{kept_as, kept_from, kept_of, moves_waiters, state, waiters_of};

use crate::lists::push;
use session_script::{Ack, Event};
use std::alloc::Global;
use std::marker::Model;
use tape_types::{List, NoMemory, Part, Place, Twin};

/// A sync that waits until so many ops are done, counted from the first of all.
#[derive(Clone, Copy)]
pub struct SyncWait {
    pub ticket: u64,
    pub due: u64,
}

/// Who waits for ops.
#[derive(Clone, Copy, Debug, PartialEq, Eq)]
pub enum Waiter {
    /// The sync that was placed here.
    Sync(u64),
    /// A session that drains.
    Drain(u16),
}

/// A fault that is kept for a session that drained.
#[derive(Clone, Copy)]
pub struct KeptFault {
    pub who: u16,
    pub counts: Twin,
}

/// The events that have come, the syncs that were acknowledged, the faults that are kept for sessions that drained,
/// and what the events leave: where the head stands, who waits, and how many ops were queued and done.
#[derive(Drop)]
pub struct Trail {
    events: Vec<Event>,
    acks: Vec<Ack>,
    kept: Vec<KeptFault>,
    syncs: Vec<SyncWait>,
    drains: Vec<u16>,
    queued: u64,
    done: u64,
    head: Place,
    bound: usize,
}

impl Model for Trail {
    ghost use Rattle.std.specs.Prelude.{◌-◌, map, min, vec_len, vec_capacity};
    ghost use Rattle.event_journal.specs.Trails.{IsTracked, Journaled, kept_as};

    ghost Value = { Journaled };

    ghost view = { λ a. record {
      events = a.events.items;
      acks = a.acks.items;
      kept = map kept_as a.kept.items;
      spare = vec_capacity a.events - vec_len a.events - a.bound;
      waiters = min
          (min (vec_capacity a.syncs - vec_len a.syncs) (vec_capacity a.acks - vec_len a.acks - vec_len a.syncs))
          (min (vec_capacity a.drains - vec_len a.drains) (vec_capacity a.kept - vec_len a.kept - vec_len a.drains));
    } };

    ghost invariant = { λ a. IsTracked a.events.items a.syncs.items a.drains.items a.queued a.done a.head a.bound
        (vec_capacity a.events - vec_len a.events) (vec_capacity a.acks - vec_len a.acks)
        (vec_capacity a.kept - vec_len a.kept) };
}

impl Trail {
    /// No event has come. Takes no memory.
    pub fn new(alloc: Global) -> Trail
        ensures events { result.events ≡ [] }
        ensures acks { result.acks ≡ [] }
        ensures kept { result.kept ≡ [] }
    {
        Trail {
            events: Vec::new(alloc),
            acks: Vec::new(alloc),
            kept: Vec::new(alloc),
            syncs: Vec::new(alloc),
            drains: Vec::new(alloc),
            queued: 0,
            done: 0,
            head: Place {
                part: Part::Ip,
                pos: 0,
            },
            bound: 0,
        }
    }

    /// The events and the acknowledgements.
    pub fn into_lists(self) -> (List<Event>, List<Ack>)
        ensures events { result.0 ≡ self.events }
        ensures acks { result.1 ≡ self.acks }
    {
        let Trail { events, acks, .. } = self;
        (List::from_vec(events), List::from_vec(acks))
    }

    /// Makes room for so many more requests, ops and waiters, for all events that they bring, and for one more that
    /// waits.
    pub fn reserve(&mut self, more: usize) -> Result<(), NoMemory>
        ensures events { self.new.events ≡ self.old.events }
        ensures acks { self.new.acks ≡ self.old.acks }
        ensures kept { self.new.kept ≡ self.old.kept }
        ensures spare { OnOk result (2 * more ≤ self.new.spare) }
        ensures waiters { OnOk result (1 ≤ self.new.waiters) }
    {
        let Some(room) = more.checked_mul(2).and_then(|n| n.checked_add(self.bound)) else {
            return Err(NoMemory);
        };
        self.events.reserve(room)?;
        self.syncs.reserve(1)?;
        self.drains.reserve(1)?;
        self.acks.reserve(self.syncs.len() + 1)?;
        self.kept.reserve(self.drains.len() + 1)?;
        Ok(())
    }

    /// Where the head stands. The events are a trail.
    pub fn head(&self) -> Place
        ensures head { result ≡ (state self.now).head }
        ensures trail { IsTrail self.now.events }
    {
        self.head
    }

    /// Who has waited longest: a sync before each session.
    pub fn first_waiter(&self) -> Option<Waiter>
        ensures { result ≡ first_waiter (state self.now) }
    {
        match self.syncs.first() {
            Some(sync) => Some(Waiter::Sync(sync.ticket)),
            None => self.drains.first().map(|who| Waiter::Drain(*who)),
        }
    }

    /// The sync that has waited longest, where it has no more to wait for. Then its answer may come.
    #[tactic(auto, using(crate::proofs::TrailLemmas::due_may_come))]
    pub fn due(&self) -> Option<u64>
        ensures due { result ≡ due_ticket (state self.now) }
        ensures may { IfSome result (λ ticket. allows (state self.now) (events.Synced ticket) ≡ true) }
    {
        let sync = self.syncs.first()?;
        if sync.due <= self.done {
            Some(sync.ticket)
        } else {
            None
        }
    }

    /// The fault that is kept for a session.
    pub fn kept_fault(&self, who: u16) -> Option<Twin>
        ensures { result ≡ first_of (kept_for who self.now.kept) }
    {
        fault_for(&self.kept, who)
    }

    /// The fault that is kept for a session, which is taken.
    pub fn take_kept(&mut self, who: u16) -> Option<Twin>
        ensures events { self.new.events ≡ self.old.events }
        ensures acks { self.new.acks ≡ self.old.acks }
        ensures kept { self.new.kept ≡ without_session who self.old.kept }
        ensures result { result ≡ first_of (kept_for who self.old.kept) }
        ensures spare { self.old.spare ≡ self.new.spare }
    {
        let found = fault_for(&self.kept, who);
        forget_faults(&mut self.kept, who);
        found
    }

    /// Writes down an event that may come, behind which the head stands here. An acknowledgement bears this number of
    /// commands.
    pub fn write(&mut self, event: Event, head: Place, commands: u64)
        requires allowed { allows (state self.old) event ≡ true }
        requires head { head ≡ (after (state self.old) event).head }
        requires room { 2 * asked_by event ≤ self.old.spare }
        requires waiter { waiters_of event ≤ self.old.waiters }
        ensures events { self.new.events ≡ self.old.events ++ event ∷ [] }
        ensures acks { self.new.acks ≡ self.old.acks ++ acks_of commands event }
        ensures kept { self.new.kept ≡ self.old.kept ++ kept_of (state self.old) event }
        ensures spare { self.old.spare ≤ self.new.spare + 2 * asked_by event }
        ensures waiters { moves_waiters event ≡ false → self.new.waiters ≡ self.old.waiters }
    {
        self.bound = bound_behind(self.bound, event);
        match event {
            Event::Wants { .. } => (),
            Event::Queues { .. } => self.queued += 1,
            Event::Syncs { ticket } => {
                let due = self.queued;
                push(&mut self.syncs, SyncWait { ticket, due });
            }
            Event::Synced { ticket } => {
                forget_sync(&mut self.syncs, ticket);
                acknowledge(&mut self.acks, ticket, commands);
            }
            Event::Drains { who } => push(&mut self.drains, who),
            Event::Rests { who } => forget_drain(&mut self.drains, who),
            Event::Served { .. } => (),
            Event::Worked { fault: None, .. } => self.done += 1,
            Event::Worked {
                fault: Some(counts),
                ..
            } => forget_first(&mut self.syncs, &mut self.drains, &mut self.kept, counts),
        }
        push(&mut self.events, event);
        self.head = head;
    }
}

/// The bound on what there is to do, once the event has come.
fn bound_behind(bound: usize, event: Event) -> usize
    requires some { 1 ≤ bound + 2 * asked_by event }
    requires fits { bound + 2 * asked_by event < 2 ^ 64 }
    ensures { result + 1 ≡ bound + 2 * asked_by event }
{
    match event {
        Event::Wants { .. } => bound + 1,
        Event::Queues { .. } => bound + 1,
        Event::Syncs { .. } => bound + 1,
        Event::Drains { .. } => bound + 1,
        _ => bound - 1,
    }
}

/// The sync is acknowledged at this number of commands.
fn acknowledge(acks: &mut Vec<Ack>, place: u64, commands: u64)
    requires { vec_len acks.old < vec_capacity acks.old }
    ensures items { acks.new.items ≡ acks.old.items ++ record { place = place; command = commands } ∷ [] }
    ensures capacity { vec_capacity acks.old ≤ vec_capacity acks.new }
{
    let ack = Ack {
        place,
        command: commands,
    };
    push(acks, ack);
}

/// The sync waits no more.
fn forget_sync(syncs: &mut Vec<SyncWait>, ticket: u64)
    ensures left { syncs.new.items ≡ filter (λ s. not (s.ticket == ticket)) syncs.old.items }
    ensures capacity { vec_capacity syncs.old ≤ vec_capacity syncs.new }
{
    syncs.retain(|sync| sync.ticket != ticket);
}

/// The session drains no more.
fn forget_drain(drains: &mut Vec<u16>, who: u16)
    ensures left { drains.new.items ≡ filter (λ w. not (w == who)) drains.old.items }
    ensures capacity { vec_capacity drains.old ≤ vec_capacity drains.new }
{
    drains.retain(|waiting| *waiting != who);
}

/// No fault is kept for the session any more.
fn forget_faults(kept: &mut Vec<KeptFault>, who: u16)
    ensures left { kept.new.items ≡ filter (λ k. not (k.who == who)) kept.old.items }
    ensures len { vec_len kept.new ≤ vec_len kept.old }
    ensures capacity { vec_capacity kept.old ≤ vec_capacity kept.new }
{
    kept.retain(|fault| fault.who != who);
}

/// The fault that is kept for a session.
fn fault_for(kept: &[KeptFault], who: u16) -> Option<Twin>
    ensures { result ≡ first_of (kept_for who (map kept_as kept.now)) }
{
    for fault in kept {
        if fault.who == who {
            return Some(fault.counts);
        }
    }
    None
}

/// Who has waited longest waits no more: a sync, or else a session that drains, for which the fault is kept.
fn forget_first(
    syncs: &mut Vec<SyncWait>,
    drains: &mut Vec<u16>,
    kept: &mut Vec<KeptFault>,
    counts: Twin,
)
    requires { length drains.old.items ≤ vec_capacity kept.old - vec_len kept.old }
    ensures syncs { syncs.new.items ≡ drop 1 syncs.old.items }
    ensures drains { drains.new.items ≡ drains_left syncs.old.items drains.old.items }
    ensures kept { map kept_as kept.new.items ≡ map kept_as kept.old.items
        ++ kept_from syncs.old.items drains.old.items counts }
    ensures capacity { vec_capacity kept.old ≤ vec_capacity kept.new }
{
    if !syncs.is_empty() {
        let _gone = syncs.remove(0);
    } else if !drains.is_empty() {
        let who = drains.remove(0);
        push(kept, KeptFault { who, counts });
    }
}
