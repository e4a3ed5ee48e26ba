//! What the steps of a head have cost.

ghost use Rattle.std.specs.Prelude.{◌≡◌, ◌<◌, ◌≤◌, ◌+◌, ◌-◌, ◌∷◌, ◌++◌, [], ◌^◌, min, length, take, true, None};
ghost use Rattle.session_script.specs.declared.logs.Event.TheVariants as the_events;
ghost use Rattle.head_queue.specs.EventLaws.Trail.{IsTrail, after_all, allows};
ghost use Rattle.volume_core.specs.Costs.{AreCosts, Goes, IsWalked, apart, is_last, is_queued, stand, to_op};

use session_script::Event;
use tape_types::{List, Part, Place};

/// How many steps a head made, and how many positions it went, each up to 2^64 - 1.
#[derive(Clone, Copy)]
pub struct Costs {
    pub steps: u64,
    pub travel: u64,
}

/// What these events have cost, which are a trail.
pub fn costs_of(events: &List<Event>) -> Costs
    requires { IsTrail events.now }
    ensures { AreCosts events.now result.steps result.travel }
{
    let events = events.as_slice();
    let mut walk = Walk {
        first: 0,
        pos: 0,
        past: false,
        steps: 0,
        travel: 0,
    };
    for at in 0..events.len() {
        walk.meet(events, at);
    }
    Costs {
        steps: walk.steps,
        travel: walk.travel,
    }
}

/// A walk along the events: how many there are up to the last op that was done, at which position the head stands, or
/// past which, and what the steps have cost.
#[derive(Clone, Copy)]
struct Walk {
    first: usize,
    pos: u64,
    past: bool,
    steps: u64,
    travel: u64,
}

impl Walk {
    /// Meets the next event.
    fn meet(&mut self, events: &[Event], at: usize)
        requires trail { IsTrail events.now }
        requires there { at < length events.now }
        requires walked { IsWalked (take at events.now) self.old }
        ensures { IsWalked (take (at + 1) events.now) self.new }
    {
        match events[at] {
            Event::Served { place, fault, .. } => self.go(place.pos, fault.is_none()),
            Event::Worked { place, fault } => match fault {
                Some(_) => self.go(place.pos, false),
                None => self.take_op(events, at, place),
            },
            _ => (),
        }
    }

    /// The first op was done, which stands at a place.
    fn take_op(&mut self, events: &[Event], at: usize, place: Place)
        requires there { at ≤ length events.now }
        requires walked { IsWalked (take at events.now) self.old }
        requires allowed { allows (after_all (take at events.now)) (the_events.Worked place None) ≡ true }
        ensures { IsWalked (take at events.now ++ the_events.Worked place None ∷ []) self.new }
    {
        let taken = to_op(&events[self.first..at]);
        let flush = is_last(place.part, &events[self.first + taken..at]);
        self.first += taken;
        self.go(place.pos, !flush);
    }

    /// The head makes a step to a position, and stands there, or past it.
    fn go(&mut self, to: u64, past: bool)
        ensures { Goes to past self.old self.new }
    {
        self.steps = self.steps.saturating_add(1);
        self.travel = self.travel.saturating_add(self.distance(to));
        self.pos = to;
        self.past = past;
    }

    /// How many positions lie between where the head stands and another one.
    fn distance(&self, to: u64) -> u64
        ensures { result ≡ min (apart (stand self.now.pos self.now.past) to) (2 ^ 64 - 1) }
    {
        if !self.past {
            self.pos.abs_diff(to)
        } else if self.pos < to {
            to - self.pos - 1
        } else {
            (self.pos - to).saturating_add(1)
        }
    }
}

/// How many events there are up to the first op that is queued, with that, or all of them.
fn to_op(events: &[Event]) -> usize
    ensures value { result ≡ to_op events.now }
    ensures within { result ≤ length events.now }
{
    let mut taken = 0;
    for event in events {
        taken += 1;
        if is_queued(event) {
            return taken;
        }
    }
    taken
}

/// Whether an op is queued.
fn is_queued(event: &Event) -> bool
    ensures { result ≡ is_queued event.now }
{
    match event {
        Event::Queues { .. } => true,
        _ => false,
    }
}

/// Whether a sync ends the group of an op of this partition before another op of that partition is queued. Such an op
/// is a flush.
fn is_last(part: Part, later: &[Event]) -> bool
    ensures { result ≡ is_last part later.now }
{
    for event in later {
        match event {
            Event::Queues { place } => {
                if place.part == part {
                    return false;
                }
            }
            Event::Syncs { .. } => return true,
            _ => (),
        }
    }
    false
}
