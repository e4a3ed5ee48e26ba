ghost use Rattle.std.specs.Prelude.{◌≡◌, ℕ, ◌<◌, true, IsTrue, IsSome, ◌↔◌};
ghost use Rattle.head_queue.specs.Entries.{entry_at, waiting_at};
ghost use Rattle.head_queue.specs.Ranks.{rank, rank_of};
ghost use Rattle.head_queue.specs.Kept.{AreKept, IsWalked, Leads, Starts};

use crate::chains::Chain;
use crate::entries::{QueueEntry, get, is_before};
use tape_types::Place;

/// Whether a number has a request that stands before a place, or at it and came before so many.
pub fn leads(entries: &[Option<QueueEntry>], number: u32, place: Place, arrival: u64) -> bool
    ensures { IsTrue result ↔ Leads entries.now (rank_of place arrival) number }
{
    match get(entries, number) {
        Some(entry) => is_before(entry, place, arrival),
        None => false,
    }
}

/// The first of two numbers that leads to a place, or 0.
pub fn start(
    entries: &[Option<QueueEntry>],
    hint: u32,
    other: u32,
    place: Place,
    arrival: u64,
) -> u32
    ensures { Starts entries.now (rank_of place arrival) result }
{
    if leads(entries, hint, place, arrival) {
        return hint;
    }
    if leads(entries, other, place, arrival) {
        return other;
    }
    0
}

/// The last number of a chain before a place, or 0, found by steps forward from one that leads there.
pub fn last_before(
    chain: &Chain,
    entries: &[Option<QueueEntry>],
    from: u32,
    place: Place,
    arrival: u64,
) -> u32
    requires kept { AreKept entries.now chain.now.members chain.now.size }
    requires start { Starts entries.now (rank_of place arrival) from }
    ensures { IsWalked entries.now (rank_of place arrival) chain.now.members result }
{
    let mut at = from;
    let mut next = chain.after(at);
    'walk: while leads(entries, next, place, arrival) {
        at = next;
        next = chain.after(at);
    }
    at
}
