ghost use Rattle.std.specs.Prelude.{◌≡◌, ℕ, ◌+◌, ◌<◌, ◌≤◌, None, Some, cond, nat_eq, nat_lt, length, vec_len};
ghost use Rattle.std.specs.Prelude.{vec_capacity};
ghost use Rattle.head_queue.specs.Entries.{entry_at};
ghost use Rattle.head_queue.specs.Ranks.{rank_of};

use tape_types::{Part, Place};

/// A request that waits: whose it is, where its block stands, and how many came before it.
#[derive(Clone, Copy)]
pub struct QueueEntry {
    pub owner: u64,
    pub place: Place,
    pub arrival: u64,
}

/// What waits under a number.
pub fn get(entries: &[Option<QueueEntry>], number: u32) -> Option<QueueEntry>
    ensures { result ≡ entry_at entries.now number }
{
    if number == 0 {
        return None;
    }
    let at = number as usize - 1;
    if at < entries.len() {
        entries[at]
    } else {
        None
    }
}

/// Has something wait under a number, or nothing.
pub fn set(entries: &mut Vec<Option<QueueEntry>>, number: u32, entry: Option<QueueEntry>)
    requires some { 1 ≤ number }
    requires within { number ≤ vec_len entries.old }
    ensures entries { (k : ℕ)
        → entry_at entries.new.items k ≡ cond (nat_eq k number) entry (entry_at entries.old.items k) }
    ensures len { vec_len entries.new ≡ vec_len entries.old }
    ensures capacity { vec_capacity entries.new ≡ vec_capacity entries.old }
{
    entries[number as usize - 1] = entry;
}

/// Makes one more number, under which nothing waits. Takes no memory.
pub fn widen(entries: &mut Vec<Option<QueueEntry>>)
    requires { vec_len entries.old < vec_capacity entries.old }
    ensures entries { (k : ℕ) → entry_at entries.new.items k ≡ entry_at entries.old.items k }
    ensures len { vec_len entries.new ≡ vec_len entries.old + 1 }
    ensures capacity { vec_capacity entries.old ≤ vec_capacity entries.new }
{
    if entries.push(None).is_err() {
        unreachable!();
    }
}

/// Whether a request stands before a place, or at it and came before so many.
pub fn is_before(entry: QueueEntry, place: Place, arrival: u64) -> bool
    ensures { result ≡ nat_lt (rank_of entry.place entry.arrival) (rank_of place arrival) }
{
    if entry.place.part != place.part {
        return place.part == Part::Dp;
    }
    if entry.place.pos != place.pos {
        return entry.place.pos < place.pos;
    }
    entry.arrival < arrival
}
