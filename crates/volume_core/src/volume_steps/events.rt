//! Events that a call of a session brings: the head stays where it stands.

ghost use Rattle.std.specs.Prelude.{◌≡◌, ◌+◌, ◌≤◌, ◌∷◌, ◌++◌, [], Some, true};
ghost use Rattle.session_script.specs.declared.logs.Event.TheVariants as events;
ghost use Rattle.head_queue.specs.EventLaws.Trail.{allows};
ghost use Rattle.event_journal.specs.Trails.{due_ticket, state};

use event_journal::Trail;
use session_script::Event;
use tape_types::Place;

/// An op was admitted.
pub fn note_op(trail: &mut Trail, place: Place)
    requires room { 2 ≤ trail.old.spare }
    requires allowed { allows (state trail.old) (events.Queues place) ≡ true }
    ensures events { trail.new.events ≡ trail.old.events ++ events.Queues place ∷ [] }
    ensures acks { trail.new.acks ≡ trail.old.acks }
    ensures kept { trail.new.kept ≡ trail.old.kept }
    ensures spare { trail.old.spare ≤ trail.new.spare + 2 }
    ensures waiters { trail.new.waiters ≡ trail.old.waiters }
{
    let head = trail.head();
    trail.write(Event::Queues { place }, head, 0);
}

/// A sync waits for all ops that stand.
pub fn note_sync(trail: &mut Trail, ticket: u64)
    requires room { 2 ≤ trail.old.spare }
    requires waiter { 1 ≤ trail.old.waiters }
    requires allowed { allows (state trail.old) (events.Syncs ticket) ≡ true }
    ensures events { trail.new.events ≡ trail.old.events ++ events.Syncs ticket ∷ [] }
    ensures acks { trail.new.acks ≡ trail.old.acks }
    ensures kept { trail.new.kept ≡ trail.old.kept }
    ensures spare { trail.old.spare ≤ trail.new.spare + 2 }
{
    let head = trail.head();
    trail.write(Event::Syncs { ticket }, head, 0);
}

/// The sync that has waited longest is answered, at this number of commands.
#[tactic(auto, using(event_journal::proofs::TrailLemmas::due_may_come))]
pub fn note_answer(trail: &mut Trail, ticket: u64, commands: u64)
    requires { due_ticket (state trail.old) ≡ Some ticket }
    ensures events { trail.new.events ≡ trail.old.events ++ events.Synced ticket ∷ [] }
    ensures acks { trail.new.acks ≡ trail.old.acks ++ record { place = ticket; command = commands } ∷ [] }
    ensures kept { trail.new.kept ≡ trail.old.kept }
    ensures spare { trail.old.spare ≤ trail.new.spare }
{
    let head = trail.head();
    trail.write(Event::Synced { ticket }, head, commands);
}
