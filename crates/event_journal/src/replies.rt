//! The replies of a volume in their list, here or gone.

ghost use Rattle.std.specs.Prelude.{◌≡◌, ◌≢◌, ◌<◌, ◌≤◌, ◌+◌, ℕ, ◌∷◌, ◌++◌, [], true, All, None, Some, is_some, length};
ghost use Rattle.std.specs.Prelude.{map, slice_get, slice_set, vec_capacity, vec_len};
ghost use Rattle.event_journal.specs.LetGo.{GoBetween, StaysHere, values};

use crate::lists::push;
use session_script::{HeldReply, KeptReply, Reply};

/// One more reply that isn't there yet, for which there is room.
pub fn push_none(replies: &mut Vec<Option<HeldReply>>)
    requires { vec_len replies.old < vec_capacity replies.old }
    ensures values { values replies.new.items ≡ values replies.old.items ++ None ∷ [] }
    ensures here { StaysHere replies.old.items replies.new.items }
    ensures len { length replies.new.items ≡ length replies.old.items + 1 }
    ensures capacity { vec_capacity replies.old ≤ vec_capacity replies.new }
{
    push(replies, None);
}

/// The reply of a place is there.
pub fn put(replies: &mut Vec<Option<HeldReply>>, place: usize, reply: Reply)
    requires { place < length replies.old.items }
    ensures values { values replies.new.items ≡ slice_set (values replies.old.items) place (Some reply) }
    ensures here { StaysHere replies.old.items replies.new.items }
    ensures len { length replies.new.items ≡ length replies.old.items }
    ensures capacity { vec_capacity replies.new ≡ vec_capacity replies.old }
{
    replies[place] = Some(HeldReply::Here(reply));
}

/// Lets the long replies go from a place on, as far as all were handed out, if any may go. The result is the place behind
/// them.
pub fn let_go(
    replies: &mut Vec<Option<HeldReply>>,
    handed: &[bool],
    front: usize,
    spares: bool,
) -> usize
    requires { length handed.now ≡ length replies.old.items }
    ensures gone { GoBetween handed.now front result replies.old.items replies.new.items }
    ensures capacity { vec_capacity replies.new ≡ vec_capacity replies.old }
{
    let mut at = front;
    while spares_at(handed, at, spares) {
        let_one_go(replies, at);
        at += 1;
    }
    at
}

/// Whether the reply of a place may go: it was handed out, and memory is spared.
fn spares_at(handed: &[bool], place: usize, spares: bool) -> bool
    ensures { result ≡ true → slice_get handed.now place ≡ Some true }
{
    match handed.get(place) {
        Some(was_handed) => spares && *was_handed,
        None => false,
    }
}

/// Lets the reply of a place go, where it is long.
fn let_one_go(replies: &mut Vec<Option<HeldReply>>, at: usize)
    requires { at < length replies.old.items }
    ensures values { values replies.new.items ≡ values replies.old.items }
    ensures others { (k : ℕ) → k ≢ at → slice_get replies.new.items k ≡ slice_get replies.old.items k }
    ensures len { length replies.new.items ≡ length replies.old.items }
    ensures capacity { vec_capacity replies.new ≡ vec_capacity replies.old }
{
    if let Some(held) = replies[at].take() {
        replies[at] = Some(held.let_go());
    }
}

/// The replies of a list, all of which are there, as a log has them, moved into a vector that has room for them.
pub fn all_kept(replies: Vec<Option<HeldReply>>, mut into: Vec<KeptReply>) -> Vec<KeptReply>
    requires there { All (λ r. is_some r ≡ true) (values replies.items) }
    requires empty { into.items ≡ [] }
    requires room { length (values replies.items) ≤ vec_capacity into }
    ensures { map Some result.items ≡ values replies.items }
{
    for reply in replies {
        match reply {
            Some(held) => push(&mut into, KeptReply::new(held)),
            None => unreachable!(),
        }
    }
    into
}
