//! What was placed and replied, and what each session was told.

ghost use Rattle.std.specs.Prelude.{◌≡◌, ◌≢◌, ◌+◌, ◌*◌, ◌<◌, ◌≤◌, ◌^◌, ◌==◌, count_by, ℕ, true, [], ◌∷◌, ◌++◌, All};
ghost use Rattle.std.specs.Prelude.{is_some, length, map, OnOk, IfOk, IfNone, IfSome, None, Some, Option, option_map};
ghost use Rattle.std.specs.Prelude.{slice_get, slice_set, vec_len, vec_capacity};
ghost use Rattle.session_script.specs.declared.logs.Reply.{Reply};
ghost use Rattle.promises.specs.declared.serving_promise.marks.MarkKind.TheVariants as kinds;
ghost use Rattle.promises.specs.ServingPromise.Marks.{draining, mark, phase, waits};
ghost use Rattle.event_journal.specs.LetGo.{MayBeGoneAt};
ghost use Rattle.event_journal.specs.Placements.{Listed, or_none, there};

use crate::lists::push;
use crate::replies::{all_kept, let_go, push_none, put};
use plain_tree::Placed;
use session_script::{HeldReply, KeptReply, Reply};
use std::alloc::Global;
use std::marker::Model;
use tape_types::{List, NoMemory};

/// What a mark tells, without the reply.
#[derive(Clone, Copy)]
pub enum What {
    /// A call was placed at this place of the history.
    Places(u64),
    /// The reply of this place was handed out.
    Hands(u64),
    /// A drain has begun.
    Begins,
    /// The session drains no more.
    Rests,
}

/// A mark of a session as it is kept: the reply that it handed out is the one that stands at its place.
#[derive(Clone, Copy)]
pub struct Stored {
    pub who: u16,
    pub what: What,
}

/// The placements of a volume, their replies, and the marks of its sessions. As a call is placed, the long replies go
/// that were handed out with all before them, unless all are kept: from then on they stand for contracts alone.
#[derive(Drop)]
pub struct Placements {
    history: Vec<Placed>,
    replies: Vec<Option<HeldReply>>,
    /// Whether the reply of each place was handed out.
    handed: Vec<bool>,
    /// So many of the first replies were handed out when a call was placed.
    front: usize,
    marks: Vec<Stored>,
    calls: usize,
    sessions: usize,
    /// Whether long replies go.
    spares: bool,
}

impl Model for Placements {
    ghost use Rattle.std.specs.Prelude.{◌-◌, map, length, vec_len, vec_capacity};
    ghost use Rattle.event_journal.specs.LetGo.{AreKept, values};
    ghost use Rattle.event_journal.specs.Placements.{IsListed, Listed, owed, shown};

    ghost Value = { Listed };

    ghost view = { λ a. record {
      history = a.history.items;
      replies = values a.replies.items;
      marks = map (shown (values a.replies.items)) a.marks.items;
      calls = a.calls;
      sessions = a.sessions;
      spare = vec_capacity a.marks - vec_len a.marks
          - owed a.calls a.sessions (length a.history.items) (map (shown (values a.replies.items)) a.marks.items);
    } };

    ghost invariant = { λ a. IsListed a.history.items (values a.replies.items) a.marks.items a.calls a.sessions
        (vec_capacity a.history) (vec_capacity a.replies) (vec_capacity a.marks - vec_len a.marks)
        × AreKept a.replies.items a.handed.items a.front (map (shown (values a.replies.items)) a.marks.items) a.calls
        (vec_capacity a.handed) };
}

impl Placements {
    /// Nothing was placed. There is room for so many calls of so many sessions. Where memory is spared, long replies go.
    pub fn new(
        alloc: Global,
        calls: usize,
        sessions: usize,
        spares: bool,
    ) -> Result<Placements, NoMemory>
        ensures history { IfOk result (λ p. p.history ≡ []) }
        ensures replies { IfOk result (λ p. p.replies ≡ []) }
        ensures marks { IfOk result (λ p. p.marks ≡ []) }
        ensures calls { IfOk result (λ p. p.calls ≡ calls) }
        ensures sessions { IfOk result (λ p. p.sessions ≡ sessions) }
    {
        let Some(twice) = calls.checked_mul(2) else {
            return Err(NoMemory);
        };
        let history = Vec::with_capacity(alloc, calls)?;
        let replies = Vec::with_capacity(alloc, calls)?;
        let handed = Vec::with_capacity(alloc, calls)?;
        let marks = Vec::with_capacity(alloc, twice)?;
        Ok(Placements {
            history,
            replies,
            handed,
            front: 0,
            marks,
            calls,
            sessions,
            spares,
        })
    }

    /// Makes room for the marks of a drain.
    pub fn reserve_drain(&mut self) -> Result<(), NoMemory>
        ensures history { self.new.history ≡ self.old.history }
        ensures replies { self.new.replies ≡ self.old.replies }
        ensures marks { self.new.marks ≡ self.old.marks }
        ensures calls { self.new.calls ≡ self.old.calls }
        ensures sessions { self.new.sessions ≡ self.old.sessions }
        ensures spare { OnOk result (2 ≤ self.new.spare) }
    {
        let left = self.calls - self.history.len();
        let Some(room) = needed(left, self.sessions) else {
            return Err(NoMemory);
        };
        self.marks.reserve(room)?;
        Ok(())
    }

    /// The placements and their replies, all of which are there. The replies are moved into a vector that has room for
    /// them.
    pub fn into_lists(self, told: Vec<KeptReply>) -> (List<Placed>, List<KeptReply>)
        requires there { All (λ r. is_some r ≡ true) self.replies }
        requires empty { told.items ≡ [] }
        requires room { length self.replies ≤ vec_capacity told }
        ensures history { result.0 ≡ self.history }
        ensures replies { map Some result.1 ≡ self.replies }
    {
        let Placements {
            history,
            replies,
            handed: _,
            front: _,
            marks: _,
            calls: _,
            sessions: _,
            spares: _,
        } = self;
        let told = all_kept(replies, told);
        (List::from_vec(history), List::from_vec(told))
    }

    /// How many calls were placed. Each has its place among the replies.
    pub fn len(&self) -> u64
        ensures len { result ≡ length self.now.history }
        ensures each { length self.now.replies ≡ length self.now.history }
        ensures few { length self.now.history ≤ self.now.calls }
    {
        self.history.len() as u64
    }

    /// How many marks there are.
    pub fn count_marks(&self) -> u64
        ensures { result ≡ length self.now.marks }
    {
        self.marks.len() as u64
    }

    /// Whose call was placed here.
    pub fn who(&self, place: u64) -> u16
        requires { place < length self.now.history }
        ensures { option_map (λ p. p.who) (slice_get self.now.history place) ≡ Some result }
    {
        self.history[place as usize].who
    }

    /// What was placed here.
    pub fn placed(&self, place: u64) -> Placed
        requires { place < length self.now.history }
        ensures { slice_get self.now.history place ≡ Some result }
    {
        self.history[place as usize]
    }

    /// How many calls of a session were placed. It goes over all placements.
    pub fn count(&self, who: u16) -> usize
        ensures { result ≡ count_by (λ p. p.who == who) self.now.history }
    {
        self.history
            .iter()
            .filter(|placed| placed.who == who)
            .count()
    }

    /// Whether the reply of a place is there.
    pub fn has_reply(&self, place: u64) -> bool
        ensures { result ≡ is_some (there (slice_get self.now.replies place)) }
    {
        match self.replies.get(place as usize) {
            Some(Some(_)) => true,
            _ => false,
        }
    }

    /// The reply of a place, where it is there. A long one may be gone, once it and all before it were handed out and a
    /// call was placed behind that.
    pub fn reply(&self, place: u64) -> Option<&Reply>
        ensures some { IfSome result (λ r. slice_get self.now.replies place ≡ Some (Some r.now)) }
        ensures none { IfNone result (MayBeGoneAt place self.now.replies self.now.marks) }
    {
        match self.replies.get(place as usize) {
            Some(Some(HeldReply::Here(reply))) => Some(reply),
            Some(Some(HeldReply::Gone(gone))) => {
                gone.was_long();
                None
            }
            Some(None) => None,
            None => None,
        }
    }

    /// Places a call. Its reply isn't there yet. Where memory is spared, the long replies go that were handed out with all
    /// before them.
    pub fn place(&mut self, placed: Placed)
        requires room { length self.old.history < self.old.calls }
        requires low { 1 ≤ placed.who }
        requires high { placed.who ≤ self.old.sessions }
        ensures history { self.new.history ≡ self.old.history ++ placed ∷ [] }
        ensures replies { self.new.replies ≡ self.old.replies ++ None ∷ [] }
        ensures marks { self.new.marks
            ≡ self.old.marks ++ mark placed.who (kinds.Places (length self.old.history)) ∷ [] }
        ensures calls { self.new.calls ≡ self.old.calls }
        ensures sessions { self.new.sessions ≡ self.old.sessions }
    {
        let here = self.history.len() as u64;
        let handed = self.handed.as_slice();
        self.front = let_go(&mut self.replies, handed, self.front, self.spares);
        push(&mut self.history, placed);
        push_none(&mut self.replies);
        push(&mut self.handed, false);
        push(
            &mut self.marks,
            Stored {
                who: placed.who,
                what: What::Places(here),
            },
        );
    }

    /// The reply of a place is there.
    pub fn answer(&mut self, place: u64, reply: Reply)
        requires { slice_get self.old.replies place ≡ Some None }
        ensures history { self.new.history ≡ self.old.history }
        ensures replies { self.new.replies ≡ slice_set self.old.replies place (Some reply) }
        ensures marks { self.new.marks ≡ self.old.marks }
        ensures calls { self.new.calls ≡ self.old.calls }
        ensures sessions { self.new.sessions ≡ self.old.sessions }
    {
        put(&mut self.replies, place as usize, reply);
    }

    /// The reply of a place is handed out to its session.
    pub fn hand(&mut self, who: u16, place: u64)
        requires waits { phase who self.old.marks ≡ waits place }
        requires low { 1 ≤ who }
        requires high { who ≤ self.old.sessions }
        requires there { (reply : Reply) × (slice_get self.old.replies place ≡ Some (Some reply)) }
        ensures history { self.new.history ≡ self.old.history }
        ensures replies { self.new.replies ≡ self.old.replies }
        ensures marks { self.new.marks ≡ self.old.marks
            ++ mark who (kinds.Hands place (or_none (there (slice_get self.old.replies place)))) ∷ [] }
        ensures calls { self.new.calls ≡ self.old.calls }
        ensures sessions { self.new.sessions ≡ self.old.sessions }
    {
        self.handed[place as usize] = true;
        push(
            &mut self.marks,
            Stored {
                who: who,
                what: What::Hands(place),
            },
        );
    }

    /// A session begins to drain.
    pub fn begin(&mut self, who: u16)
        requires room { 2 ≤ self.old.spare }
        requires low { 1 ≤ who }
        requires high { who ≤ self.old.sessions }
        ensures history { self.new.history ≡ self.old.history }
        ensures replies { self.new.replies ≡ self.old.replies }
        ensures marks { self.new.marks ≡ self.old.marks ++ mark who kinds.Begins ∷ [] }
        ensures calls { self.new.calls ≡ self.old.calls }
        ensures sessions { self.new.sessions ≡ self.old.sessions }
    {
        push(
            &mut self.marks,
            Stored {
                who: who,
                what: What::Begins,
            },
        );
    }

    /// A session drains no more.
    pub fn rest(&mut self, who: u16)
        requires drains { phase who self.old.marks ≡ draining }
        requires low { 1 ≤ who }
        requires high { who ≤ self.old.sessions }
        ensures history { self.new.history ≡ self.old.history }
        ensures replies { self.new.replies ≡ self.old.replies }
        ensures marks { self.new.marks ≡ self.old.marks ++ mark who kinds.Rests ∷ [] }
        ensures calls { self.new.calls ≡ self.old.calls }
        ensures sessions { self.new.sessions ≡ self.old.sessions }
    {
        push(
            &mut self.marks,
            Stored {
                who: who,
                what: What::Rests,
            },
        );
    }
}

/// How many marks there are to come at most, with so many calls left and of so many sessions, one of which begins to
/// drain.
fn needed(left: usize, sessions: usize) -> Option<usize>
    ensures { IfSome result (λ n. n ≡ 2 * left + sessions + 2) }
{
    left.checked_mul(2)?.checked_add(sessions)?.checked_add(2)
}
