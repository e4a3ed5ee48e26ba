//! Replies that are handed out.

ghost use Rattle.std.specs.Prelude.{◌≡◌, ◌<◌, ◌≤◌, ℕ, List, [], ◌∷◌, None, Some, IfNone, IfSome, MatchOption};
ghost use Rattle.std.specs.Prelude.{length, slice_get};
ghost use Rattle.promises.specs.ServingPromise.Marks.{phase, waits};
ghost use Rattle.event_journal.specs.Placements.{there};
ghost use Rattle.waiting_reads.specs.Waiting.{for_others};
ghost use Rattle.volume_state.specs.CallLaws.Handing.{HandsOut};
ghost use Rattle.volume_core.specs.VolumeSteps.Handed.{CanHand, IsApart, IsApartAt};
ghost use Rattle.volume_core.specs.VolumeSteps.Seen.{seen_parts};

use crate::volume_steps::parts::Parts;
use event_journal::Placements;
use plain_tree::Answer;
use session_script::Reply;
use tape_drive::Drive;

impl<D: Drive> Parts<D> {
    /// Hands out the reply of a place, where it is there.
    pub fn hand_out(&mut self, ticket: u64) -> Option<Reply>
        requires { CanHand ticket (seen_parts self.old) }
        ensures some { IfSome result (λ reply. (who : ℕ) → phase who (seen_parts self.old).listed.marks ≡ waits ticket
            → HandsOut who ticket reply (seen_parts self.old) (seen_parts self.new)) }
        ensures none { IfNone result (self.new ≡ self.old) }
        ensures waits { IfNone result (slice_get (seen_parts self.old).listed.replies ticket ≡ Some None) }
    {
        let reply = self.take_reply(ticket)?;
        let who = self.placements.who(ticket);
        self.placements.hand(who, ticket);
        Some(reply)
    }

    /// The reply at a place, where it is there. Its answer is kept no more.
    fn take_reply(&mut self, ticket: u64) -> Option<Reply>
        requires { CanHand ticket (seen_parts self.old) }
        ensures reply { result ≡ there (slice_get self.old.placements.replies ticket) }
        ensures answered { IfSome result
            (λ reply. self.new.reads.answered ≡ for_others ticket self.old.reads.answered) }
        ensures reads { self.new.reads.reads ≡ self.old.reads.reads }
        ensures none { IfNone result (self.new ≡ self.old) }
        ensures others { self.new ≡ record self.old { reads = self.new.reads } }
    {
        if !self.placements.has_reply(ticket) {
            return None;
        }
        let plain = plain_reply(&self.placements, ticket);
        let kept = self.reads.hand(ticket);
        match plain {
            Some(reply) => Some(reply),
            None => match kept {
                Some(answer) => Some(Reply::Answer(answer)),
                None => unreachable!(),
            },
        }
    }
}

/// A copy of the reply at a place, where it holds no bytes.
#[tactic(auto, using(crate::proofs::VolumeSteps::HandLemmas::copied_apart))]
fn plain_reply(placements: &Placements, ticket: u64) -> Option<Reply>
    ensures some { IfSome result (λ r. slice_get placements.now.replies ticket ≡ Some (Some r)) }
    ensures none { IfNone result (IsApartAt ticket placements.now.replies) }
{
    match placements.reply(ticket) {
        Some(reply) => plain_copy(reply),
        None => None,
    }
}

/// A copy of a reply that holds no bytes.
fn plain_copy(reply: &Reply) -> Option<Reply>
    ensures some { IfSome result (λ r. r ≡ reply.now) }
    ensures none { IfNone result (IsApart reply.now) }
{
    match reply {
        Reply::Answer(answer) => match answer {
            Answer::Synced => Some(Reply::Answer(Answer::Synced)),
            Answer::Done => None,
            Answer::Got(_) => None,
            Answer::Names(_) => None,
            Answer::Facts(_) => None,
            Answer::Refused(_) => None,
        },
        Reply::Full { need, limit } => Some(Reply::Full {
            need: *need,
            limit: *limit,
        }),
        Reply::Fault(counts) => Some(Reply::Fault(*counts)),
        Reply::NoMemory => Some(Reply::NoMemory),
    }
}
