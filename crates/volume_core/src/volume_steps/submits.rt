//! Calls that change the tree.

ghost use Rattle.std.specs.Prelude.{◌≡◌, ◌≢◌, ◌*◌, ◌≤◌, ◌+◌, Bool, drop, map, length, None, OnOk};
ghost use Rattle.extent_map.specs.Cells.{Tape};
ghost use Rattle.tape_types.specs.declared.moments.Moment.{Moment};
ghost use Rattle.plain_tree.specs.Calls.{call_of_change};
ghost use Rattle.tape_layout.specs.Ops.{place_of};
ghost use Rattle.space_laws.specs.Space.{ops_of};
ghost use Rattle.space_laws.specs.Standing.{Given, Standing, ask_of, rules};
ghost use Rattle.held_volume.specs.Stocks.{IsStock};
ghost use Rattle.event_journal.specs.Trails.{due_ticket, state};
ghost use Rattle.promises.specs.declared.serving_promise.answers.Submitted.TheVariants as submitted;
ghost use Rattle.volume_core.specs.VolumeSteps.Asking.{CanAsk, IsSubmitted, Queues, QueuesDone, Stands};
ghost use Rattle.volume_core.specs.VolumeSteps.Seen.{seen_parts};

use crate::volume_steps::events::note_op;
use crate::volume_steps::parts::Parts;
use crate::volume_steps::placing::Asked;
use event_journal::Trail;
use held_volume::Stock;
use plain_tree::{Answer, Change};
use promises::serving_promise::Submitted;
use tape_drive::Drive;
use tape_layout::AdmitErr;
use tape_types::NoMemory;

impl<D: Drive> Parts<D> {
    /// Makes a call that changes the tree, and queues its ops.
    #[tactic(auto, using(crate::proofs::VolumeSteps::SubmitLemmas::ready_no_drain))]
    pub fn change(&mut self, asked: Asked, change: Change<'_>) -> Submitted
        requires can { CanAsk asked.who (seen_parts self.old) }
        requires stands { Stands (seen_parts self.old) }
        ensures submits { IsSubmitted D.Drive asked.who asked.nth asked.at (seen_parts self.old) (seen_parts self.new)
            (call_of_change change.entry) result }
        ensures answered { self.new.reads.answered ≡ self.old.reads.answered }
        ensures placed { result ≢ submitted.Drain }
    {
        let standing = self.stock.layout().waiting();
        if reserve_for(&self.stock, &mut self.trail, change).is_err() {
            return self.void(asked, AdmitErr::NoMemory);
        }
        match self.stock.apply(change, asked.at) {
            Ok(None) => self.queue_change(asked, standing),
            Ok(Some(refusal)) => {
                self.answer(asked, Answer::Refused(refusal), Answer::Refused(refusal))
            }
            Err(error) => self.void(asked, error),
        }
    }

    /// Queues the ops of a call that was done, which stand behind so many others, and answers it.
    fn queue_change(&mut self, asked: Asked, others: u64) -> Submitted
        requires can { CanAsk asked.who (seen_parts self.old) }
        requires room { 2 * length (drop others self.old.stock.layout.ops) ≤ self.old.trail.spare }
        ensures { QueuesDone asked.who asked.nth asked.at (map place_of (drop others self.old.stock.layout.ops)) result
            (seen_parts self.old) (seen_parts self.new) }
    {
        queue_ops(&self.stock, &mut self.trail, others);
        self.answer(asked, Answer::Done, Answer::Done)
    }
}

/// Makes room for the events of the ops that a call brings.
fn reserve_for(stock: &Stock, trail: &mut Trail, change: Change<'_>) -> Result<(), NoMemory>
    ensures events { trail.new.events ≡ trail.old.events }
    ensures acks { trail.new.acks ≡ trail.old.acks }
    ensures kept { trail.new.kept ≡ trail.old.kept }
    ensures room { OnOk result ((tape : Tape) (g : Given) (on : Bool) (st : Standing) (at : Moment)
        → IsStock tape g on st stock.now
        → 2 * length (ops_of (rules g) on st.space (ask_of g st (call_of_change change.entry) at)) ≤ trail.new.spare) }
{
    match change {
        Change::Write(_, _, bytes) => trail.reserve(stock.most_ops(bytes)),
        _ => Ok(()),
    }
}

/// Queues the ops that stand behind so many others.
#[tactic(auto, using(crate::proofs::VolumeSteps::QueueLemmas::may_queue, crate::proofs::VolumeSteps::QueueLemmas::queuing_begins, crate::proofs::VolumeSteps::QueueLemmas::queuing_room, crate::proofs::VolumeSteps::QueueLemmas::queuing_ends, crate::proofs::VolumeSteps::QueueLemmas::queuing_spare))]
pub fn queue_ops(stock: &Stock, trail: &mut Trail, others: u64)
    requires none_due { due_ticket (state trail.old) ≡ None }
    requires room { 2 * length (drop others stock.now.layout.ops) ≤ trail.old.spare }
    ensures queues { Queues (map place_of (drop others stock.now.layout.ops)) trail.old trail.new }
    ensures spare { trail.old.spare ≤ trail.new.spare + 2 * length (drop others stock.now.layout.ops) }
    ensures waiters { trail.new.waiters ≡ trail.old.waiters }
{
    let layout = stock.layout();
    for nth in others..layout.waiting() {
        note_op(trail, layout.place_behind(nth));
    }
    // The events are a trail.
    let _head = trail.head();
}
