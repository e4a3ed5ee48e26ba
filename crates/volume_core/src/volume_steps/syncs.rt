//! Syncs.

ghost use Rattle.std.specs.Prelude.{◌≡◌, ◌≢◌, ◌+◌, ◌*◌, ◌≤◌, Bool, drop, length, map, None, Some, IfSome};
ghost use Rattle.std.specs.Prelude.{OnOk};
ghost use Rattle.std.specs.Option.{option_map};
ghost use Rattle.extent_map.specs.Cells.{Tape};
ghost use Rattle.tape_types.specs.declared.moments.Moment.{Moment};
ghost use Rattle.head_queue.specs.EventLaws.Trail.{IsTrail};
ghost use Rattle.head_queue.specs.EventLaws.Waiting.{ops};
ghost use Rattle.plain_tree.specs.declared.calls.Call.TheVariants as calls;
ghost use Rattle.space_laws.specs.Space.{ops_of};
ghost use Rattle.space_laws.specs.Standing.{Given, Standing, ask_of, rules};
ghost use Rattle.held_volume.specs.Stocks.{IsStock};
ghost use Rattle.held_volume.specs.Syncs.{IsDocument};
ghost use Rattle.event_journal.specs.Trails.{due_ticket, state};
ghost use Rattle.promises.specs.declared.serving_promise.answers.Submitted.TheVariants as submitted;
ghost use Rattle.volume_core.specs.VolumeSteps.Asking.{AnswersSync, Awaits, CanAsk, CanPlace, CanQueueSync};
ghost use Rattle.volume_core.specs.VolumeSteps.Asking.{IsSubmitted};
ghost use Rattle.volume_core.specs.VolumeSteps.Asking.{QueuesSync, Stands, WaitsSynced};
ghost use Rattle.tape_layout.specs.Ops.{place_of};
ghost use Rattle.volume_core.specs.VolumeSteps.Seen.{seen_parts};

use crate::volume_steps::events::{note_answer, note_sync};
use crate::volume_steps::parts::Parts;
use crate::volume_steps::placing::Asked;
use crate::volume_steps::submits::queue_ops;
use event_journal::Trail;
use held_volume::Stock;
use plain_tree::Answer;
use promises::serving_promise::Submitted;
use tape_drive::Drive;
use tape_layout::AdmitErr;
use tape_types::NoMemory;

impl<D: Drive> Parts<D> {
    /// Admits the index of a sync where the tree has changed since the last one, and queues its ops.
    #[tactic(auto, using(crate::proofs::VolumeSteps::SubmitLemmas::no_memory_here, crate::proofs::VolumeSteps::SubmitLemmas::ready_no_drain))]
    pub fn sync(&mut self, asked: Asked) -> Submitted
        requires can { CanAsk asked.who (seen_parts self.old) }
        requires stands { Stands (seen_parts self.old) }
        ensures submits { IsSubmitted D.Drive asked.who asked.nth asked.at (seen_parts self.old) (seen_parts self.new)
            calls.Sync result }
        ensures answered { self.new.reads.answered ≡ self.old.reads.answered }
        ensures placed { result ≢ submitted.Drain }
    {
        match self.stock.document(asked.at) {
            Ok(due) => self.sync_text(asked, &due),
            Err(NoMemory) => self.void(asked, AdmitErr::NoMemory),
        }
    }

    /// Admits the text of the index of a sync, and queues its ops.
    #[tactic(auto, using(crate::proofs::VolumeSteps::SubmitLemmas::ready_no_drain, crate::proofs::VolumeSteps::SubmitLemmas::synced_no_drain))]
    fn sync_text(&mut self, asked: Asked, due: &Option<Vec<u8>>) -> Submitted
        requires can { CanAsk asked.who (seen_parts self.old) }
        requires stands { Stands (seen_parts self.old) }
        requires some { IfSome due.now (λ doc. 1 ≤ length doc.items) }
        requires document { (tape : Tape) (g : Given) (on : Bool) (st : Standing) → IsStock tape g on st self.old.stock
            → IsDocument g st asked.at (option_map (λ doc. doc.items) due.now) }
        ensures submits { IsSubmitted D.Drive asked.who asked.nth asked.at (seen_parts self.old) (seen_parts self.new)
            calls.Sync result }
        ensures answered { self.new.reads.answered ≡ self.old.reads.answered }
        ensures placed { result ≢ submitted.Drain }
    {
        let standing = self.stock.layout().waiting();
        if reserve_sync(&self.stock, &mut self.trail, due).is_err() {
            return self.void(asked, AdmitErr::NoMemory);
        }
        match self.stock.admit_dp(due) {
            Ok(()) => self.queue_sync(asked, standing),
            Err(error) => self.void(asked, error),
        }
    }

    /// Queues the ops of a sync that was admitted, which stand behind so many others.
    fn queue_sync(&mut self, asked: Asked, others: u64) -> Submitted
        requires can { CanAsk asked.who (seen_parts self.old) }
        requires numbers { CanQueueSync others self.old.stock self.old.trail }
        requires waiter { 1 ≤ self.old.trail.waiters }
        ensures { QueuesSync D.Drive asked.who asked.nth asked.at
            (map place_of (drop others self.old.stock.layout.ops)) result (seen_parts self.old) (seen_parts self.new) }
    {
        queue_ops(&self.stock, &mut self.trail, others);
        self.wait_synced(asked)
    }

    /// A sync waits for the ops that stand, or is answered where there are none.
    #[tactic(auto, using(crate::proofs::VolumeSteps::WaitLemmas::may_sync, crate::proofs::VolumeSteps::WaitLemmas::due_now, crate::proofs::VolumeSteps::WaitLemmas::answered_now, crate::proofs::VolumeSteps::WaitLemmas::waits_on))]
    fn wait_synced(&mut self, asked: Asked) -> Submitted
        requires can { CanAsk asked.who (seen_parts self.old) }
        requires ops { length (ops (state self.old.trail)) ≡ length self.old.stock.layout.ops }
        requires room { 2 ≤ self.old.trail.spare }
        requires waiter { 1 ≤ self.old.trail.waiters }
        ensures { WaitsSynced D.Drive asked.who asked.nth asked.at result (seen_parts self.old) (seen_parts self.new) }
    {
        let here = self.placements.len();
        let standing = self.stock.layout().waiting();
        note_sync(&mut self.trail, here);
        if standing == 0 {
            self.answer_sync(asked, here)
        } else {
            self.await_sync(asked)
        }
    }

    /// Answers a sync that is due, and is placed now.
    fn answer_sync(&mut self, asked: Asked, here: u64) -> Submitted
        requires place { CanPlace asked.who self.old.placements }
        requires due { due_ticket (state self.old.trail) ≡ Some here }
        ensures { AnswersSync D.Drive asked.who asked.nth asked.at here result (seen_parts self.old)
            (seen_parts self.new) }
    {
        let commands = self.head.commands();
        note_answer(&mut self.trail, here, commands);
        // The events are a trail.
        let _head = self.trail.head();
        self.answer(asked, Answer::Synced, Answer::Synced)
    }

    /// Places a sync that waits.
    fn await_sync(&mut self, asked: Asked) -> Submitted
        requires { CanPlace asked.who self.old.placements }
        ensures awaits { Awaits asked.who asked.nth asked.at result (seen_parts self.old) (seen_parts self.new) }
        ensures trail { IsTrail self.old.trail.events }
    {
        // The events are a trail.
        let _head = self.trail.head();
        self.place_waiting(asked)
    }
}

/// Makes room for the events of a sync, and for the sync among those that wait.
#[tactic(auto, using(crate::proofs::VolumeSteps::SyncDone::sync_room_some, crate::proofs::VolumeSteps::SyncDone::sync_room_none))]
fn reserve_sync(stock: &Stock, trail: &mut Trail, due: &Option<Vec<u8>>) -> Result<(), NoMemory>
    ensures events { trail.new.events ≡ trail.old.events }
    ensures acks { trail.new.acks ≡ trail.old.acks }
    ensures kept { trail.new.kept ≡ trail.old.kept }
    ensures room { OnOk result ((tape : Tape) (g : Given) (on : Bool) (st : Standing) (at : Moment)
        → IsStock tape g on st stock.now → IsDocument g st at (option_map (λ doc. doc.items) due.now)
        → 2 * length (ops_of (rules g) on st.space (ask_of g st calls.Sync at)) + 2 ≤ trail.new.spare) }
    ensures waiters { OnOk result (1 ≤ trail.new.waiters) }
{
    match due {
        Some(doc) => match stock.most_ops(doc.as_slice()).checked_add(1) {
            Some(most) => trail.reserve(most),
            None => Err(NoMemory),
        },
        None => trail.reserve(1),
    }
}
