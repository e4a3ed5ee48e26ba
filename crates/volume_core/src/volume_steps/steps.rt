//! Steps of the head.

ghost use Rattle.std.specs.Prelude.{◌≡◌, ◌<◌, ◌^◌, ℕ, true, List, ◌∷◌, Some, None, length, slice_get};
ghost use Rattle.head_queue.specs.Allowed.{op_place};
ghost use Rattle.head_queue.specs.Orders.{IsIn};
ghost use Rattle.head_queue.specs.Picks.{IsOpPicked, IsPicked};
ghost use Rattle.head_queue.specs.Waiting.{Waiting};
ghost use Rattle.head_queue.specs.EventLaws.Trail.{allows};
ghost use Rattle.session_script.specs.declared.logs.Event.{Event};
ghost use Rattle.session_script.specs.declared.logs.Event.TheVariants as the_events;
ghost use Rattle.tape_layout.specs.declared.ops.Op.{Op as Done};
ghost use Rattle.tape_layout.specs.Ops.{place_of};
ghost use Rattle.event_journal.specs.Trails.{first_waiter, state};
ghost use Rattle.waiting_reads.specs.Waiting.{HasTicket};
ghost use Rattle.volume_state.specs.StateLaws.Stepping.{IsKeptAfter, IsOneRequest, KeepsListed, told_fault};
ghost use Rattle.volume_state.specs.CallLaws.StepLaws.{CanStep};
ghost use Rattle.volume_state.specs.CallLaws.Handing.{StepsOn};
ghost use Rattle.volume_core.specs.VolumeSteps.Seen.{seen_parts};
ghost use Rattle.volume_core.specs.VolumeSteps.Moves.{AnswersSyncs, FinishesOp, IsFirstOp, IsReady, MissesBlock};
ghost use Rattle.volume_core.specs.VolumeSteps.Moves.{SyncsWait};
ghost use Rattle.volume_core.specs.VolumeSteps.Moves.{TakesBlock, TakesOp, TellsFault, on_from};

use crate::volume_steps::ops::{behind, head_behind, settles};
use crate::volume_steps::parts::Parts;
use crate::volume_steps::requests::forget_requests;
use block_cache::BlockCache;
use event_journal::Waiter;
use head_core::{StepDone, Work};
use head_queue::Pick;
use plain_tree::Answer;
use session_script::{Event, Reply};
use tape_drive::{Drive, Got};
use tape_types::{Place, Twin};

impl<D: Drive> Parts<D> {
    /// Makes the step of the head that comes next.
    pub fn step(&mut self)
        requires can { CanStep D.Drive (seen_parts self.old) }
        requires ready { IsReady D.Drive (seen_parts self.old) }
        ensures { (added : List Event) × StepsOn D.Drive added (seen_parts self.old) (seen_parts self.new) }
    {
        let at = self.trail.head();
        let op = self.waiting_place();
        match self.queue.pick(at, op) {
            Some(Pick::Op) => self.do_op(),
            Some(Pick::Request { node, owner, place }) => self.serve(node, owner, place),
            None => unreachable!(),
        }
    }

    /// Where the op stands that waits for the head.
    fn waiting_place(&self) -> Option<Place>
        requires { CanStep D.Drive (seen_parts self.now) }
        ensures { result ≡ op_place (state self.now.trail) }
    {
        match self.trail.first_waiter() {
            Some(_) => match self.stock.next_op() {
                Some(op) => Some(op.place()),
                None => None,
            },
            None => None,
        }
    }

    /// Does the first op.
    fn do_op(&mut self)
        requires can { CanStep D.Drive (seen_parts self.old) }
        requires ready { IsReady D.Drive (seen_parts self.old) }
        requires picked { IsOpPicked (state self.old.trail).head (op_place (state self.old.trail))
            self.old.queue.waiting }
        ensures { (added : List Event) × StepsOn D.Drive added (seen_parts self.old) (seen_parts self.new) }
    {
        let Some(op) = self.stock.next_op() else {
            unreachable!();
        };
        let place = op.place();
        let flush = op.is_flush();
        match self.head.step(Work::Do(op)) {
            StepDone::Failed(counts) => self.fail_op(place, counts),
            StepDone::Read(_) => self.finish_op(place, flush),
            StepDone::Wrote => self.finish_op(place, flush),
            StepDone::Flushed => self.finish_op(place, flush),
        }
    }

    /// The first op was done: it stands no more, and each sync that is due then is answered.
    fn finish_op(&mut self, place: Place, flush: bool)
        requires op { IsFirstOp (seen_parts self.old) place flush }
        requires allowed { allows (state self.old.trail) (the_events.Worked place None) ≡ true }
        requires near { place.pos < 2 ^ 63 }
        requires syncs { SyncsWait (state self.old.trail) (seen_parts self.old).listed.replies }
        ensures { (op : Done) (later : List Done) → self.old.stock.layout.ops ≡ op ∷ later
            → (tickets : List ℕ) × FinishesOp (D.commands (seen_parts self.old).drive) op tickets (seen_parts self.old)
            (seen_parts self.new) }
    {
        self.take_op(place, flush);
        self.answer_syncs();
    }

    /// The first op stands no more.
    #[tactic(auto, using(crate::proofs::VolumeSteps::StepLemmas::stands_behind))]
    fn take_op(&mut self, place: Place, flush: bool)
        requires op { IsFirstOp (seen_parts self.old) place flush }
        requires allowed { allows (state self.old.trail) (the_events.Worked place None) ≡ true }
        requires near { place.pos < 2 ^ 63 }
        ensures { TakesOp place flush (seen_parts self.old) (seen_parts self.new) }
    {
        self.stock.done_op();
        let head = head_behind(place, flush);
        self.trail
            .write(Event::Worked { place, fault: None }, head, 0);
        if settles(place, flush) {
            self.turn_on();
        }
    }

    /// From now on files may go to the index partition.
    fn turn_on(&mut self)
        ensures { self.new ≡ record self.old {
          stock = record self.old.stock { layout = record self.old.stock.layout { ip_on = true } };
          on = on_from (length self.old.placements.history) self.old.on;
        } }
    {
        self.stock.on();
        match self.on {
            Some(_) => (),
            None => self.on = Some(self.placements.len()),
        }
    }

    /// Answers each sync that is due.
    fn answer_syncs(&mut self)
        requires { SyncsWait (state self.old.trail) (seen_parts self.old).listed.replies }
        ensures { (tickets : List ℕ)
            × AnswersSyncs (D.commands (seen_parts self.old).drive) tickets (seen_parts self.old)
            (seen_parts self.new) }
    {
        let commands = self.head.commands();
        while let Some(ticket) = self.trail.due() {
            let head = self.trail.head();
            self.trail.write(Event::Synced { ticket }, head, commands);
            self.placements
                .answer(ticket, Reply::Answer(Answer::Synced));
        }
        // The events are a trail.
        let _at = self.trail.head();
    }

    /// The first op failed: who has waited longest is told, or its session once it asks.
    fn fail_op(&mut self, place: Place, counts: Twin)
        requires allowed { allows (state self.old.trail) (the_events.Worked place (Some counts)) ≡ true }
        requires syncs { SyncsWait (state self.old.trail) (seen_parts self.old).listed.replies }
        ensures { (op : Done) → place ≡ place_of op → TellsFault op counts (seen_parts self.old) (seen_parts self.new) }
    {
        self.tell_fault(counts);
        let event = Event::Worked {
            place,
            fault: Some(counts),
        };
        self.trail.write(event, place, 0);
        // The events are a trail.
        let _at = self.trail.head();
    }

    /// Who has waited longest is told of a fault, where it is a sync.
    fn tell_fault(&mut self, counts: Twin)
        requires { SyncsWait (state self.old.trail) (seen_parts self.old).listed.replies }
        ensures replies { self.new.placements.replies
            ≡ told_fault (first_waiter (state self.old.trail)) counts self.old.placements.replies }
        ensures listed { KeepsListed (seen_parts self.old) (seen_parts self.new) }
        ensures others { self.new ≡ record self.old { placements = self.new.placements } }
    {
        match self.trail.first_waiter() {
            Some(Waiter::Sync(ticket)) => self.placements.answer(ticket, Reply::Fault(counts)),
            Some(Waiter::Drain(_)) => (),
            None => (),
        }
    }

    /// Reads the block of a request.
    fn serve(&mut self, node: u32, owner: u64, place: Place)
        requires can { CanStep D.Drive (seen_parts self.old) }
        requires ready { IsReady D.Drive (seen_parts self.old) }
        requires picked { IsPicked (state self.old.trail).head (op_place (state self.old.trail)) self.old.queue.waiting
            node owner place }
        ensures { (added : List Event) × StepsOn D.Drive added (seen_parts self.old) (seen_parts self.new) }
    {
        match self.head.step(Work::Read(place)) {
            StepDone::Failed(counts) => self.fail_read(owner, place, counts),
            StepDone::Read(got) => self.take_block(node, owner, place, got),
            StepDone::Wrote | StepDone::Flushed => unreachable!(),
        }
    }

    /// A block was read: its read has its bytes, and is answered once it has them all. A copy is kept.
    fn take_block(&mut self, node: u32, owner: u64, place: Place, got: Got)
        requires allowed { allows (state self.old.trail) (the_events.Served owner place None) ≡ true }
        requires near { place.pos < 2 ^ 63 }
        requires node { (one : Waiting) × IsIn self.old.queue.waiting one × (one.node ≡ node) × (one.owner ≡ owner)
            × (one.place ≡ place) }
        requires read { HasTicket (seen_parts self.old).reads owner }
        requires none { slice_get (seen_parts self.old).listed.replies owner ≡ Some None }
        ensures { TakesBlock owner place got (seen_parts self.old).block (seen_parts self.old) (seen_parts self.new) }
    {
        let event = Event::Served {
            ticket: owner,
            place,
            fault: None,
        };
        self.trail.write(event, behind(place), 0);
        // The events are a trail.
        let _at = self.trail.head();
        self.queue.remove(node);
        self.reads.fill(owner, place, self.head.block());
        keep_block(&mut self.cache, place, got, self.head.block());
        if self.queue.waits(owner) {
            return;
        }
        let answer = self.reads.finish(owner);
        self.placements.answer(owner, Reply::Answer(answer));
    }

    /// The step for a request failed: its read is told, and asks for nothing more.
    fn fail_read(&mut self, owner: u64, place: Place, counts: Twin)
        requires allowed { allows (state self.old.trail) (the_events.Served owner place (Some counts)) ≡ true }
        requires request { IsOneRequest self.old.queue.waiting owner place }
        requires read { HasTicket (seen_parts self.old).reads owner }
        requires none { slice_get (seen_parts self.old).listed.replies owner ≡ Some None }
        ensures { MissesBlock owner place counts (seen_parts self.old) (seen_parts self.new) }
    {
        let event = Event::Served {
            ticket: owner,
            place,
            fault: Some(counts),
        };
        self.trail.write(event, place, 0);
        // The events are a trail.
        let _at = self.trail.head();
        forget_requests(&mut self.queue, owner);
        self.reads.forget(owner);
        self.placements.answer(owner, Reply::Fault(counts));
    }
}

/// Keeps a copy of a block that was read, where there is memory for it. What isn't a block isn't kept.
fn keep_block(cache: &mut BlockCache, place: Place, got: Got, block: &[u8])
    ensures { IsKeptAfter got place block.now cache.old cache.new }
{
    match got {
        Got::Block => cache.keep_copy(place, block),
        Got::Mark => (),
        Got::End => (),
        Got::Torn => (),
    }
}
