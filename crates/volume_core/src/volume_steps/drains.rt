//! Writes that are put off.

ghost use Rattle.std.specs.Prelude.{◌≡◌, ◌<◌, ◌≤◌, length, true, OnErr, OnOk};
ghost use Rattle.head_queue.specs.EventLaws.Trail.{allows};
ghost use Rattle.session_script.specs.declared.logs.Event.TheVariants as events;
ghost use Rattle.event_journal.specs.Trails.{state};
ghost use Rattle.volume_state.specs.StateLaws.Placing.{PutsOff};
ghost use Rattle.volume_core.specs.VolumeSteps.Asking.{CanAsk, Reserves};
ghost use Rattle.volume_core.specs.VolumeSteps.Seen.{seen_parts};

use crate::volume_steps::parts::Parts;
use session_script::Event;
use tape_drive::Drive;
use tape_types::NoMemory;

impl<D: Drive> Parts<D> {
    /// A write is put off: its session begins to drain.
    #[tactic(auto, using(crate::proofs::VolumeSteps::SubmitLemmas::puts_off))]
    pub fn begin_drain(&mut self, who: u16) -> Result<(), NoMemory>
        requires can { CanAsk who (seen_parts self.old) }
        requires many { 64 < length (seen_parts self.old).stock.layout.ops }
        requires allowed { allows (state self.old.trail) (events.Drains who) ≡ true }
        ensures ok { OnOk result (PutsOff who (seen_parts self.old) (seen_parts self.new)) }
        ensures err { OnErr result (Reserves (seen_parts self.old) (seen_parts self.new)) }
        ensures answered { self.new.reads.answered ≡ self.old.reads.answered }
    {
        self.reserve_drain()?;
        let head = self.trail.head();
        self.trail.write(Event::Drains { who }, head, 0);
        // The events are a trail.
        let _head = self.trail.head();
        self.placements.begin(who);
        Ok(())
    }

    /// Makes room for a session that begins to drain.
    #[tactic(auto, using(crate::proofs::VolumeSteps::SubmitLemmas::reserved))]
    fn reserve_drain(&mut self) -> Result<(), NoMemory>
        ensures reserves { Reserves (seen_parts self.old) (seen_parts self.new) }
        ensures stock { self.new.stock ≡ self.old.stock }
        ensures answered { self.new.reads.answered ≡ self.old.reads.answered }
        ensures spare { OnOk result (2 ≤ self.new.trail.spare) }
        ensures waiters { OnOk result (1 ≤ self.new.trail.waiters) }
        ensures marks { OnOk result (2 ≤ self.new.placements.spare) }
    {
        self.trail.reserve(1)?;
        self.placements.reserve_drain()
    }
}
