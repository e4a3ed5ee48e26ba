//! The volume, and its calls.

ghost use Rattle.std.specs.Prelude.{◌≡◌, ◌≤◌, ◌<◌, ◌+◌, ◌-◌, ℕ, [], length, slice_get, IfErr, IfNone, IfOk, IfSome, Some};
ghost use Rattle.session_script.specs.Grammar.{calls_of};
ghost use Rattle.session_script.specs.Sessions.{greatest_session};
ghost use Rattle.event_journal.specs.LetGo.{MayBeGoneAt};
ghost use Rattle.cartridge_meaning.specs.Mounts.{IsMount, Mounts};
ghost use Rattle.promises.specs.ServingPromise.Ends.{Closes, Parts as LeavesApart, Starts};
ghost use Rattle.promises.specs.ServingPromise.Marks.{NothingWaits, draining, phase, waits};
ghost use Rattle.promises.specs.ServingPromise.Meanings.{cartridges};
ghost use Rattle.promises.specs.ServingPromise.Served.{IsServed};
ghost use Rattle.promises.specs.ServingPromise.Steps.{DrainsOnce, Turns};
ghost use Rattle.promises.specs.ServingPromise.Submits.{CanSubmit, Submits};
ghost use Rattle.promises.specs.OrderLaws.Kept.{seen};
ghost use Rattle.promises.specs.CrashLaws.May.{MayStart};
ghost use Rattle.run_laws.specs.LogLaws.Acts.{Moves};
ghost use Rattle.run_laws.specs.LogLaws.Loads.{load_of, taken_by, taken_by_drain};
ghost use Rattle.volume_core.specs.Promised.{LeavesOwnIndexes};
ghost use Rattle.volume_core.specs.Serving.{next_moment};

use crate::closing::close;
use crate::draining::drain;
use crate::laws::closes_end;
use crate::starting::begin;
use crate::submitting::{ask, submit};
use crate::turning::turn;
use crate::volume_steps::Parts;
use cartridge_meaning::Mounted;
use held_volume::Stock;
use plain_tree::{Call, Placed};
use promises::serving_promise::{Closed, Drained, Kept, Submitted, Turn};
use session_script::{KeptReply, Reply, Script};
use std::alloc::Global;
use std::marker::Model;
use std::snapshot::Snapshot;
use tape_drive::Drive;
use tape_edge::Clock;

/// A volume while its sessions are served. Contracts see its history, what was told to each session, and what the drive
/// holds.
#[derive(Drop)]
pub struct Volume<D: Drive, C: Clock> {
    parts: Parts<D>,
    clock: C,
    script: Script,
    alloc: Global,
    /// Room for the replies of the log.
    told: Vec<KeptReply>,
    /// Whether both notes told of the last indexes when the volume was mounted.
    noted: bool,
    mounted: Snapshot<Mounted>,
    first: Snapshot<D>,
    stock: Snapshot<Stock>,
    watch: Snapshot<C>,
    since: Snapshot<u64>,
}

impl<D: Drive, C: Clock> Model for Volume<D, C> {
    ghost use Rattle.std.specs.Prelude.{◌≡◌, ◌≤◌, [], length, vec_capacity};
    ghost use Rattle.std.specs.FinMap as fin;
    ghost use Rattle.std.specs.Coded.{codes, coded_list, coded_ℕ};
    ghost use Rattle.plain_tree.specs.Paths.{path_cmp};
    ghost use Rattle.plain_tree.specs.contracts.nodes.Node as node;
    ghost use Rattle.promises.specs.ServingPromise.Served.{View};
    ghost use Rattle.volume_state.specs.StateLaws.Parts.{view_of};
    ghost use Rattle.volume_core.specs.VolumeSteps.Seen.{seen_parts};
    ghost use Rattle.volume_core.specs.Serving.{IsServing, fixed_of, next_moment};

    ghost Value = { View D };

    ghost coded = { Prim.hlevel (codes, fin.code {R = path_cmp} (coded_list (coded_list coded_ℕ)) node.the_row.coded) };

    ghost view = { λ a. view_of
        (fixed_of D.held a.script a.mounted.value a.first.value a.stock.value.tree (C.one a.watch.value) a.since.value)
        (next_moment (C.one a.clock) (C.next a.clock)) (seen_parts a.parts) };

    ghost invariant = { λ a. IsServing D.Drive
        (fixed_of D.held a.script a.mounted.value a.first.value a.stock.value.tree (C.one a.watch.value) a.since.value)
        (C.one a.clock) (C.next a.clock) (seen_parts a.parts)
        × (a.told.items ≡ []) × (a.parts.placements.calls ≤ vec_capacity a.told)
        × (a.noted ≡ a.mounted.value.noted) };
}

impl<D: Drive, C: Clock> Volume<D, C> {
    /// Begins to serve a volume that was mounted. Of crashes is spoken since a number of the drive's commands, which is
    /// the caller's choice; the drive had reached it. It makes no command of the drive. Where memory is spared, names and
    /// bytes of replies go as `reply` tells. The refusal is want of memory.
    pub fn start(
        alloc: Global,
        mounted: Mounted,
        drive: D,
        clock: C,
        script: Script,
        since: Snapshot<u64>,
        spares: bool,
    ) -> Result<Volume<D, C>, Kept<D, C>>
        requires mounts { IfSome (D.held drive) (λ c. Mounts c mounted) }
        requires mount { IsMount (D.limits drive) mounted }
        requires reached { since.value ≤ D.commands drive }
        requires allowed { MayStart D.Drive mounted drive script (C.one clock) since.value }
        ensures err { IfErr result (λ k. (k.drive ≡ drive) × (k.clock ≡ clock)) }
        ensures ok { IfOk result (λ v. Starts cartridges (seen D.Drive drive) mounted drive script since.value
            (next_moment (C.one clock) (C.next clock)) (C.one clock) v) }
        ensures served { IfOk result (λ v. IsServed cartridges (seen D.Drive drive) (seen D.Drive drive) v) }
    {
        let mount = Snapshot::of(&mounted);
        let first = Snapshot::of(&drive);
        let watch = Snapshot::of(&clock);
        let noted = mounted.noted;
        let calls = script.len() as usize;
        let sessions = usize::from(script.sessions());
        let Ok(told) = Vec::with_capacity(alloc, calls) else {
            return Err(Kept { drive, clock });
        };
        match begin(alloc, mounted, drive, calls, sessions, spares) {
            Ok(parts) => {
                let stock = Snapshot::of(&parts.stock);
                Ok(Volume {
                    parts,
                    clock,
                    script,
                    alloc,
                    told,
                    noted,
                    mounted: mount,
                    first,
                    stock,
                    watch,
                    since,
                })
            }
            Err(drive) => Err(Kept { drive, clock }),
        }
    }

    /// Places the next call of a session, or puts a write off while more than 64 ops stand. It takes all the memory
    /// that the call needs, and makes no command of the drive.
    pub fn submit(&mut self, who: u16, nth: u32) -> Submitted
        requires { CanSubmit self.old who nth }
        ensures served { IsServed cartridges (seen D.Drive self.new.fixed.first) (seen D.Drive self.new.drive)
            self.new }
        ensures submits { Submits (seen D.Drive self.old.fixed.first) (seen D.Drive self.new.drive) self.old self.new
            who nth result }
        ensures load { load_of self.new ≤ load_of self.old + (length self.new.events - length self.old.events) }
    {
        let call = self.script.call(who, nth);
        submit(&mut self.parts, &mut self.clock, self.alloc, call, who, nth)
    }

    /// Hands out the reply of a session that waits for a place, or makes a step of the head where the reply isn't
    /// there. It needs no memory: a block that was read is kept where there is some for a copy of it.
    ///
    /// A turn that doesn't bring the reply takes one away at least of what is left to do; no turn adds to that, and a
    /// submission adds one at most for each of its events. So a session has as many turns at most before its reply
    /// comes as there was left to do when its call was placed, and as submissions have added since.
    pub fn turn(&mut self, ticket: u64) -> Turn
        requires { (who : ℕ) × (phase who self.old.marks ≡ waits ticket) }
        ensures served { IsServed cartridges (seen D.Drive self.new.fixed.first) (seen D.Drive self.new.drive)
            self.new }
        ensures turns { (who : ℕ) → phase who self.old.marks ≡ waits ticket
            → Turns D.MOST (seen D.Drive self.old.drive) (seen D.Drive self.new.drive) self.old self.new who ticket
            result }
        ensures moves { Moves D.Drive self.old self.new }
        ensures load { load_of self.new + taken_by result ≤ load_of self.old }
    {
        turn(&mut self.parts, ticket)
    }

    /// Makes a step of the head for a session that drains, unless there is room for its write or a fault is kept for
    /// it, with which the write is placed void. It needs no memory, as a turn.
    pub fn drain_turn(&mut self, who: u16) -> Drained
        requires { phase who self.old.marks ≡ draining }
        ensures served { IsServed cartridges (seen D.Drive self.new.fixed.first) (seen D.Drive self.new.drive)
            self.new }
        ensures drains { DrainsOnce D.MOST (seen D.Drive self.old.drive) (seen D.Drive self.new.drive) self.old self.new
            who result }
        ensures moves { Moves D.Drive self.old self.new }
        ensures load { load_of self.new + taken_by_drain result ≤ load_of self.old }
    {
        // Its calls are counted in 32 bits.
        let _calls = self.script.count(who);
        drain(&mut self.parts, &mut self.clock, who)
    }

    /// How many calls a session has in the script.
    pub fn count(&self, who: u16) -> u32
        ensures { result ≡ length (calls_of self.now.fixed.script who) }
    {
        self.script.count(who)
    }

    /// How many marks there are: of placements, of replies that were handed out, and of drains that began or ended.
    pub fn marks(&self) -> u64
        ensures { result ≡ length self.now.marks }
    {
        self.parts.placements.count_marks()
    }

    /// How many calls were placed.
    pub fn placements(&self) -> u64
        ensures { result ≡ length self.now.history }
    {
        self.parts.placements.len()
    }

    /// The reply at a place of the history, where it is there. A long one may be gone, once it and all before it were
    /// handed out and a call was placed behind that.
    pub fn reply(&self, place: u64) -> Option<&Reply>
        ensures some { IfSome result (λ r. slice_get self.now.replies place ≡ Some (Some r.now)) }
        ensures none { IfNone result (MayBeGoneAt place self.now.replies self.now.marks) }
    {
        self.parts.placements.reply(place)
    }

    /// What was placed here.
    pub fn placed(&self, place: u64) -> Placed
        requires { place < length self.now.history }
        ensures { slice_get self.now.history place ≡ Some result }
    {
        self.parts.placements.placed(place)
    }

    /// Whatever was asked of it, all is kept that is promised of a served volume.
    pub fn keeps(&self)
        ensures { IsServed cartridges (seen D.Drive self.now.fixed.first) (seen D.Drive self.now.drive) self.now }
    {
        // What is kept of a volume holds of its parts.
        let _parts = &self.parts;
    }

    /// Takes a volume apart of which nothing was asked yet. It makes no command of the drive.
    pub fn part(self) -> Kept<D, C>
        requires { self.history ≡ [] }
        ensures drive { LeavesApart self result.drive }
        ensures clock { next_moment (C.one result.clock) (C.next result.clock) ≡ self.next }
    {
        let Volume { parts, clock, .. } = self;
        let drive = parts.head.into_drive();
        Kept { drive, clock }
    }

    /// The script whose calls are served.
    pub fn script(&self) -> &Script
        ensures { result.now ≡ self.now.fixed.script }
    {
        &self.script
    }

    /// Closes a volume in which nothing waits: what is due of its indexes is written, all ops are done, and the notes
    /// tell of the last indexes. The log is that of all calls; steps and travel are those of its events, without the
    /// close's. Where the drive told a cartridge, the indexes that were put on the data partition are its top.
    pub fn close(self) -> Closed<D>
        requires { NothingWaits (greatest_session self.fixed.script) self.marks }
        ensures own { LeavesOwnIndexes D.Drive self result.drive result.outcome }
        ensures closes { Closes cartridges (seen D.Drive self.fixed.first) (seen D.Drive self.drive)
            (seen D.Drive result.drive) self result.drive result.log result.outcome result.steps result.travel
            result.nodes }
    {
        let Volume {
            parts,
            mut clock,
            told,
            noted,
            ..
        } = self;
        closes_end::<D>();
        let at = ask(&mut clock);
        close(parts, noted, at, told)
    }
}
