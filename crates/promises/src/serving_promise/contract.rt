//! The calls of a served volume, as a trait, so that their clauses are read by the checker before there are bodies. The
//! volume itself has these calls as its own, over a drive and a clock that its type names.

ghost use Rattle.std.specs.Prelude.{◌≡◌, ◌≤◌, ℕ, [], Option, IfErr, IfOk, IfSome};
ghost use Rattle.tape_types.specs.declared.moments.Moment.{Moment};
ghost use Rattle.cartridge_meaning.specs.Mounts.{IsMount};
ghost use Rattle.promises.specs.ServingPromise.Submits.{CanSubmit, Submits};
ghost use Rattle.promises.specs.ServingPromise.Steps.{DrainsOnce, Turns};
ghost use Rattle.promises.specs.ServingPromise.Crash.{Meaning};
ghost use Rattle.promises.specs.ServingPromise.Ends.{Closes, Leaves, Parts, Starts};
ghost use Rattle.session_script.specs.Sessions.{greatest_session};
ghost use Rattle.promises.specs.ServingPromise.Marks.{NothingWaits, draining, phase, waits};
ghost use Rattle.promises.specs.ServingPromise.Served.{Drive, IsServed, View};

use crate::serving_promise::answers::{CloseEnd, Drained, Submitted, Turn};
use cartridge_meaning::Mounted;
use session_script::{Log, Script};
use std::snapshot::Snapshot;

/// What a close gives back.
pub struct Closed<D> {
    pub drive: D,
    pub log: Log,
    pub outcome: CloseEnd,
    pub steps: u64,
    pub travel: u64,
    pub nodes: u32,
}

/// The drive and the clock of a volume that wasn't begun, or of which nothing was asked.
pub struct Kept<D, C> {
    pub drive: D,
    pub clock: C,
}

/// What is left of a volume in which nothing waits.
pub struct Left<D> {
    pub drive: D,
    pub log: Log,
}

pub trait Serve {
    type Device;

    type Watch;

    // By how much one command raises the drive's number of commands.
    ghost most: { ℕ };

    ghost meaning: { Meaning };

    // What contracts see of a drive.
    ghost seen: { Self.Device → Drive };

    // What the next call of a clock gives, and what each of its calls gives, where it tells.
    ghost next: { Self.Watch → Option Moment };

    ghost one: { Self.Watch → Option Moment };

    ghost view: { Self → View Self.Device };

    /// Begins to serve a volume that was mounted. The number of commands since which a crash is spoken of is the
    /// caller's choice; the drive had reached it. The refusal is want of memory.
    fn start(
        mounted: Mounted,
        drive: Self::Device,
        clock: Self::Watch,
        script: Script,
        since: Snapshot<u64>,
    ) -> Result<Self, Kept<Self::Device, Self::Watch>>
    where
        Self: Sized,
        requires mounted { IfSome (seen drive).held (λ c. meaning.Mounts c mounted) }
        requires mount { IsMount (seen drive).limits mounted }
        requires reached { since.value ≤ (seen drive).commands }
        ensures err { IfErr result (λ k. (k.drive ≡ drive) × (k.clock ≡ clock)) }
        ensures ok { IfOk result
            (λ v. Starts meaning (seen drive) mounted drive script since.value (next clock) (one clock) (view v)) }
        ensures served { IfOk result (λ v. IsServed meaning (seen drive) (seen drive) (view v)) };

    /// Places the next call of a session.
    fn submit(&mut self, who: u16, nth: u32) -> Submitted
        requires { CanSubmit (view self.old) who nth }
        ensures served { IsServed meaning (seen (view self.new).fixed.first) (seen (view self.new).drive)
            (view self.new) }
        ensures submits { Submits (seen (view self.old).fixed.first) (seen (view self.new).drive) (view self.old)
            (view self.new) who nth result };

    /// Makes a head step for a session that waits, unless its reply is there.
    fn turn(&mut self, ticket: u64) -> Turn
        requires { (who : ℕ) × (phase who (view self.old).marks ≡ waits ticket) }
        ensures served { IsServed meaning (seen (view self.new).fixed.first) (seen (view self.new).drive)
            (view self.new) }
        ensures turns { (who : ℕ) → phase who (view self.old).marks ≡ waits ticket
            → Turns most (seen (view self.old).drive) (seen (view self.new).drive) (view self.old)
            (view self.new) who ticket result };

    /// Makes a head step for a session that drains, unless there is room.
    fn drain_turn(&mut self, who: u16) -> Drained
        requires { phase who (view self.old).marks ≡ draining }
        ensures served { IsServed meaning (seen (view self.new).fixed.first) (seen (view self.new).drive)
            (view self.new) }
        ensures drains { DrainsOnce most (seen (view self.old).drive) (seen (view self.new).drive) (view self.old)
            (view self.new) who result };

    /// Closes a volume in which nothing waits.
    fn close(self) -> Closed<Self::Device>
        requires { NothingWaits (greatest_session (view self).fixed.script) (view self).marks }
        ensures { Closes meaning (seen (view self).fixed.first) (seen (view self).drive) (seen result.drive)
            (view self) result.drive result.log result.outcome result.steps result.travel result.nodes };

    /// Takes a volume apart in which nothing was placed.
    fn part(self) -> Kept<Self::Device, Self::Watch>
        requires { (view self).history ≡ [] }
        ensures drive { Parts (view self) result.drive }
        ensures clock { next result.clock ≡ (view self).next };

    /// Leaves a volume in which nothing waits as it stands.
    fn leave(self) -> Left<Self::Device>
        requires { NothingWaits (greatest_session (view self).fixed.script) (view self).marks }
        ensures { Leaves (view self) result.drive result.log };
}
