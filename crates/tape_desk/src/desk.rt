//! The desk, and its calls.

ghost use Rattle.std.specs.Prelude.{◌≡◌, ◌≤◌, IfOk, IfErr};
ghost use Rattle.session_script.specs.Sessions.{greatest_session};
ghost use Rattle.promises.specs.ServingPromise.Ends.{begun};
ghost use Rattle.promises.specs.ServingPromise.Marks.{NothingWaits};
ghost use Rattle.tape_desk.specs.Held.{constants};
ghost use Rattle.tape_desk.specs.Passes.{AreAll, AreDealt, ArePartsOf, Calls, HasMore};

use crate::calling::call;
use crate::closing::gather;
use crate::opening::open;
use crate::pass::DeskPass;
use crate::shelf::{BoxedShelf, Shelf};
use session_script::Reply;
use std::alloc::Global;
use std::marker::Model;
use std::sync::Wait;
use tape_drive::Drive;
use tape_edge::{Clock, Gate, Sink};
use turn_lock::TurnLock;

/// A served volume that sessions share. Contracts see which one it is.
pub struct Desk<D: Drive, C: Clock, K: Sink> {
    lock: TurnLock<BoxedShelf<D, C, K>>,
}

impl<D: Drive, C: Clock, K: Sink> Model for Desk<D, C, K> {
    ghost use Rattle.atomic_table.specs.Seated.{TableId, table_id_coded};

    ghost Value = { TableId };

    ghost coded = { table_id_coded };

    ghost view = { λ d. d.lock };
}

impl<D: Drive, C: Clock, K: Sink> Desk<D, C, K> {
    /// A desk over a shelf of whose volume nothing was asked, and the passes of its sessions, in order. There are as many as
    /// the script has. The refusal is want of memory, and hands the shelf back.
    pub fn open(
        alloc: Global,
        shelf: Shelf<D, C, K>,
        sessions: u16,
    ) -> Result<(Desk<D, C, K>, Vec<DeskPass<D, C, K>>), Shelf<D, C, K>>
        requires some { 1 ≤ sessions }
        requires sessions { sessions ≡ greatest_session shelf.volume.fixed.script }
        requires fresh { shelf.volume ≡ begun shelf.volume.fixed shelf.volume.next }
        ensures ok { IfOk result (λ r. AreDealt r.0 sessions (constants shelf) r.1.items) }
        ensures err { IfErr result (λ s. s ≡ shelf) }
    {
        let (lock, passes) = open(alloc, shelf, sessions)?;
        Ok((Desk { lock }, passes))
    }

    /// Makes the session's next call: places it, and takes turns until its reply is there. A write is put off as long
    /// as too many ops stand. The session passes the gate before each of its turns.
    pub fn call<R: Wait, G: Gate>(&self, rt: &R, pass: &mut DeskPass<D, C, K>, gate: &G) -> Reply
        requires of { pass.old.lock ≡ self.now }
        requires more { HasMore pass.old }
        ensures { Calls pass.old pass.new result }
    {
        call(&self.lock, rt, pass, gate)
    }

    /// Ends the desk. Of each pass the volume has just the marks that it has seen, and nothing waits in it.
    pub fn close_desk(self, passes: Vec<DeskPass<D, C, K>>) -> Shelf<D, C, K>
        requires passes { AreAll self passes.items }
        ensures parts { ArePartsOf passes.items result }
        ensures nothing { NothingWaits (greatest_session result.volume.fixed.script) result.volume.marks }
    {
        let Desk { lock } = self;
        gather(lock, passes)
    }
}
