//! The sessions of a script, and how their run ends.

ghost use Rattle.std.specs.Prelude.{◌≡◌, ◌≤◌};
ghost use Rattle.session_script.specs.Sessions.{greatest_session};
ghost use Rattle.promises.specs.ServingPromise.Ends.{begun};
ghost use Rattle.session_run.specs.Ran.{HasRun};

use crate::host::Host;
use crate::threads::make_all;
use std::sync::Wait;
use std::thread::Threads;
use tape_desk::{Desk, Shelf};
use tape_drive::Drive;
use tape_edge::{Clock, Gate, Sink};

/// How a run of sessions ended.
#[derive(Clone, Copy, Debug, PartialEq, Eq)]
pub enum RanEnd {
    /// All calls were made.
    Done,
    /// Memory was refused before the first call.
    NoMemory,
}

/// The volume and what has printed its log, behind a run of its sessions.
pub struct Ran<D: Drive, C: Clock, K: Sink> {
    pub shelf: Shelf<D, C, K>,
    pub outcome: RanEnd,
}

/// Makes all calls of all sessions of the script of the shelf's volume: each session its own in order, in a thread of
/// its own where threads can be made. Each passes the gate before each of its turns, and once more behind its last
/// reply. There are as many sessions as the script has. Where memory is refused nothing was asked of the volume.
pub fn run_sessions<
    R: Threads + Wait + Sync,
    D: Drive + Send,
    C: Clock + Send,
    K: Sink + Send,
    G: Gate + Sync,
>(host: &Host<'_, R, G>, shelf: Shelf<D, C, K>, sessions: u16) -> Ran<D, C, K>
    requires sessions { sessions ≡ greatest_session shelf.volume.fixed.script }
    requires fresh { shelf.volume ≡ begun shelf.volume.fixed shelf.volume.next }
    ensures { HasRun D.Drive shelf result.shelf result.outcome }
{
    if sessions == 0 {
        run_none(shelf)
    } else {
        run_some(host, shelf, sessions)
    }
}

/// A run of a script without a call.
fn run_none<D: Drive, C: Clock, K: Sink>(shelf: Shelf<D, C, K>) -> Ran<D, C, K>
    requires none { greatest_session shelf.volume.fixed.script ≡ 0 }
    requires fresh { shelf.volume ≡ begun shelf.volume.fixed shelf.volume.next }
    ensures { HasRun D.Drive shelf result.shelf result.outcome }
{
    let Shelf { volume, printer } = shelf;
    // Each session of a call is at most the greatest one.
    let _none = volume.script().sessions();
    Ran {
        shelf: Shelf { volume, printer },
        outcome: RanEnd::Done,
    }
}

/// A run of one session or more.
fn run_some<
    R: Threads + Wait + Sync,
    D: Drive + Send,
    C: Clock + Send,
    K: Sink + Send,
    G: Gate + Sync,
>(host: &Host<'_, R, G>, shelf: Shelf<D, C, K>, sessions: u16) -> Ran<D, C, K>
    requires some { 1 ≤ sessions }
    requires sessions { sessions ≡ greatest_session shelf.volume.fixed.script }
    requires fresh { shelf.volume ≡ begun shelf.volume.fixed shelf.volume.next }
    ensures { HasRun D.Drive shelf result.shelf result.outcome }
{
    // Each session of a call is at most the greatest one.
    let _most = shelf.volume.script().sessions();
    let (desk, mut passes) = match Desk::open(host.alloc, shelf, sessions) {
        Ok(dealt) => dealt,
        Err(shelf) => {
            return Ran {
                shelf,
                outcome: RanEnd::NoMemory,
            };
        }
    };
    make_all(host.rt, &desk, passes.as_mut_slice(), host.gate);
    let closed = desk.close_desk(passes);
    let Shelf { volume, printer } = closed;
    Ran {
        shelf: Shelf { volume, printer },
        outcome: RanEnd::Done,
    }
}
