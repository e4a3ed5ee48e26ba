//! The sessions of a desk in their threads.

ghost use Rattle.std.specs.Prelude.{◌≡◌, ◌<◌, ℕ, length, slice_index_or};
ghost use Rattle.tape_desk.specs.Passes.{DeskView};
ghost use Rattle.session_run.specs.Ran.{IsDone};

use std::sync::Wait;
use std::thread;
use std::thread::Threads;
use tape_desk::{Desk, DeskPass};
use tape_drive::Drive;
use tape_edge::{Clock, Gate, Sink};

/// Makes all calls of one session.
fn make_calls<R: Wait, D: Drive, C: Clock, K: Sink, G: Gate>(
    rt: &R,
    desk: &Desk<D, C, K>,
    pass: &mut DeskPass<D, C, K>,
    gate: &G,
)
    requires { pass.old.lock ≡ desk.now }
    ensures { IsDone pass.old pass.new }
{
    let count = pass.count();
    while pass.placed() < count {
        desk.call(rt, pass, gate);
    }
    gate.at(pass.who(), count, 0);
}

/// Makes all calls of all sessions, each session's in a thread of its own where one can be made.
pub fn make_all<
    R: Threads + Wait + Sync,
    D: Drive + Send,
    C: Clock + Send,
    K: Sink + Send,
    G: Gate + Sync,
>(rt: &R, desk: &Desk<D, C, K>, passes: &mut [DeskPass<D, C, K>], gate: &G)
    requires { (k : ℕ) (p : DeskView D K) → k < length passes.old → (slice_index_or passes.old k p).lock ≡ desk.now }
    ensures { (k : ℕ) (p : DeskView D K) → k < length passes.old
        → IsDone (slice_index_or passes.old k p) (slice_index_or passes.new k p) }
{
    let threads = passes.len().max(1);
    thread::for_each_mut(
        rt,
        passes,
        threads,
        &|_, pass: &mut DeskPass<D, C, K>|
            requires { pass.old.lock ≡ desk.now }
            ensures { IsDone pass.old pass.new }
        { make_calls(rt, desk, pass, gate) },
    );
}
