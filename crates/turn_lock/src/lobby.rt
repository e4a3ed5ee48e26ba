//! The lobby, in which callers wait before they draw a ticket.
use std::sync::Wait;
use std::sync::atomic::AtomicU64;
use std::sync::atomic::Ordering::SeqCst;
use std::time::Duration;

/// How many microseconds the others go on after a caller is called: for some turns, so that its wake costs little
/// beside them.
const REST: u64 = 100;

/// Tickets are served in the order in which they are drawn. If all callers drew theirs as they came, each turn would
/// end with the wake of another thread, which takes longer than a short turn. So only who finds the lock free draws at
/// once. The others wait here, and one of them at a time is called, rests while others still take turns, and then
/// draws.
///
/// No call is missed. Who waits announces it first and then looks whether the lock is free. Who ends a turn serves the
/// next ticket first, and, where there is none, asks whether somebody waits. So one of the two sees the other. Who
/// takes a call draws a ticket, and calls again when that turn ends.
#[derive(Drop)]
pub(crate) struct Lobby {
    waiting: AtomicU64,
    /// 1 from a call until somebody takes it, else 0.
    called: AtomicU64,
}

impl Lobby {
    pub(crate) fn new() -> Lobby {
        Lobby {
            waiting: AtomicU64::new(0),
            called: AtomicU64::new(0),
        }
    }

    /// Announces a caller that waits.
    pub(crate) fn enter(&self) {
        self.waiting.fetch_add(1, SeqCst);
    }

    /// The caller waits no more.
    pub(crate) fn leave(&self) {
        self.waiting.fetch_sub(1, SeqCst);
    }

    /// Calls one of those that wait, if the last call was taken.
    pub(crate) fn call(&self) {
        if self.waiting.load(SeqCst) != 0 && self.called.swap(1, SeqCst) == 0 {
            self.called.wake_one();
        }
    }

    /// Takes the call, if there is one.
    pub(crate) fn take_call(&self) -> bool {
        self.called.swap(0, SeqCst) == 1
    }

    /// Sleeps until somebody is called. Where somebody is, rests, and takes the call unless another caller has.
    pub(crate) fn sleep<R: Wait>(&self, rt: &R) -> bool {
        if self.called.load(SeqCst) == 0 {
            self.called.park(rt, 0);
            return false;
        }
        self.called.park_timeout(rt, 1, Duration::from_micros(REST));
        self.take_call()
    }
}
