//! Gates, which sessions pass before each turn.

use std::alloc::{AllocError, Global};
use std::sync::atomic::{AtomicBool, AtomicU64, Ordering};
use std::thread;
use tape_types::{List, NoMemory};

/// Where a session passes before each of its turns, and once more behind its last reply. It answers nothing, so what a
/// session is told doesn't hang on it; it may take its time.
pub trait Gate {
    /// A session has had `nth` replies, and has made `turn` turns of its present call.
    fn at(&self, who: u16, nth: u32, turn: u32);
}

/// A gate that holds nobody.
#[derive(Drop)]
pub struct OpenGate;

impl Gate for OpenGate {
    fn at(&self, _who: u16, _nth: u32, _turn: u32) {}
}

/// Holds session `who` at its point (`nth`, `turn`) until session `other` has been at the point (`reach_nth`,
/// `reach_turn`), or at a later one.
#[derive(Clone, Copy, Debug, PartialEq, Eq)]
pub struct Hold {
    pub who: u16,
    pub nth: u32,
    pub turn: u32,
    pub other: u16,
    pub reach_nth: u32,
    pub reach_turn: u32,
}

/// Of so many sessions, from number 1 on, an `OrderGate` keeps the last point.
const SESSIONS: u16 = 128;

/// A gate that holds sessions by rules, so that a test can say in which order they go.
#[derive(Drop)]
pub struct OrderGate {
    rules: List<Hold>,
    limit: u64,
    /// For each session the last point at which it was, or 0 where it was at none.
    points: Vec<AtomicU64>,
    late: AtomicBool,
}

impl OrderGate {
    /// A session that is held looks at most `limit` times where the other one is, and then goes. A rule that names
    /// another session than 1 to 128 is ignored.
    pub fn new(alloc: Global, rules: List<Hold>, limit: u64) -> Result<OrderGate, NoMemory> {
        let Ok(points) = points_of(alloc) else {
            return Err(NoMemory);
        };
        Ok(OrderGate {
            rules,
            limit,
            points,
            late: AtomicBool::new(false),
        })
    }

    /// Whether a session was ever let go by the limit.
    pub fn late(&self) -> bool {
        self.late.load(Ordering::SeqCst)
    }

    /// The last point of a session, where it is kept.
    fn point(&self, who: u16) -> Option<&AtomicU64> {
        let before = who.checked_sub(1)?;
        self.points.get(usize::from(before))
    }

    /// Looks at most so many times whether a session has come to a point.
    fn awaits(&self, other: &AtomicU64, reached: u64) -> bool {
        for _ in 0..self.limit {
            if other.load(Ordering::SeqCst) >= reached {
                return true;
            }
            thread::yield_now();
        }
        false
    }

    /// Holds a session by one rule.
    fn hold(&self, rule: &Hold) {
        if self.point(rule.who).is_none() {
            return;
        }
        let Some(other) = self.point(rule.other) else {
            return;
        };
        if !self.awaits(other, point_of(rule.reach_nth, rule.reach_turn)) {
            self.late.store(true, Ordering::SeqCst);
        }
    }
}

impl Gate for OrderGate {
    fn at(&self, who: u16, nth: u32, turn: u32) {
        if let Some(point) = self.point(who) {
            point.store(point_of(nth, turn), Ordering::SeqCst);
        }
        for rule in self.rules.as_slice() {
            if rule.who == who && rule.nth == nth && rule.turn == turn {
                self.hold(rule);
            }
        }
    }
}

/// A point as a number, which is greater for a later one, and 0 for none.
fn point_of(nth: u32, turn: u32) -> u64 {
    ((u64::from(nth) << 32) | u64::from(turn)).saturating_add(1)
}

fn points_of(alloc: Global) -> Result<Vec<AtomicU64>, AllocError> {
    let mut points = Vec::new(alloc);
    for _ in 0..SESSIONS {
        points.push(AtomicU64::new(0))?;
    }
    Ok(points)
}
