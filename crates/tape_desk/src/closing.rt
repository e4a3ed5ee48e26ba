//! How a desk is closed.

ghost use Rattle.std.specs.Prelude.{◌≡◌, false};
ghost use Rattle.session_script.specs.Sessions.{greatest_session};
ghost use Rattle.promises.specs.ServingPromise.Marks.{NothingWaits};
ghost use Rattle.tape_desk.specs.Gathering.{IsPassOf, TakesIn};
ghost use Rattle.tape_desk.specs.Passes.{AreAll, ArePartsOf};

use crate::pass::DeskPass;
use crate::shelf::{BoxedShelf, Shelf};
use tape_drive::Drive;
use tape_edge::{Clock, Sink};
use turn_lock::{Pass, TurnLock};

/// What a lock holds, once all passes were handed in.
pub fn gather<D: Drive, C: Clock, K: Sink>(
    lock: TurnLock<BoxedShelf<D, C, K>>,
    passes: Vec<DeskPass<D, C, K>>,
) -> Shelf<D, C, K>
    requires passes { AreAll lock passes.items }
    ensures parts { ArePartsOf passes.items result }
    ensures nothing { NothingWaits (greatest_session result.volume.fixed.script) result.volume.marks }
{
    let mut passes = passes;
    let Some(last) = passes.pop() else {
        unreachable!()
    };
    let mut whole = into_pass(last);
    while let Some(next) = passes.pop() {
        take_in(&lock, &mut whole, next);
    }
    let BoxedShelf { shelf: boxed } = lock.close(whole);
    let shelf = Box::into_inner(boxed);
    // What is kept of a shelf holds of its volume.
    let Shelf { volume, printer } = shelf;
    Shelf { volume, printer }
}

/// Joins a session's pass to those that were taken in before.
fn take_in<D: Drive, C: Clock, K: Sink>(
    lock: &TurnLock<BoxedShelf<D, C, K>>,
    whole: &mut Pass<BoxedShelf<D, C, K>>,
    next: DeskPass<D, C, K>,
)
    requires of { (whole.old.lock ≡ lock.now) × (next.lock ≡ lock.now) }
    requires out { whole.old.in_turn ≡ false }
    ensures { TakesIn next whole.old whole.new }
{
    lock.join(whole, into_pass(next));
}

/// The lock's pass in a session's.
fn into_pass<D: Drive, C: Clock, K: Sink>(next: DeskPass<D, C, K>) -> Pass<BoxedShelf<D, C, K>>
    ensures { IsPassOf next result }
{
    let DeskPass { pass, .. } = next;
    pass
}
