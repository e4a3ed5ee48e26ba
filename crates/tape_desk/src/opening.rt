//! How a desk is opened.

ghost use Rattle.std.specs.Prelude.{◌≡◌, ◌≤◌, ◌<◌, ◌∷◌, [], length, vec_capacity, IfOk, IfErr, IfSome, Some};
ghost use Rattle.session_script.specs.Sessions.{greatest_session};
ghost use Rattle.promises.specs.ServingPromise.Ends.{begun};
ghost use Rattle.tape_desk.specs.Dealing.{AreCounts, CanBegin, CanDeal};
ghost use Rattle.tape_desk.specs.Held.{Constants, constants};
ghost use Rattle.tape_desk.specs.Passes.{AreDealt, view_of};

use crate::pass::DeskPass;
use crate::shelf::{BoxedShelf, Shelf};
use std::alloc::Global;
use tape_drive::Drive;
use tape_edge::{Clock, Sink};
use turn_lock::{Pass, TurnLock};

/// A lock around a volume of which nothing was asked, and the passes of its sessions, in order.
pub fn open<D: Drive, C: Clock, K: Sink>(
    alloc: Global,
    shelf: Shelf<D, C, K>,
    sessions: u16,
) -> Result<(TurnLock<BoxedShelf<D, C, K>>, Vec<DeskPass<D, C, K>>), Shelf<D, C, K>>
    requires some { 1 ≤ sessions }
    requires sessions { sessions ≡ greatest_session shelf.volume.fixed.script }
    requires fresh { shelf.volume ≡ begun shelf.volume.fixed shelf.volume.next }
    ensures ok { IfOk result (λ r. AreDealt r.0 sessions (constants shelf) r.1.items) }
    ensures err { IfErr result (λ s. s ≡ shelf) }
{
    let Some(counts) = counts_of(alloc, &shelf, sessions) else {
        return Err(shelf);
    };
    let Ok(passes) = Vec::with_capacity(alloc, usize::from(sessions)) else {
        return Err(shelf);
    };
    let held = match Box::new(alloc, shelf) {
        Ok(shelf) => BoxedShelf { shelf },
        Err(failed) => return Err(failed.value),
    };
    match TurnLock::new(alloc, held, sessions) {
        Ok((lock, whole)) => {
            let passes = deal(&lock, whole, sessions, counts.as_slice(), passes);
            Ok((lock, passes))
        }
        Err(BoxedShelf { shelf }) => Err(Box::into_inner(shelf)),
    }
}

/// How many calls each session has. The refusal is want of memory.
fn counts_of<D: Drive, C: Clock, K: Sink>(
    alloc: Global,
    shelf: &Shelf<D, C, K>,
    sessions: u16,
) -> Option<Vec<u32>>
    ensures { IfSome result (λ counts. AreCounts shelf.now.volume.fixed.script sessions counts.items) }
{
    let mut counts = Vec::with_capacity(alloc, usize::from(sessions)).ok()?;
    for who in 0..sessions {
        counts.push_reserved(shelf.count(who + 1));
    }
    Some(counts)
}

/// Deals the numbers of a lock to passes of one session each, from the last down.
fn deal<D: Drive, C: Clock, K: Sink>(
    lock: &TurnLock<BoxedShelf<D, C, K>>,
    whole: Pass<BoxedShelf<D, C, K>>,
    sessions: u16,
    counts: &[u32],
    passes: Vec<DeskPass<D, C, K>>,
) -> Vec<DeskPass<D, C, K>>
    requires some { 1 ≤ sessions }
    requires whole { CanDeal lock.now sessions counts.now whole }
    requires room { (passes.items ≡ []) × (sessions ≤ vec_capacity passes) }
    ensures { (fixed : Constants D K) → whole.fixed ≡ Some fixed → AreDealt lock.now sessions fixed result.items }
{
    let mut whole = whole;
    let mut passes = passes;
    let mut who = sessions;
    while who > 1 {
        let pass = lock.split(&mut whole);
        put_first(&mut passes, begin(pass, who, counts[usize::from(who) - 1]));
        who -= 1;
    }
    put_first(&mut passes, begin(whole, who, counts[0]));
    passes
}

/// The pass of a session that has placed nothing.
fn begin<D: Drive, C: Clock, K: Sink>(
    pass: Pass<BoxedShelf<D, C, K>>,
    who: u16,
    count: u32,
) -> DeskPass<D, C, K>
    requires { CanBegin who count pass }
    ensures { result ≡ view_of pass who 0 }
{
    DeskPass {
        pass,
        who,
        placed: 0,
        count,
    }
}

/// Puts an item before all others, where there is room.
fn put_first<T: Drop>(items: &mut Vec<T>, item: T)
    requires { length items.old.items < vec_capacity items.old }
    ensures items { items.new.items ≡ item ∷ items.old.items }
    ensures capacity { vec_capacity items.old ≤ vec_capacity items.new }
{
    let Ok(()) = items.insert(0, item) else {
        unreachable!()
    };
}
