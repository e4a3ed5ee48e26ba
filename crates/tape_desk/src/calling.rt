//! A session's call, turn by turn.

ghost use Rattle.std.specs.Prelude.{◌≡◌, ◌∷◌, [], ℕ};
ghost use Rattle.promises.specs.ServingPromise.Marks.{draining, phase, waits};
ghost use Rattle.promises.specs.declared.serving_promise.marks.MarkKind.TheVariants.{Hands as hands};
ghost use Rattle.tape_desk.specs.Passes.{Calls, HasMore};
ghost use Rattle.tape_desk.specs.Turns.{CanPlace, GoesOn, IsMade, IsOwn};
ghost use Rattle.tape_desk.specs.Turns.{kinds_of_drain, kinds_of_submit, kinds_of_turn, kinds_of_wait};

use crate::pass::DeskPass;
use crate::shelf::BoxedShelf;
use promises::serving_promise::{Drained, Submitted, Turn};
use session_script::Reply;
use std::sync::Wait;
use tape_drive::Drive;
use tape_edge::{Clock, Gate, Sink};
use turn_lock::{Pass, TurnLock};

/// The turns of a call. The session passes the gate before each of them.
#[derive(Drop)]
struct Turns<'a, G> {
    gate: &'a G,
    who: u16,
    nth: u32,
    /// So many were made, as far as 32 bits tell.
    made: u32,
}

impl<'a, G: Gate> Turns<'a, G> {
    /// Passes the gate before the next turn.
    fn pass_gate(&mut self)
        ensures who { self.new.who ≡ self.old.who }
        ensures nth { self.new.nth ≡ self.old.nth }
    {
        self.gate.at(self.who, self.nth, self.made);
        self.made = self.made.saturating_add(1);
    }
}

/// One turn, in which the session's next call is placed or put off.
fn submit<R: Wait, D: Drive, C: Clock, K: Sink>(
    lock: &TurnLock<BoxedShelf<D, C, K>>,
    rt: &R,
    pass: &mut Pass<BoxedShelf<D, C, K>>,
    who: u16,
    nth: u32,
) -> Submitted
    requires of { pass.old.lock ≡ lock.now }
    requires own { IsOwn who pass.old }
    requires can { CanPlace who nth pass.old }
    ensures { (here : ℕ) × GoesOn who (kinds_of_submit here result) pass.old pass.new }
{
    let mut held = lock.enter(rt, pass);
    let answer = held.shelf.submit(who, nth);
    lock.leave(pass, held);
    answer
}

/// One turn of a session that waits for the reply of a place.
fn turn<R: Wait, D: Drive, C: Clock, K: Sink>(
    lock: &TurnLock<BoxedShelf<D, C, K>>,
    rt: &R,
    pass: &mut Pass<BoxedShelf<D, C, K>>,
    who: u16,
    ticket: u64,
) -> Turn
    requires of { pass.old.lock ≡ lock.now }
    requires own { IsOwn who pass.old }
    requires waits { phase who pass.old.seen ≡ waits ticket }
    ensures { GoesOn who (kinds_of_turn ticket result) pass.old pass.new }
{
    let mut held = lock.enter(rt, pass);
    let answer = held.shelf.turn(who, ticket);
    lock.leave(pass, held);
    answer
}

/// One turn of a session that drains.
fn drain_turn<R: Wait, D: Drive, C: Clock, K: Sink>(
    lock: &TurnLock<BoxedShelf<D, C, K>>,
    rt: &R,
    pass: &mut Pass<BoxedShelf<D, C, K>>,
    who: u16,
) -> Drained
    requires of { pass.old.lock ≡ lock.now }
    requires own { IsOwn who pass.old }
    requires drains { phase who pass.old.seen ≡ draining }
    ensures { (here : ℕ) × GoesOn who (kinds_of_drain here result) pass.old pass.new }
{
    let mut held = lock.enter(rt, pass);
    let answer = held.shelf.drain_turn(who);
    lock.leave(pass, held);
    answer
}

/// Takes turns until the reply of a place is there.
fn await_reply<R: Wait, G: Gate, D: Drive, C: Clock, K: Sink>(
    lock: &TurnLock<BoxedShelf<D, C, K>>,
    rt: &R,
    pass: &mut Pass<BoxedShelf<D, C, K>>,
    turns: &mut Turns<'_, G>,
    ticket: u64,
) -> Reply
    requires of { pass.old.lock ≡ lock.now }
    requires own { IsOwn turns.old.who pass.old }
    requires waits { phase turns.old.who pass.old.seen ≡ waits ticket }
    ensures { GoesOn turns.old.who (hands ticket result ∷ []) pass.old pass.new }
{
    for _ in rt.forever() {
        turns.pass_gate();
        match turn(lock, rt, pass, turns.who, ticket) {
            Turn::Ready(reply) => return reply,
            Turn::More => {}
        }
    }
    unreachable!()
}

/// Takes turns until there is room for the session's write, or the reply is there.
fn await_room<R: Wait, G: Gate, D: Drive, C: Clock, K: Sink>(
    lock: &TurnLock<BoxedShelf<D, C, K>>,
    rt: &R,
    pass: &mut Pass<BoxedShelf<D, C, K>>,
    turns: &mut Turns<'_, G>,
) -> Option<Reply>
    requires of { pass.old.lock ≡ lock.now }
    requires own { IsOwn turns.old.who pass.old }
    requires drains { phase turns.old.who pass.old.seen ≡ draining }
    ensures session { (turns.new.who ≡ turns.old.who) × (turns.new.nth ≡ turns.old.nth) }
    ensures goes { (here : ℕ) × GoesOn turns.old.who (kinds_of_wait here result) pass.old pass.new }
{
    for _ in rt.forever() {
        turns.pass_gate();
        match drain_turn(lock, rt, pass, turns.who) {
            Drained::Room => return None,
            Drained::Fault(counts) => return Some(Reply::Fault(counts)),
            Drained::More => {}
        }
    }
    unreachable!()
}

/// Places the session's next call, and takes turns until its reply is there.
fn make<R: Wait, G: Gate, D: Drive, C: Clock, K: Sink>(
    lock: &TurnLock<BoxedShelf<D, C, K>>,
    rt: &R,
    pass: &mut Pass<BoxedShelf<D, C, K>>,
    turns: &mut Turns<'_, G>,
) -> Reply
    requires of { pass.old.lock ≡ lock.now }
    requires own { IsOwn turns.old.who pass.old }
    requires can { CanPlace turns.old.who turns.old.nth pass.old }
    ensures { IsMade turns.old.who result pass.old pass.new }
{
    for _ in rt.forever() {
        turns.pass_gate();
        match submit(lock, rt, pass, turns.who, turns.nth) {
            Submitted::Ready(reply) => return reply,
            Submitted::Wait(ticket) => return await_reply(lock, rt, pass, turns, ticket),
            Submitted::Drain => {
                if let Some(reply) = await_room(lock, rt, pass, turns) {
                    return reply;
                }
            }
        }
    }
    unreachable!()
}

/// Makes the session's next call.
pub fn call<R: Wait, G: Gate, D: Drive, C: Clock, K: Sink>(
    lock: &TurnLock<BoxedShelf<D, C, K>>,
    rt: &R,
    pass: &mut DeskPass<D, C, K>,
    gate: &G,
) -> Reply
    requires of { pass.old.lock ≡ lock.now }
    requires more { HasMore pass.old }
    ensures { Calls pass.old pass.new result }
{
    let mut turns = Turns {
        gate,
        who: pass.who,
        nth: pass.placed,
        made: 0,
    };
    let reply = make(lock, rt, &mut pass.pass, &mut turns);
    pass.placed += 1;
    reply
}
