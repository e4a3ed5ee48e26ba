//! The lock: who draws a ticket waits until it is served, and then has the state to itself.
ghost use Rattle.std.specs.Prelude.{◌≡◌, ◌≤◌, ◌<◌, ◌^◌, ◌++◌, [], ◌∷◌, ℕ, length, Some, true, false, IfOk, IfErr};
ghost use Rattle.turn_lock.specs.Histories.{Sees, AddsOwn, own_entries};
ghost use Rattle.turn_lock.specs.Passes.{first_pass, entered, left_at, with_numbers, joined};

use crate::board::Board;
use crate::{Logged, Pass};
use std::alloc::Global;
use std::marker::Model;
use std::snapshot::Snapshot;
use std::sync::Wait;

/// A state that passes take turns with. Contracts see which lock it is.
///
/// It is closed, and not dropped: so the state is never lost.
pub struct TurnLock<T: Logged> {
    board: Board<T>,
}

impl<T: Logged> Model for TurnLock<T> {
    ghost use Rattle.atomic_table.specs.Seated.{TableId, table_id_coded};

    ghost Value = { TableId };

    ghost coded = { table_id_coded };

    ghost view = { λ l. l.board.table.shared.table_id };
}

impl<T: Logged> TurnLock<T> {
    /// A lock around the state, which has the numbers 1 to `seats`, and the pass with all of them, which has seen the
    /// state's history. A refusal, which is for want of memory alone, hands the state back.
    pub fn new(alloc: Global, state: T, seats: u16) -> Result<(TurnLock<T>, Pass<T>), T>
        requires some_seat { 1 ≤ seats }
        ensures pass { IfOk result (λ r. r.1 ≡ first_pass r.0 seats (T.history state) (T.fixed state)) }
        ensures back { IfErr result (λ s. s ≡ state) }
        ensures short { length (T.history state) < 2 ^ 64 }
    {
        let (board, seat) = Board::open(alloc, state, seats)?;
        Ok((TurnLock { board }, Pass { seat }))
    }

    /// Waits until it is the pass's turn, soon asleep, and takes the state out. The state's history begins with all
    /// that the pass had seen, and what comes after names no number of the pass. The pass has now seen it all.
    ///
    /// A lock gives at most 2^63 turns, and who comes later waits for ever. That a turn comes is not claimed.
    pub fn enter<R: Wait>(&self, rt: &R, pass: &mut Pass<T>) -> T
        requires of { pass.old.lock ≡ self.now }
        requires out { pass.old.in_turn ≡ false }
        ensures pass { pass.new ≡ entered (T.history result) pass.old }
        ensures fixed { pass.old.fixed ≡ Some (T.fixed result) }
        ensures sees { Sees T.names pass.old.seats pass.old.numbers pass.old.seen (T.history result) }
        ensures own { own_entries T.names pass.old.numbers (T.history result)
            ≡ own_entries T.names pass.old.numbers pass.old.seen }
    {
        self.board.await_call(rt);
        let ticket = self.board.draw(&mut pass.seat);
        self.board.await_turn(rt, &mut pass.seat, ticket);
        self.board.take(&mut pass.seat)
    }

    /// Gives the state back and ends the pass's turn. The state still has the fixed part, and the history with which
    /// it was taken out, followed only by entries that name a number of the pass.
    pub fn leave(&self, pass: &mut Pass<T>, state: T)
        requires of { pass.old.lock ≡ self.now }
        requires turn { pass.old.in_turn ≡ true }
        requires fixed { pass.old.fixed ≡ Some (T.fixed state) }
        requires adds { AddsOwn T.names pass.old.numbers pass.old.seen (T.history state) }
        ensures pass { pass.new ≡ left_at (T.history state) pass.old }
        ensures short { length (T.history state) < 2 ^ 64 }
    {
        let placed = state.placed();
        let given = Snapshot::of(&state);
        self.board.give(&mut pass.seat, state);
        self.board.count(&mut pass.seat, &given, placed);
        self.board.next(&mut pass.seat, &given);
    }

    /// Gives the last of the pass's numbers, of which there are at least two, to a new pass, which has seen as much.
    pub fn split(&self, pass: &mut Pass<T>) -> Pass<T>
        requires of { pass.old.lock ≡ self.now }
        requires out { pass.old.in_turn ≡ false }
        requires two { 2 ≤ length pass.old.numbers }
        ensures numbers { (last : ℕ) × (pass.old.numbers ≡ pass.new.numbers ++ last ∷ [])
            × (result ≡ with_numbers (last ∷ []) pass.old) }
        ensures same { pass.new ≡ with_numbers pass.new.numbers pass.old }
    {
        let seat = self.board.cut(&mut pass.seat);
        Pass { seat }
    }

    /// Adds the other pass's numbers behind the pass's own, and keeps the longer of both histories. That begins with
    /// each of them, and what comes after names no number of the pass that had seen it. Both know the same fixed part.
    pub fn join(&self, pass: &mut Pass<T>, other: Pass<T>)
        requires of { (pass.old.lock ≡ self.now) × (other.lock ≡ self.now) }
        requires out { (pass.old.in_turn ≡ false) × (other.in_turn ≡ false) }
        ensures pass { pass.new ≡ joined pass.old other }
        ensures sees { Sees T.names pass.old.seats pass.old.numbers pass.old.seen pass.new.seen }
        ensures sees_other { Sees T.names pass.old.seats other.numbers other.seen pass.new.seen }
        ensures own { own_entries T.names pass.old.numbers pass.new.seen
            ≡ own_entries T.names pass.old.numbers pass.old.seen }
        ensures own_other { own_entries T.names other.numbers pass.new.seen
            ≡ own_entries T.names other.numbers other.seen }
        ensures fixed { other.fixed ≡ pass.old.fixed }
    {
        self.board.tie(&mut pass.seat, other.into_seat());
        self.board.merge(&mut pass.seat);
    }

    /// Ends the lock. The pass has all the numbers, and so it has seen all of the history of the state, which is the
    /// one that was left last, or else the one that the lock was made with.
    pub fn close(self, pass: Pass<T>) -> T
        requires of { pass.lock ≡ self }
        requires out { pass.in_turn ≡ false }
        requires all { length pass.numbers ≡ pass.seats }
        ensures history { T.history result ≡ pass.seen }
        ensures fixed { pass.fixed ≡ Some (T.fixed result) }
    {
        let TurnLock { board } = self;
        board.end(pass.into_seat())
    }
}
