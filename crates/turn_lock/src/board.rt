//! The lock's table, and the steps of its seats.
ghost use Rattle.std.specs.Prelude.{◌≡◌, ◌≤◌, ◌<◌, ◌^◌, ◌++◌, [], ◌∷◌, ℕ, length, Some, None, IfOk, IfErr, MatchBool};
ghost use Rattle.turn_lock.specs.Histories.{Sees, AddsOwn, own_entries, numbers_to, longer};
ghost use Rattle.turn_lock.specs.Knowing.{IsCalm, IsWaiting, HasTurn, IsBeside, calm, drew, in_turn, ended, beside};
ghost use Rattle.turn_lock.specs.Knowing.{merged, SameBut};
ghost use Rattle.turn_lock.specs.Steps.{Turns};

use crate::Logged;
use crate::doors::Doors;
use crate::lobby::Lobby;
use crate::rule::{Count, Cut, Draw, LockSeat, LockTable, Look, Merge, Next, Opening, Tie};
use std::alloc::Global;
use std::snapshot::Snapshot;
use std::sync::Wait;
use std::thread;

/// How often a caller that has a ticket looks before it sleeps: for some ten microseconds, about what a sleep and a
/// wake cost.
const LOOKS: u32 = 50;

/// How often one without a ticket looks whether the lock is free before it waits in the lobby.
const LOOKS_BEFORE: u32 = 4;

/// A table with three words and one slot, and where callers sleep, without a ticket and with one.
pub(crate) struct Board<T: Logged> {
    table: LockTable<T>,
    lobby: Lobby,
    doors: Doors,
    ghost shape: { (table.shared.table_id.words ≡ 3) × (table.shared.table_id.slots ≡ 1) },
}

impl<T: Logged> Board<T> {
    /// The board of a new lock, and the seat with all the numbers.
    pub(crate) fn open(alloc: Global, state: T, seats: u16) -> Result<(Board<T>, LockSeat<T>), T>
        requires some_seat { 1 ≤ seats }
        ensures of { IfOk result (λ r. r.1.table_id ≡ r.0.table.shared.table_id) }
        ensures seat { IfOk result (λ r.
            r.1.me ≡ (calm seats (numbers_to seats) (T.history state) (T.fixed state), [])) }
        ensures calm { IfOk result (λ r. IsCalm r.1.me) }
        ensures back { IfErr result (λ s. s ≡ state) }
        ensures short { length (T.history state) < 2 ^ 64 }
    {
        let placed = state.placed();
        let about = Opening {
            state: Snapshot::of(&state),
            seats,
        };
        let mut slots = Vec::new(alloc);
        if let Err(failed) = slots.push(Some(state)) {
            slots.destroy_empty();
            return Err(full(failed.value));
        }
        match LockTable::<T>::new(alloc, &[0, 0, placed], slots, &about) {
            Ok((table, seat)) => {
                let board = Board {
                    table,
                    lobby: Lobby::new(),
                    doors: Doors::new(),
                };
                Ok((board, seat))
            }
            Err(refused) => {
                let mut slots = refused.slots;
                let Some(slot) = slots.pop() else {
                    unreachable!()
                };
                slots.destroy_empty();
                Err(full(slot))
            }
        }
    }

    /// The state in the slot, by a seat with all the numbers.
    pub(crate) fn end(self, seat: LockSeat<T>) -> T
        requires of { seat.table_id ≡ self.table.shared.table_id }
        requires calm { IsCalm seat.me }
        requires all { length seat.me.0.numbers ≡ seat.me.0.seats }
        ensures history { T.history result ≡ seat.me.0.seen }
        ensures fixed { seat.me.0.fixed ≡ Some (T.fixed result) }
    {
        let Board {
            table,
            lobby: _,
            doors: _,
        } = self;
        let mut closed = table.close_with(seat);
        let slot = closed.take(0);
        closed.free();
        full(slot)
    }

    /// Whether no ticket is out.
    fn is_free(&self) -> bool {
        self.table.shared.peek(0) == self.table.shared.peek(1)
    }

    /// Waits until the caller may draw a ticket: the lock is free, or the caller was called.
    pub(crate) fn await_call<R: Wait>(&self, rt: &R) {
        for _ in 0..LOOKS_BEFORE {
            if self.is_free() {
                return;
            }
            thread::yield_now();
        }
        self.lobby.enter();
        for _ in rt.forever() {
            if self.is_free() {
                self.lobby.take_call();
                break;
            }
            if self.lobby.sleep(rt) {
                break;
            }
        }
        self.lobby.leave();
    }

    /// Draws a ticket.
    pub(crate) fn draw(&self, seat: &mut LockSeat<T>) -> u64
        requires of { seat.old.table_id ≡ self.now.table.shared.table_id }
        requires calm { IsCalm seat.old.me }
        ensures of { seat.new.table_id ≡ seat.old.table_id }
        ensures drew { seat.new.me ≡ (drew seat.old.me.0 result, []) }
    {
        self.table.shared.fetch_add::<Draw<T>>(seat, 0, 1)
    }

    /// Whether the ticket is served. Then the slot is out with the seat.
    pub(crate) fn look(&self, seat: &mut LockSeat<T>, ticket: u64) -> bool
        requires of { seat.old.table_id ≡ self.now.table.shared.table_id }
        requires waits { IsWaiting ticket seat.old.me }
        ensures of { seat.new.table_id ≡ seat.old.table_id }
        ensures turn { MatchBool result (Turns T.history T.fixed T.names seat.old.me seat.new.me)
            (seat.new.me ≡ seat.old.me) }
    {
        self.table.shared.load::<Look<T>>(seat, 1) == ticket
    }

    /// Looks until the ticket is served, which one from 2^63 on never is. After some looks it sleeps between them.
    pub(crate) fn await_turn<R: Wait>(&self, rt: &R, seat: &mut LockSeat<T>, ticket: u64)
        requires of { seat.old.table_id ≡ self.now.table.shared.table_id }
        requires waits { IsWaiting ticket seat.old.me }
        ensures of { seat.new.table_id ≡ seat.old.table_id }
        ensures low { ticket < 2 ^ 63 }
        ensures turn { Turns T.history T.fixed T.names seat.old.me seat.new.me }
    {
        let mut looks = 0;
        for _ in rt.forever() {
            if ticket < 1 << 63 && self.look(seat, ticket) {
                break;
            }
            if looks < LOOKS {
                looks += 1;
                thread::yield_now();
            } else {
                self.sleep(rt, ticket);
            }
        }
    }

    /// Sleeps until the ticket is called, unless it is served by now.
    ///
    /// No call is missed. Who sleeps announces it first and then reads the ticket that is served. Who ends a turn
    /// serves the next ticket first and then asks whether a sleep is announced at its door. So one of the two sees the
    /// other: the sleeper finds its ticket served, or it is woken.
    fn sleep<R: Wait>(&self, rt: &R, ticket: u64) {
        let sleep = self.doors.of(ticket).prepare_wait();
        if self.table.shared.peek(1) != ticket {
            sleep.wait(rt);
        }
    }

    /// Takes the state out of the slot.
    pub(crate) fn take(&self, seat: &mut LockSeat<T>) -> T
        requires of { seat.old.table_id ≡ self.now.table.shared.table_id }
        requires slot { (x : T) × (seat.old.me.1 ≡ (0, Some x) ∷ []) }
        ensures of { seat.new.table_id ≡ seat.old.table_id }
        ensures state { seat.old.me.1 ≡ (0, Some result) ∷ [] }
        ensures empty { seat.new.me ≡ (seat.old.me.0, (0, None) ∷ []) }
    {
        full(self.table.shared.exchange(seat, 0, None))
    }

    /// Puts the state into the slot.
    pub(crate) fn give(&self, seat: &mut LockSeat<T>, state: T)
        requires of { seat.old.table_id ≡ self.now.table.shared.table_id }
        requires turn { HasTurn None seat.old.me }
        ensures of { seat.new.table_id ≡ seat.old.table_id }
        ensures state { seat.new.me ≡ (seat.old.me.0, (0, Some state) ∷ []) }
        ensures turn { HasTurn (Some state) seat.new.me }
    {
        let old = self.table.shared.exchange(seat, 0, Some(state));
        let None = old else { unreachable!() };
    }

    /// Stores the length of the history of the state that was put into the slot.
    pub(crate) fn count(&self, seat: &mut LockSeat<T>, state: &Snapshot<T>, placed: u64)
        requires of { seat.old.table_id ≡ self.now.table.shared.table_id }
        requires turn { HasTurn (Some state.now.value) seat.old.me }
        requires placed { placed ≡ length (T.history state.now.value) }
        requires adds { AddsOwn T.names seat.old.me.0.numbers seat.old.me.0.seen (T.history state.now.value) }
        ensures of { seat.new.table_id ≡ seat.old.table_id }
        ensures turn { HasTurn (Some state.now.value) seat.new.me }
        ensures counted { seat.new.me.0 ≡ in_turn seat.old.me.0 (T.history state.now.value) }
    {
        self.table.shared.store::<Count<T>>(seat, 2, placed);
    }

    /// Serves the next ticket, once the state is in the slot and its history is counted, and wakes who sleeps with it.
    /// Where there is none, one who waits in the lobby is called.
    pub(crate) fn next(&self, seat: &mut LockSeat<T>, state: &Snapshot<T>)
        requires of { seat.old.table_id ≡ self.now.table.shared.table_id }
        requires turn { HasTurn (Some state.now.value) seat.old.me }
        requires seen { seat.old.me.0.seen ≡ T.history state.now.value }
        requires fixed { seat.old.me.0.fixed ≡ Some (T.fixed state.now.value) }
        ensures of { seat.new.table_id ≡ seat.old.table_id }
        ensures ended { seat.new.me ≡ (ended seat.old.me.0, []) }
        ensures calm { IsCalm seat.new.me }
    {
        let served = self.table.shared.fetch_add::<Next<T>>(seat, 1, 1);
        self.doors.of(served.wrapping_add(1)).notify_all();
        if self.is_free() {
            self.lobby.call();
        }
    }

    /// Cuts the last number off.
    pub(crate) fn cut(&self, seat: &mut LockSeat<T>) -> LockSeat<T>
        requires of { seat.old.table_id ≡ self.now.table.shared.table_id }
        requires calm { IsCalm seat.old.me }
        requires two { 2 ≤ length seat.old.me.0.numbers }
        ensures of { (seat.new.table_id ≡ seat.old.table_id) × (result.table_id ≡ seat.old.table_id) }
        ensures calm { IsCalm seat.new.me × IsCalm result.me }
        ensures numbers { (last : ℕ) × (seat.old.me.0.numbers ≡ seat.new.me.0.numbers ++ last ∷ [])
            × (result.me.0.numbers ≡ last ∷ []) }
        ensures same { SameBut seat.old.me.0 seat.new.me.0 × SameBut seat.old.me.0 result.me.0 }
    {
        self.table.shared.split_seat::<Cut<T>>(seat)
    }

    /// Takes in the other seat, whose numbers and history then lie beside the seat's own.
    pub(crate) fn tie(&self, seat: &mut LockSeat<T>, other: LockSeat<T>)
        requires of { (seat.old.table_id ≡ self.now.table.shared.table_id)
            × (other.table_id ≡ self.now.table.shared.table_id) }
        requires calm { IsCalm seat.old.me × IsCalm other.me }
        ensures of { seat.new.table_id ≡ seat.old.table_id }
        ensures beside { seat.new.me ≡ (beside seat.old.me.0 other.me.0, []) }
        ensures both { IsBeside seat.new.me }
    {
        self.table.shared.join_seat::<Tie<T>>(seat, other);
    }

    /// Makes what lies beside the seat's own.
    pub(crate) fn merge(&self, seat: &mut LockSeat<T>)
        requires of { seat.old.table_id ≡ self.now.table.shared.table_id }
        requires both { IsBeside seat.old.me }
        ensures of { seat.new.table_id ≡ seat.old.table_id }
        ensures merged { seat.new.me ≡ (merged seat.old.me.0, []) }
        ensures sees { Sees T.names seat.old.me.0.seats seat.old.me.0.numbers seat.old.me.0.seen
            (longer seat.old.me.0.seen seat.old.me.0.joined_seen) }
        ensures sees_other { Sees T.names seat.old.me.0.seats seat.old.me.0.joined_numbers seat.old.me.0.joined_seen
            (longer seat.old.me.0.seen seat.old.me.0.joined_seen) }
        ensures own { own_entries T.names seat.old.me.0.numbers (longer seat.old.me.0.seen seat.old.me.0.joined_seen)
            ≡ own_entries T.names seat.old.me.0.numbers seat.old.me.0.seen }
        ensures own_other { own_entries T.names seat.old.me.0.joined_numbers
            (longer seat.old.me.0.seen seat.old.me.0.joined_seen)
            ≡ own_entries T.names seat.old.me.0.joined_numbers seat.old.me.0.joined_seen }
        ensures fixed { seat.old.me.0.joined_fixed ≡ seat.old.me.0.fixed }
    {
        self.table.shared.load::<Merge<T>>(seat, 0);
    }
}

/// The state in a slot that has one.
fn full<T>(slot: Option<T>) -> T
    requires { (x : T) × (slot ≡ Some x) }
    ensures { slot ≡ Some result }
{
    let Some(state) = slot else { unreachable!() };
    state
}
