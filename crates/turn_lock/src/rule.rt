//! The rule of the lock's table, and what each kind of step tells who makes it.
//!
//! Word 0 is the ticket that is drawn next, word 1 the ticket that is served, word 2 the length of the history. The
//! one slot has the state.
//!
//! | kind | step |
//! |---|---|
//! | draw | adds 1 to word 0: the seat has the number found as its ticket |
//! | look | loads word 1: where it is the seat's ticket, the slot goes out to the seat, which now knows the history |
//! | take, give | exchange the slot's value, by the seat that has it |
//! | count | stores the length of the history in word 2: the seat knows the entries that it added |
//! | next | adds 1 to word 1: the ticket goes, and the slot goes home |
//! | split | loads word 0: a new seat has the last number |
//! | join | loads word 0: the other's numbers and history lie beside the seat's own, and the other is spent |
//! | merge | loads word 0: what lies beside becomes the seat's own |
use crate::Logged;
use atomic_table::{Join, Play, Seat, Split, Table, TableRule};
use std::alloc::Global;
use std::collections::LinkedList;
use std::marker::PhantomData;
use std::snapshot::Snapshot;

/// What a seat at the table knows. No value of it is made.
pub struct Knowledge<M, F> {
    /// The ticket that was drawn and has not been served to its end.
    pub ticket: Option<u64>,
    /// Whether the ticket is the one that is served.
    pub served: bool,
    pub numbers: LinkedList<u64>,
    /// The history, as far as it was seen.
    pub seen: LinkedList<M>,
    /// Numbers and history of a seat that was joined, until they are merged, and what it knew of the part that stays.
    pub joined_numbers: LinkedList<u64>,
    pub joined_seen: LinkedList<M>,
    pub joined_fixed: Option<F>,
    /// How many numbers the lock has.
    pub seats: u16,
    /// The part of the state that stays. A spent seat has none.
    pub fixed: Option<F>,
}

/// What the table is told when it is made.
#[derive(Drop)]
pub struct Opening<T> {
    pub state: Snapshot<T>,
    pub seats: u16,
}

pub struct LockRule<T> {
    of: PhantomData<T>,
}

pub type LockTable<T> = Table<
    Option<T>,
    Knowledge<<T as Logged>::Mark, <T as Logged>::Fixed>,
    Opening<T>,
    LockRule<T>,
    Global,
>;

pub type LockSeat<T> = Seat<Option<T>, Knowledge<<T as Logged>::Mark, <T as Logged>::Fixed>>;

impl<T: Logged> TableRule<Option<T>, Knowledge<T::Mark, T::Fixed>, Opening<T>> for LockRule<T> {
    ghost use Rattle.turn_lock.specs.Rule.{IsKept};
    ghost use Rattle.turn_lock.specs.Histories.{numbers_to};
    ghost use Rattle.turn_lock.specs.Knowing.{calm};

    ghost holds = { λ o s. IsKept T.history T.fixed T.names o.seats (T.fixed o.state.value) s };

    ghost first = { λ o. calm o.seats (numbers_to o.seats) (T.history o.state.value) (T.fixed o.state.value) };
}

pub struct Draw<T> {
    of: PhantomData<T>,
}

impl<T: Logged> Play<Option<T>, Knowledge<T::Mark, T::Fixed>> for Draw<T> {
    ghost use Rattle.turn_lock.specs.Steps.{draws};

    ghost then = { draws };
}

pub struct Look<T> {
    of: PhantomData<T>,
}

impl<T: Logged> Play<Option<T>, Knowledge<T::Mark, T::Fixed>> for Look<T> {
    ghost use Rattle.turn_lock.specs.Steps.{looks};

    ghost then = { looks T.history T.fixed T.names };
}

pub struct Count<T> {
    of: PhantomData<T>,
}

impl<T: Logged> Play<Option<T>, Knowledge<T::Mark, T::Fixed>> for Count<T> {
    ghost use Rattle.turn_lock.specs.Steps.{counts};

    ghost then = { counts T.history };
}

pub struct Next<T> {
    of: PhantomData<T>,
}

impl<T: Logged> Play<Option<T>, Knowledge<T::Mark, T::Fixed>> for Next<T> {
    ghost use Rattle.turn_lock.specs.Steps.{ends};

    ghost then = { ends };
}

/// The last number goes to a new seat.
pub struct Cut<T> {
    of: PhantomData<T>,
}

impl<T: Logged> Split<Knowledge<T::Mark, T::Fixed>> for Cut<T> {
    ghost use Rattle.turn_lock.specs.Knowing.{without_last, last_alone};

    ghost left = { without_last };

    ghost right = { last_alone };
}

/// Two seats become one.
pub struct Tie<T> {
    of: PhantomData<T>,
}

impl<T: Logged> Join<Knowledge<T::Mark, T::Fixed>> for Tie<T> {
    ghost use Rattle.turn_lock.specs.Knowing.{beside, spent};

    ghost both = { beside };

    ghost spent = { spent };
}

pub struct Merge<T> {
    of: PhantomData<T>,
}

impl<T: Logged> Play<Option<T>, Knowledge<T::Mark, T::Fixed>> for Merge<T> {
    ghost use Rattle.turn_lock.specs.Steps.{merges};

    ghost then = { merges T.names };
}
