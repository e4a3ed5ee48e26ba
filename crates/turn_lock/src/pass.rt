//! The passes of a lock.
ghost use Rattle.std.specs.Prelude.{◌≡◌};
ghost use Rattle.turn_lock.specs.Knowing.{Stands};

use crate::Logged;
use crate::rule::LockSeat;
use std::marker::Model;

/// Who may enter a lock. It has no bytes, and may go to another thread.
///
/// Contracts see the lock that it is of (`lock`), how many numbers that lock has (`seats`), the pass's own `numbers`,
/// the history as far as it was `seen`, the part of the state that stays (`fixed`), and whether it has entered and not
/// left (`in_turn`).
///
/// A pass that is dropped or forgotten takes its numbers with it: the lock can't be closed any more. One that is
/// dropped or forgotten in its turn never ends that turn: no later ticket is served, and all others, those asleep and
/// those that enter later, wait for ever.
pub struct Pass<T: Logged> {
    pub(crate) seat: LockSeat<T>,
}

impl<T: Logged> Model for Pass<T> {
    ghost use Rattle.turn_lock.specs.Passes.{PassView};
    ghost use Rattle.turn_lock.specs.Knowing.{Stands};

    ghost Value = { PassView T.Mark T.Fixed };

    ghost view = { λ p. record {
      lock = p.seat.table_id;
      seats = p.seat.me.0.seats;
      numbers = p.seat.me.0.numbers;
      seen = p.seat.me.0.seen;
      fixed = p.seat.me.0.fixed;
      in_turn = p.seat.me.0.served;
    } };

    ghost invariant = { λ p. Stands p.seat.me.0.served p.seat.me };
}

impl<T: Logged> Pass<T> {
    pub(crate) fn into_seat(self) -> LockSeat<T>
        ensures of { result.table_id ≡ self.lock }
        ensures seats { result.me.0.seats ≡ self.seats }
        ensures numbers { result.me.0.numbers ≡ self.numbers }
        ensures seen { result.me.0.seen ≡ self.seen }
        ensures fixed { result.me.0.fixed ≡ self.fixed }
        ensures stands { Stands self.in_turn result.me }
    {
        let Pass { seat } = self;
        seat
    }
}

impl<T: Logged> Drop for Pass<T> {
    fn drop(self) {
        let Self { seat: _ } = self;
    }
}
