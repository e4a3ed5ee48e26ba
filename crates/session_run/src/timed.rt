//! A clock that gives one moment, where there is one.

ghost use Rattle.std.specs.Prelude.{◌≡◌, IfSome};
ghost use Rattle.tape_edge.specs.Clocks.{IsSince1970};
ghost use Rattle.commands.specs.BasicCommands.Headline.{IsMoment};
ghost use Rattle.session_run.specs.Timed.{one_moment};

use std::marker::Model;
use tape_edge::Clock;
use tape_types::Moment;

/// A clock that gives one moment, or else those of another clock.
#[derive(Drop)]
pub struct TimedClock<C: Clock> {
    at: Option<Moment>,
    clock: C,
}

impl<C: Clock> Model for TimedClock<C> {
    ghost use Rattle.std.specs.Prelude.{IfSome};
    ghost use Rattle.tape_edge.specs.Clocks.{IsSince1970};
    ghost use Rattle.session_run.specs.Timed.{TimedView};

    ghost Value = { TimedView C };

    ghost view = { λ c. record { at = c.at; clock = c.clock } };

    ghost invariant = { λ c. IfSome c.at IsSince1970 };
}

impl<C: Clock> TimedClock<C> {
    /// A given moment is one of the years 1970 to 9999.
    pub fn new(at: Option<Moment>, clock: C) -> TimedClock<C>
        requires { IfSome at IsSince1970 }
        ensures { result ≡ record { at = at; clock = clock } }
    {
        TimedClock { at, clock }
    }
}

impl<C: Clock> Clock for TimedClock<C> {
    ghost next = { λ c. one_moment c.at (C.next c.clock) };

    ghost one = { λ c. one_moment c.at (C.one c.clock) };

    ghost gives = { λ c n m. IsMoment c.at (C.gives c.clock) n m };

    fn now(&mut self) -> Moment {
        match self.at {
            Some(at) => at,
            None => self.clock.now(),
        }
    }
}
