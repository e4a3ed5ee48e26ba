ghost use Rattle.std.specs.Prelude.{◌≡◌, ⊤, ℕ, ◌+◌, Some, None, if◌then◌else◌, ◌==◌, IfSome};
ghost use Rattle.tape_edge.specs.Clocks.{IsSince1970, IsGiven, GoesOn};
ghost use Rattle.tape_types.specs.declared.moments.Moment.{Moment as Instant};

use crate::traits::Clock;
use std::marker::Model;
use std::rt;
use std::time::SystemTime;
use tape_types::Moment;

const LAST_SECOND: i64 = 253402300799;

/// A clock that goes on by some seconds at each call, and stays at its last value of the year 9999.
#[derive(Drop)]
pub struct StepClock {
    at: Moment,
    step: u32,
}

impl Model for StepClock {
    ghost use Rattle.tape_edge.specs.Clocks.{StepView, IsSince1970};

    ghost Value = { StepView };

    ghost view = { λ c. record { next = c.at; step = c.step } };

    ghost invariant = { λ c. IsSince1970 c.at };
}

impl StepClock {
    /// The first moment is one of the years 1970 to 9999.
    pub fn new(first: Moment, step: u32) -> StepClock
        requires { IsSince1970 first }
        ensures { result ≡ record { next = first; step = step } }
    {
        StepClock { at: first, step }
    }
}

impl Clock for StepClock {
    ghost next = { λ c. Some c.next };

    ghost one = { λ c. if c.step == 0 then Some c.next else None };

    ghost gives = { λ c n m. IsGiven c n m };

    fn now(&mut self) -> Moment
        ensures given { IsGiven self.old 0 result }
        ensures later { (n : ℕ) (m : Instant) → IsGiven self.new n m → IsGiven self.old (n + 1) m }
        ensures told { result ≡ self.old.next }
        ensures single { IfSome (if self.old.step == 0 then Some self.old.next else None)
            (λ m. (result ≡ m) × (self.new ≡ self.old)) }
        ensures range { IsSince1970 result }
        ensures exact { GoesOn self.old self.new }
    {
        let now = self.at;
        let secs = now.secs + i64::from(self.step);
        if self.step > 0 && secs <= LAST_SECOND {
            self.at = Moment {
                secs,
                nanos: now.nanos,
            };
        }
        now
    }
}

/// The system's clock, held within the years 1970 to 9999. Where it can't be read, it is 1970's first moment.
#[derive(Drop)]
pub struct SystemClock<R: Drop> {
    rt: R,
}

impl<R: rt::Clock + Drop> SystemClock<R> {
    pub fn new(rt: R) -> SystemClock<R> {
        SystemClock { rt }
    }
}

impl<R: rt::Clock + Drop> Clock for SystemClock<R> {
    ghost next = { λ _. None };

    ghost one = { λ _. None };

    ghost gives = { λ _ _ _. ⊤ };

    fn now(&mut self) -> Moment {
        let Ok(time) = SystemTime::now(&self.rt) else {
            return Moment { secs: 0, nanos: 0 };
        };
        let Ok(since) = time.duration_since(SystemTime::UNIX_EPOCH) else {
            return Moment { secs: 0, nanos: 0 };
        };
        let secs = since.as_secs().min(LAST_SECOND as u64);
        Moment {
            secs: secs as i64,
            nanos: since.subsec_nanos(),
        }
    }
}
