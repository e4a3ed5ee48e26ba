ghost use Rattle.std.specs.Prelude.{◌≡◌, ◌≤ℤ◌, ◌<◌};
ghost use Rattle.tape_types.specs.Moments.{first_second, last_second};

/// A moment of the years 0000 to 9999: seconds since the beginning of 1970, and the
/// nanoseconds that have passed since that second.
#[derive(Clone, Copy, Debug, PartialEq, Eq)]
pub struct Moment {
    pub secs: i64,
    pub nanos: u32,
    pub ghost not_before: { first_second ≤ℤ secs },
    pub ghost not_after: { secs ≤ℤ last_second },
    pub ghost within_second: { nanos < 1000000000 },
}

/// The five times of a node (LTFS 2.4 on the index).
#[derive(Clone, Copy, Debug, PartialEq, Eq)]
pub struct Times {
    pub create: Moment,
    pub change: Moment,
    pub modify: Moment,
    pub access: Moment,
    pub backup: Moment,
}

impl Times {
    /// The times of a node that was made at this moment.
    pub fn all_at(at: Moment) -> Times
        ensures { result ≡ record { create = at; change = at; modify = at; access = at; backup = at } }
    {
        Times {
            create: at,
            change: at,
            modify: at,
            access: at,
            backup: at,
        }
    }
}
