ghost use Rattle.std.specs.Prelude.{◌≡◌, ◌+◌, ◌<◌, ◌^◌};
ghost use Rattle.tape_layout.specs.Ops as spec;

use crate::ops::Op;
use tape_types::{Part, Place};

/// Where the next item of each partition goes.
#[derive(Clone, Copy, Debug, PartialEq, Eq)]
pub struct Ends {
    pub ip: u64,
    pub dp: u64,
}

/// An op that stands, and the ends after it.
#[derive(Drop)]
pub struct Standing {
    pub op: Op,
    pub ends: Ends,
}

impl Ends {
    /// The end of a partition.
    pub fn of(self, part: Part) -> u64
        ensures { result ≡ spec.end_of part self }
    {
        match part {
            Part::Ip => self.ip,
            Part::Dp => self.dp,
        }
    }

    /// The ends once an op is admitted.
    pub fn after(self, op: &Op) -> Ends
        requires { (spec.place_of op.now).pos + 1 < 2 ^ 64 }
        ensures { result ≡ spec.after_op self op.now }
    {
        match op {
            Op::Put { place, .. } => self.behind(*place),
            Op::Mark { place } => self.behind(*place),
            Op::Flush { .. } => self,
        }
    }

    /// The ends where an item stands last on its partition.
    fn behind(self, place: Place) -> Ends
        requires { place.pos + 1 < 2 ^ 64 }
        ensures { result ≡ spec.with_end place.part (place.pos + 1) self }
    {
        match place.part {
            Part::Ip => Ends {
                ip: place.pos + 1,
                ..self
            },
            Part::Dp => Ends {
                dp: place.pos + 1,
                ..self
            },
        }
    }
}
