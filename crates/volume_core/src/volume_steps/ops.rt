//! What an op settles, and where the head stands behind it.

ghost use Rattle.std.specs.Prelude.{◌≡◌, ◌&&◌, ◌<◌, ◌^◌};
ghost use Rattle.head_queue.specs.EventLaws.Trail as trail;
ghost use Rattle.head_queue.specs.EventLaws.Waiting.{same_part};
ghost use Rattle.tape_types.specs.Cartridges.{next};
ghost use Rattle.tape_types.specs.declared.cartridges.Part.TheVariants as parts;

use tape_types::{Part, Place};

/// Whether an op at this place is a flush of the data partition.
pub fn settles(place: Place, flush: bool) -> bool
    ensures { result ≡ flush && same_part place.part parts.Dp }
{
    match place.part {
        Part::Ip => false,
        Part::Dp => flush,
    }
}

/// Where the head stands behind an op.
pub fn head_behind(place: Place, flush: bool) -> Place
    requires { place.pos < 2 ^ 63 }
    ensures { result ≡ trail.behind (record { place = place; flush = flush }) }
{
    if flush { place } else { behind(place) }
}

/// The place behind a place.
pub fn behind(place: Place) -> Place
    requires { place.pos < 2 ^ 63 }
    ensures { result ≡ next place }
{
    Place {
        part: place.part,
        pos: place.pos + 1,
    }
}
