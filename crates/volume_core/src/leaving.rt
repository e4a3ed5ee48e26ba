//! What is left of a volume in which nothing waits.

ghost use Rattle.std.specs.Prelude.{◌≡◌, ◌≤◌, [], true, All, is_some, length, vec_capacity};
ghost use Rattle.volume_core.specs.VolumeSteps.Seen.{seen_parts};
ghost use Rattle.volume_core.specs.Leaving.{IsLeft};

use crate::volume_steps::Parts;
use promises::serving_promise::Left;
use session_script::{KeptReply, Log};
use tape_drive::Drive;

/// The drive, and the log of all calls, whose replies are all there. These are moved into a vector that has room for
/// them.
pub fn take_log<D: Drive>(parts: Parts<D>, told: Vec<KeptReply>) -> Left<D>
    requires there { All (λ r. is_some r ≡ true) parts.placements.replies }
    requires empty { told.items ≡ [] }
    requires room { length parts.placements.replies ≤ vec_capacity told }
    ensures { IsLeft (seen_parts parts) result.drive result.log }
{
    let Parts {
        head,
        trail,
        placements,
        ..
    } = parts;
    let (history, replies) = placements.into_lists(told);
    let (events, acks) = trail.into_lists();
    Left {
        drive: head.into_drive(),
        log: Log {
            history,
            replies,
            acks,
            events,
        },
    }
}
