//! The close of a volume in which nothing waits.

ghost use Rattle.std.specs.Prelude.{◌≡◌, ◌≤◌, [], true, All, is_some, length, vec_capacity};
ghost use Rattle.volume_core.specs.VolumeSteps.Seen.{seen_parts};
ghost use Rattle.volume_core.specs.Leaving.{IsClosed};
ghost use Rattle.volume_core.specs.Promised.{IsToClose};

use crate::costs::costs_of;
use crate::finishing::finish;
use crate::leaving::take_log;
use crate::volume_steps::Parts;
use promises::serving_promise::{Closed, Left};
use session_script::KeptReply;
use tape_drive::Drive;
use tape_types::Moment;

/// Makes the commands of a close at a moment, and gives back the drive with the log, what that has cost, and how many
/// nodes the tree has. The replies of the log, which are all there, are moved into a vector that has room for them.
pub fn close<D: Drive>(parts: Parts<D>, noted: bool, at: Moment, told: Vec<KeptReply>) -> Closed<D>
    requires can { IsToClose D.Drive at (seen_parts parts) }
    requires there { All (λ r. is_some r ≡ true) parts.placements.replies }
    requires empty { told.items ≡ [] }
    requires room { length parts.placements.replies ≤ vec_capacity told }
    ensures { IsClosed D.Drive noted at (seen_parts parts) result.drive result.log result.outcome result.steps
        result.travel result.nodes }
{
    let mut parts = parts;
    let nodes = parts.stock.tree().count();
    let outcome = finish(&mut parts, noted, at);
    let Left { drive, log } = take_log(parts, told);
    let cost = costs_of(&log.events);
    Closed {
        drive,
        log,
        outcome,
        steps: cost.steps,
        travel: cost.travel,
        nodes,
    }
}
