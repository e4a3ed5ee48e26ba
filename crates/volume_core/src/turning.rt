//! Turns of a session that waits for a reply.

ghost use Rattle.std.specs.Prelude.{◌≡◌, ◌≤◌, ◌-◌, ◌^◌, ℕ};
ghost use Rattle.promises.specs.ServingPromise.Marks.{phase, waits};
ghost use Rattle.volume_state.specs.CallLaws.Handing.{TurnsTo};
ghost use Rattle.volume_core.specs.VolumeSteps.Seen.{seen_parts};
ghost use Rattle.volume_core.specs.Turns.{Runs};

use crate::volume_steps::Parts;
use promises::serving_promise::Turn;
use tape_drive::Drive;

/// Hands out the reply of a place, after a step of the head where it isn't there.
pub fn turn<D: Drive>(parts: &mut Parts<D>, ticket: u64) -> Turn
    requires runs { Runs D.Drive (seen_parts parts.old) }
    requires waits { (who : ℕ) × (phase who (seen_parts parts.old).listed.marks ≡ waits ticket) }
    ensures turns { (who : ℕ) → phase who (seen_parts parts.old).listed.marks ≡ waits ticket
        → TurnsTo D.Drive who ticket (seen_parts parts.old) (seen_parts parts.new) result }
    ensures counted { D.commands (seen_parts parts.old).drive ≤ 2 ^ 64 - 1 }
{
    // The number of commands is in its range.
    let _commands = parts.head.commands();
    if let Some(reply) = parts.hand_out(ticket) {
        return Turn::Ready(reply);
    }
    parts.step();
    match parts.hand_out(ticket) {
        Some(reply) => Turn::Ready(reply),
        None => Turn::More,
    }
}
