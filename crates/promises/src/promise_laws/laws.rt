//! What each call of a served volume keeps.

ghost use Rattle.promises.specs.PromiseLaws.Laws.{DrainTurnsKeep, KeptIsPromised, SubmissionsKeep, TurnsKeep};
ghost use Rattle.promises.specs.PromiseLaws.Laws.{VolumesBegin};

use tape_drive::Drive;

/// What is kept of a volume is all that is promised of it: its order, its replies and ops, and what a crash leaves.
pub fn what_is_kept_is_promised<D: Drive>()
    ensures { KeptIsPromised D.Drive }
{}

/// It is kept of a volume of which nothing was asked yet, where the mount told of the cartridge.
pub fn volumes_begin_promised<D: Drive>()
    ensures { VolumesBegin D.Drive }
{}

/// A submission keeps it.
pub fn submissions_keep_the_promise<D: Drive>()
    ensures { SubmissionsKeep D.Drive }
{}

/// So does a turn of a session that waits.
pub fn turns_keep_the_promise<D: Drive>()
    ensures { TurnsKeep D.Drive }
{}

/// And a turn of a session that drains.
pub fn drain_turns_keep_the_promise<D: Drive>()
    ensures { DrainTurnsKeep D.Drive }
{}
