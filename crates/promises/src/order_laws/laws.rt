//! What the calls of a volume keep.

ghost use Rattle.promises.specs.OrderLaws.Laws.{DrainTurnsKeepOrder, NothingIsLeftWhereNothingWaits, PhasesArePlain};
ghost use Rattle.promises.specs.OrderLaws.Laws.{SubmissionsKeepOrder, TurnsKeepOrder, VolumesBeginInOrder};

use tape_drive::Drive;

/// Over any drive: a submission keeps the order, whatever it answers.
pub fn submissions_keep_order<D: Drive>()
    ensures { SubmissionsKeepOrder D.Drive }
{}

/// So does a turn of a session that waits, also where it answers others.
pub fn turns_keep_order<D: Drive>()
    ensures { TurnsKeepOrder D.Drive }
{}

/// And so does a turn of a session that drains.
pub fn drain_turns_keep_order<D: Drive>()
    ensures { DrainTurnsKeepOrder D.Drive }
{}

/// A volume of which nothing was asked yet is in order.
pub fn volumes_begin_in_order<D: Drive>()
    ensures { VolumesBeginInOrder D.Drive }
{}

/// Whether a session waits, and for which place, and whether it drains, is what its marks say in plain words.
pub fn phases_are_plain<D: Drive>()
    ensures { PhasesArePlain D.Drive }
{}

/// Nothing waits exactly where each placement has been handed its reply, no session drains and no fault is kept.
pub fn nothing_is_left_where_nothing_waits<D: Drive>()
    ensures { NothingIsLeftWhereNothingWaits D.Drive }
{}
