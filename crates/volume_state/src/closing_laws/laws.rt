//! Laws of a close, over any drive.

ghost use Rattle.volume_state.specs.ClosingLaws.Laws.{ClosedVolumesStand, ClosesAreSafe, IndexesOfClosesAreDue};
ghost use Rattle.volume_state.specs.ClosingLaws.Indexed.{IndexesStay};
ghost use Rattle.volume_state.specs.ClosingLaws.Near.{ClosesCanTell};
ghost use Rattle.volume_state.specs.ClosingLaws.Owned.{OwnIndexesStay, SyncsAreCovered};
ghost use Rattle.volume_state.specs.ClosingLaws.Ready.{NoneIsAhead, TapesStayReady, VolumesRest};
ghost use Rattle.volume_state.specs.ClosingLaws.Whole.{WholesStay};

use tape_drive::Drive;

/// A volume stays safe over each command of its close.
pub fn closes_are_safe<D: Drive>()
    ensures { ClosesAreSafe D.Drive }
{}

/// The index that a close writes on the index partition is due.
pub fn indexes_of_closes_are_due<D: Drive>()
    ensures { IndexesOfClosesAreDue D }
{}

/// Once all commands of a close are done, the cartridge stands for the tree of the whole history.
pub fn closed_volumes_stand<D: Drive>()
    ensures { ClosedVolumesStand D.Drive }
{}

/// The index that a close writes on the index partition can be told.
pub fn closes_can_tell<D: Drive>()
    ensures { ClosesCanTell D.Drive }
{}

/// A partition ends where it is planned to, once all ops are done that put anything on it.
pub fn wholes_stay()
    ensures { WholesStay }
{}

/// Where a close has no index to write on the data partition, no index of the index partition is ahead.
pub fn none_is_ahead<D: Drive>()
    ensures { NoneIsAhead D.Drive }
{}

/// There the data partition then ends where it is planned to, and where nothing was asked of the tape it is untouched.
pub fn tapes_stay_ready<D: Drive>()
    ensures { TapesStayReady D.Drive }
{}

/// And as long as nothing has changed since its last index, that tells the tree of the whole history.
pub fn indexes_stay<D: Drive>()
    ensures { IndexesStay D }
{}

/// And the indexes that the history has admitted are its top, each a link of the chain with the tree of its place.
pub fn own_indexes_stay<D: Drive>()
    ensures { OwnIndexesStay D }
{}

/// Behind a sync that is done the newest of them tells the tree that the sync covers.
pub fn syncs_are_covered()
    ensures { SyncsAreCovered }
{}

/// Where nothing was asked of the tape a crash leaves no more than at the start.
pub fn volumes_rest<D: Drive>()
    ensures { VolumesRest D.Drive }
{}
