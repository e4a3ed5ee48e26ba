//! What the index of a sync is, for the theory of crashes.

ghost use Rattle.volume_state.specs.DueLaws.Behind.{TreesBeginBehindLabels};
ghost use Rattle.volume_state.specs.DueLaws.Laws.{AdmittedTextsAreShort, IndexesAreDue, MountsHaveTrees};
ghost use Rattle.volume_state.specs.DueLaws.Laws.{MountsTellLabels};
ghost use Rattle.volume_state.specs.DueLaws.Laws.{StocksGoByTheTape};

use tape_drive::Drive;

/// The index of a sync is due, where a volume holds what stands on tape once all ops are done.
pub fn indexes_are_due<D: Drive>()
    ensures { IndexesAreDue D }
{}

/// A tree that was mounted begins behind the labels, and so does what calls make of it.
pub fn labels_stay_before()
    ensures { TreesBeginBehindLabels }
{}

/// The label of a mount is that of whatever is found of its cartridge.
pub fn mounts_tell_labels()
    ensures { MountsTellLabels }
{}

/// Each index that can be mounted has a tree.
pub fn mounts_have_trees()
    ensures { MountsHaveTrees }
{}

/// What is held for one tape is held for each other on which the tree's blocks are the same.
pub fn stocks_go_by_the_tape()
    ensures { StocksGoByTheTape }
{}

/// The text of an index that is admitted has fewer than 2^64 bytes.
pub fn admitted_texts_are_short()
    ensures { AdmittedTextsAreShort }
{}
