//! Laws of a close, over any drive.

ghost use Rattle.volume_core.specs.Promised.{ClosesEnd};

use tape_drive::Drive;

/// The close of a volume in which nothing waits ends as is promised.
pub fn closes_end<D: Drive>()
    ensures { ClosesEnd D.Drive }
{}
