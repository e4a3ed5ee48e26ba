ghost use Rattle.head_core.specs.Laws.{CrashesKeepFronts, FlushesMakeSure, FrontsStaySure, OpsKeepFronts};

use tape_drive::Drive;

/// An op that was written stands last at its place, and what stands in front of it stays, however the op ends.
#[tactic(auto, using(crate::proofs::Fronts::ops_keep))]
pub fn ops_keep_what_stands_in_front()
    ensures { OpsKeepFronts }
{}

/// A crash within an op leaves what it could leave before, how the cartridge reads after the op, and nothing in which
/// what stands in front of the op has changed.
#[tactic(auto, using(crate::proofs::Fronts::crashes_keep))]
pub fn crashes_keep_what_stands_in_front()
    ensures { CrashesKeepFronts }
{}

/// Over any drive that tells its cartridge: a flush makes it sure, and what stands in front of an op stays so over its
/// step.
pub fn what_is_sure_stays_sure<D: Drive>()
    ensures flushed { FlushesMakeSure D.Drive }
    ensures kept { FrontsStaySure D.Drive }
{}
