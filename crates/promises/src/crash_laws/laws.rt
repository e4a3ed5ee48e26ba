//! What keeps a served volume safe, call by call, and what that gives.

ghost use Rattle.promises.specs.CrashLaws.Laws.{HeadsDoOps, SafeVolumesSurvive, StartsAreSafe, StepsAreSafe};
ghost use Rattle.promises.specs.CrashLaws.Laws.{CallsAreSafe, PlansGrow, StandingsGoOn, SubmissionsAreSafe};
ghost use Rattle.promises.specs.CrashLaws.Laws.{SubmitsAreSafe};
ghost use Rattle.promises.specs.CrashLaws.Laws.{TurnsAreSafe};

use tape_drive::Drive;

/// A volume begins safe where the drive tells a cartridge that stands for its tree and is sound, of which the mount
/// tells, and which a crash leaves as it is.
pub fn starts_are_safe<D: Drive>()
    ensures { StartsAreSafe D.Drive }
{}

/// A submission keeps it safe, by what it asks of the tape.
pub fn submissions_are_safe<D: Drive>()
    ensures { SubmissionsAreSafe D.Drive }
{}

/// What stands goes on with the history.
#[tactic(auto, using(crate::proofs::CrashLaws::Placing::standings_go_on))]
pub fn standings_go_on<D: Drive>()
    ensures { StandingsGoOn D }
{}

/// So each call that is placed keeps it safe, with the space that the history leaves.
pub fn calls_are_safe<D: Drive>()
    ensures { CallsAreSafe D.Drive }
{}

/// So does each submission, in the words of what it adds to the view.
pub fn submits_are_safe<D: Drive>()
    ensures { SubmitsAreSafe D.Drive }
{}

/// What is planned grows by the items of the ops that a submission adds.
#[tactic(auto, using(crate::proofs::CrashLaws::Grown::plans_grow))]
pub fn plans_grow()
    ensures { PlansGrow }
{}

/// What a head says of an op is what the theory of crashes asks of it.
#[tactic(auto, using(crate::proofs::CrashLaws::Bridge::heads_do_ops))]
pub fn heads_do_ops<D: Drive>()
    ensures { HeadsDoOps D.Drive }
{}

/// A step of the head keeps it safe, and its first op can be done.
pub fn steps_are_safe<D: Drive>()
    ensures { StepsAreSafe D.Drive }
{}

/// Each turn of the head keeps it safe, in the words of what it adds to the view.
pub fn turns_are_safe<D: Drive>()
    ensures { TurnsAreSafe D.Drive }
{}

/// A safe volume keeps the promise on crashes.
pub fn safe_volumes_survive<D: Drive>()
    ensures { SafeVolumesSurvive D.Drive }
{}
