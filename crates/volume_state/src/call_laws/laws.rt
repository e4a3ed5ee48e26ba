ghost use Rattle.volume_state.specs.CallLaws.StartLaws.{BeginningsAreTied};
ghost use Rattle.volume_state.specs.CallLaws.SubmitLaws.{SubmissionsShow};
ghost use Rattle.volume_state.specs.CallLaws.StepLaws.{StepsCanBeMade, StepsShow};
ghost use Rattle.volume_state.specs.CallLaws.Laws.{DrainTurnsRun, RunningIsPromised, SubmissionsRun, TurnsRun};
ghost use Rattle.volume_state.specs.CallLaws.Laws.{VolumesRun};
ghost use Rattle.volume_state.specs.CallLaws.Sealed.{SealedVolumesStay};

use tape_drive::Drive;

/// A volume of which nothing was asked yet, and that holds what was mounted, is kept and tied.
pub fn beginnings_are_tied<D: Drive>()
    ensures { BeginningsAreTied D.Drive }
{}

/// A submission shows all that is asked of it, and leaves the volume tied.
pub fn submissions_show<D: Drive>()
    ensures { SubmissionsShow D.Drive }
{}

/// A step of the head shows all that is asked of a turn, and leaves the volume tied.
pub fn steps_show<D: Drive>()
    ensures { StepsShow D.Drive }
{}

/// Of a volume that is tied the next step can be made.
pub fn steps_can_be_made<D: Drive>()
    ensures { StepsCanBeMade D.Drive }
{}

/// What runs is all that is promised of a volume.
pub fn running_is_promised<D: Drive>()
    ensures { RunningIsPromised D.Drive }
{}

/// A volume that was mounted runs.
pub fn volumes_run<D: Drive>()
    ensures { VolumesRun D.Drive }
{}

/// A submission adds what is promised of it, and the volume runs on.
pub fn submissions_run<D: Drive>()
    ensures { SubmissionsRun D.Drive }
{}

/// So does a turn of a session that waits.
pub fn turns_run<D: Drive>()
    ensures { TurnsRun D.Drive }
{}

/// And a turn of a session that drains.
pub fn drain_turns_run<D: Drive>()
    ensures { DrainTurnsRun D.Drive }
{}

/// A volume that was mounted as sealed stays as it was, where the drive told a cartridge that read as its tree.
pub fn sealed_volumes_stay<D: Drive>()
    ensures { SealedVolumesStay D.Drive }
{}
