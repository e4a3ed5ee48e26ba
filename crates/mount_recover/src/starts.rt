//! How a drive was when a mount began.

ghost use Rattle.std.specs.Prelude.{◌≡◌};
ghost use Rattle.mount_recover.specs.Steps.{IsSince};

use tape_drive::Drive;
use tape_types::Limits;

/// The count of faults and the capacities of a drive when a mount began.
#[derive(Clone, Copy)]
pub struct Start {
    pub faults: u64,
    pub limits: Limits,
}

/// How a drive is now.
pub fn begin<D: Drive>(drive: &D) -> Start
    ensures since { IsSince D.Drive result drive.now }
    ensures faults { result.faults ≡ D.faults drive.now }
{
    // The number of commands is in its range.
    let _commands_are_in_range = drive.commands();
    Start {
        faults: drive.faults(),
        limits: drive.limits(),
    }
}
