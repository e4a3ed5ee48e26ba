//! What a crash leaves of a run over the drive in memory, which gives each image that a crash may leave.

ghost use Rattle.run_laws.specs.Memory.{NewDrivesAreReady, RunSurvives, RunsAreInMemory};

use tape_drive::{Drive, MemDrive, since_gives_all};

/// A run has ended with this drive, and had begun with one whose cartridge stood for a tree and was sound, with nothing
/// pending. Each image that a crash may leave now stands for the tree after some first placements of the log, among
/// them all that were placed before any sync that was acknowledged.
pub fn runs_in_memory_survive(drive: &MemDrive)
    ensures { RunSurvives drive.now }
{
    since_gives_all(drive);
}

/// A drive that was made with a cartridge that stands for a tree and is sound has nothing pending.
pub fn new_drives_are_ready()
    ensures { NewDrivesAreReady }
{}

/// What is promised of a run over any drive is promised of one over a drive in memory by that drive's record.
pub fn runs_are_in_memory()
    ensures { RunsAreInMemory ⟦<MemDrive as Drive>⟧ }
{}
