//! What the headline says of the drive in memory, in words of that drive's record alone, and of a tape on a disk.

ghost use Rattle.ltfs_server.specs.Again.{CrashesLeaveReady};
ghost use Rattle.ltfs_server.specs.Disks.{SurvivesOnDisks, SurvivesOnDisksInMemory};
ghost use Rattle.ltfs_server.specs.Generations.{RunsLeaveGenerations};
ghost use Rattle.ltfs_server.specs.Ready.{LeavesReady};
ghost use Rattle.ltfs_server.specs.Sentence.{SurvivesInMemory};

use byte_disk::{ByteDisk, MemDisk, crash_gives_all, files_are_told, since_gives_all};
use image_tape::{ImageTape, images_open};
use run_laws::{runs_are_in_memory, runs_in_memory_survive};
use tape_drive::{Drive, MemDrive};

/// A run of `serve` or of `make` has left this drive and a log, and had begun with a drive in memory whose cartridge
/// stood for a tree and was sound, with nothing pending. Each image that a crash may leave now by two cuts, and each
/// that one may have left at any moment of the run, stands for the tree after some first placements of the log, among
/// them all that were placed before any sync that was acknowledged by then.
pub fn headlines_survive_in_memory(drive: &MemDrive)
    ensures { SurvivesInMemory ⟦<MemDrive as Drive>⟧ drive.now }
{
    runs_are_in_memory();
    runs_in_memory_survive(drive);
}

/// Over any drive that tells its cartridge: `format`, and then one run after the other that is closed, leave it ready for
/// the next run, which is what the headline asks of a drive.
pub fn drives_are_left_ready<D: Drive>()
    ensures { LeavesReady D.Drive }
{}

/// A run of `serve` or of `make` has left this tape and a log, over a disk that tells its files, and had begun with a
/// tape that was opened on files which meant a cartridge that stood for a tree and was sound. Each disk that a crash may
/// leave now, and each that one may have left at any moment of the run, opens, as a cartridge that stands for the tree
/// after some first placements of the log, among them all that were placed before any sync that was acknowledged by
/// then.
pub fn headlines_survive_on_disks<B: ByteDisk>(tape: &ImageTape<B>)
    ensures { SurvivesOnDisks B.ByteDisk ⟦<ImageTape<B> as Drive>⟧ tape.now }
{
    images_open(tape);
}

/// The same over a disk in memory, in words of that disk's record. Each disk that `crash_with`, `crash` or `crash_by`
/// gives now, and each that one of them gave right before or right after any command of the disk that began in the run,
/// opens, as a cartridge that stands for the tree after some first placements of the log, among them all that were placed
/// before any sync that was acknowledged by then.
pub fn headlines_survive_on_disks_in_memory(tape: &ImageTape<MemDisk>)
    ensures { SurvivesOnDisksInMemory ⟦<MemDisk as ByteDisk>⟧ ⟦<ImageTape<MemDisk> as Drive>⟧ tape.now }
{
    headlines_survive_on_disks(tape);
    let disk = tape.disk();
    files_are_told(disk);
    crash_gives_all(disk);
    since_gives_all(disk);
}

/// A run of `serve` or of `make` had begun with a drive in memory whose cartridge stood for a tree and was sound, with
/// nothing pending. Each image that a crash may leave of it is ready again for a run: a new drive with it stands for the
/// tree after some first placements of the log, with all that a sync covered which was acknowledged, or for the same
/// tree where there is no log.
pub fn crashes_leave_drives_ready()
    ensures { CrashesLeaveReady ⟦<MemDrive as Drive>⟧ }
{}

/// A run of `serve` or of `make` was closed, over any drive that told a cartridge as it began. The indexes that its history
/// and its close have put on the data partition are the top of the chain, over the indexes that stood there before: each
/// is a generation of the volume, whose tree is the tree at the place where it was admitted.
pub fn runs_leave_generations<D: Drive>()
    ensures { RunsLeaveGenerations D.Drive }
{}
