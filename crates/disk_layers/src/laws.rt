//! What a crash may leave of the disk inside it may leave of the disk over it.
ghost use Rattle.std.specs.Prelude.{ℕ, ◌<◌, ◌-◌, ◌^◌};
ghost use Rattle.byte_disk.specs.Files.{Files};
ghost use Rattle.own_count.specs.Own.{reached};
ghost use Rattle.disk_layers.specs.Held.{moment};
ghost use Rattle.disk_layers.specs.Layers.{commands_of};

use crate::ahead::ReadAhead;
use crate::held::HeldWrites;
use byte_disk::ByteDisk;

/// Of a disk that reads ahead: now; and since a number of its own commands what the disk inside may have left since the
/// number that it had reached by then, as long as that number stands below its end.
pub fn ahead_leaves_what_is_inside<B: ByteDisk>(disk: &ReadAhead<B>)
    ensures now { (image : Files) → B.leaves disk.now.disk image → ⟦<ReadAhead<B> as ByteDisk>⟧.leaves disk.now image }
    ensures since { (t : ℕ) (image : Files) → B.commands disk.now.disk < 2 ^ 64 - 1
        → B.left_since disk.now.disk (reached (commands_of B.ByteDisk) disk.now.past (tt, disk.now.disk) t) image
        → ⟦<ReadAhead<B> as ByteDisk>⟧.left_since disk.now t image }
{}

/// The same of a disk that holds writes back.
pub fn held_leaves_what_is_inside<B: ByteDisk>(disk: &HeldWrites<B>)
    ensures now { (image : Files) → B.leaves disk.now.disk image → ⟦<HeldWrites<B> as ByteDisk>⟧.leaves disk.now image }
    ensures since { (t : ℕ) (image : Files) → B.commands disk.now.disk < 2 ^ 64 - 1
        → B.left_since disk.now.disk (reached (commands_of B.ByteDisk) disk.now.past (moment disk.now) t) image
        → ⟦<HeldWrites<B> as ByteDisk>⟧.left_since disk.now t image }
{}
