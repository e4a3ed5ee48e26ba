// What the contract of a drive is good for: a block that is on the tape for sure.
ghost use Rattle.std.specs.Prelude.{◌≡◌, ◌≤◌, ◌<◌, ◌-◌, ◌*◌, ◌^◌, length, IfOk, IfSome, Some};
ghost use Rattle.tape_types.specs.declared.cartridges.Cartridge.{Cartridge};
ghost use Rattle.tape_types.specs.declared.cartridges.Item.TheVariants as item;
ghost use Rattle.tape_types.specs.Cartridges.{items_of, capacity};
ghost use Rattle.tape_drive.specs.Commands.{Commanded, item_at};
ghost use Rattle.tape_drive.specs.Crashes.{Crashes, LeavesAllowed, WithinDurably};

use crate::drive::{Drive, DriveErr};
use tape_types::Place;

/// Writes a block of 1 to 1,048,576 bytes at a place, and makes it durable. Answers the number of commands as this
/// ends: whatever a crash may have left since then has the block there, unless that number is 2^64 - 1.
pub fn write_durably<D: Drive>(drive: &mut D, place: Place, bytes: &[u8]) -> Result<u64, DriveErr>
    requires within { IfSome (D.held drive.old) (λ c. place.pos ≤ length (items_of place.part c)) }
    requires room { place.pos < capacity place.part (D.limits drive.old) }
    requires some { 1 ≤ length bytes.now }
    requires size { length bytes.now ≤ 1048576 }
    requires allowed { (c : Cartridge) → D.held drive.old ≡ Some c
        → LeavesAllowed (WithinDurably place.part place.pos (item.Block bytes.now) c) (D.leaves drive.old) D.allows }
    ensures kept { IfOk result (λ t. (c image : Cartridge) → D.held drive.old ≡ Some c → t < 2 ^ 64 - 1
        → D.left_since drive.new t image → item_at place image ≡ Some (item.Block bytes.now)) }
    // A crash at any moment of the call leaves what one could leave before, or what it may leave within the write, or
    // the cartridge as it reads once that is done.
    ensures any_moment { (c : Cartridge) → D.held drive.old ≡ Some c
        → Crashes (WithinDurably place.part place.pos (item.Block bytes.now) c) (D.commands drive.old)
        (D.leaves drive.old) (D.leaves drive.new) (D.left_since drive.old) (D.left_since drive.new) }
    ensures command { Commanded (3 * D.MOST) (D.limits drive.old) (D.limits drive.new)
        (D.commands drive.old) (D.commands drive.new) (D.faults drive.old) (D.faults drive.new) result }
{
    match drive.locate(place) {
        Ok(()) => match drive.write(bytes) {
            Ok(()) => match drive.flush() {
                Ok(()) => Ok(drive.commands()),
                Err(e) => Err(e),
            },
            Err(e) => Err(e),
        },
        Err(e) => Err(e),
    }
}
