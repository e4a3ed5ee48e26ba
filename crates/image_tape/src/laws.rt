// What is true of every tape over a disk of byte files.
ghost use Rattle.image_tape.specs.Laws.{ImagesOpen};

use crate::tape::ImageTape;
use byte_disk::ByteDisk;

/// Where the disk tells its files: each disk that a crash may have left since the tape was opened opens, as a cartridge
/// that the tape tells as one that a crash may have left; and each that it may leave now opens as one that it tells of
/// now.
pub fn images_open<B: ByteDisk>(tape: &ImageTape<B>)
    ensures { ImagesOpen B.ByteDisk tape.now }
{
    // What is kept of the files tells what they hold.
    let _kept = tape.doubt;
}
