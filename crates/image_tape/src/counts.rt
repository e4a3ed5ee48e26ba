// How many items read.
ghost use Rattle.std.specs.Prelude.{◌≡◌, ◌+◌};
ghost use Rattle.image_format.specs.Values.{flag};
ghost use Rattle.image_tape.specs.Halves.{half_of};

use crate::halves::half_of;
use crate::tape::ImageTape;
use byte_disk::ByteDisk;
use tape_types::Part;

impl<B: ByteDisk> ImageTape<B> {
    /// How many items of a partition read, as of the last command that succeeded. A torn one behind the records counts.
    pub fn count(&self, part: Part) -> u64
        ensures { result ≡ (half_of part self.now.reads).count + flag (half_of part self.now.reads).torn }
    {
        // What is kept of the files tells what they hold.
        let _kept = self.doubt;
        let half = half_of(part, &self.reads);
        if half.torn {
            return half.count + 1;
        }
        half.count
    }
}
