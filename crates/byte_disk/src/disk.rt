// The trait of a disk.
ghost use Rattle.std.specs.Prelude.{◌≡◌, ◌≤◌, ◌<◌, ◌^◌, ◌-◌, ◌+◌, ℕ, Option, Some, None, length, IfOk, IfSome, OnOk};
ghost use Rattle.tape_types.specs.Counts.{HasCause};
ghost use Rattle.crash_steps.specs.Crashes.{Crashes, NothingNew};
ghost use Rattle.byte_disk.specs.Files.{Files, bytes_of, bytes_at, AfterWrite, AreFiles};
ghost use Rattle.byte_disk.specs.Commands.{IsOneMore, WithinWrite, IsFileSure};

/// One of the files of a cartridge's image.
#[derive(Clone, Copy, Debug, PartialEq, Eq)]
pub enum File {
    /// The items of the index partition.
    Ip,
    /// The items of the data partition.
    Dp,
    /// How many of them count, and what the cartridge's memory has.
    Cm,
}

/// A command of a disk failed.
#[derive(Clone, Copy, Debug, PartialEq, Eq)]
pub struct DiskFault;

/// A disk with three files of bytes. The four calls from `length` to `sync` are its commands.
pub trait ByteDisk: Drop {
    // The files as they read, where the disk tells them. They hold bytes alone.
    ghost held: { Self → Option Files };

    ghost faults: { Self → ℕ };

    ghost commands: { Self → ℕ };

    // What a crash at this moment may leave.
    ghost leaves: { Self → Files → Type 0 };

    // What a crash may have left, at this moment or at an earlier one since the number of commands reached this.
    ghost left_since: { Self → ℕ → Files → Type 0 };

    /// How often the disk has failed. It never falls, and stands still at 2^64 - 1.
    fn faults(&self) -> u64
        ensures { result ≡ faults self.now };

    /// How many commands the disk has had. It stands still at 2^64 - 1.
    fn commands(&self) -> u64
        ensures { result ≡ commands self.now };

    /// How many bytes a file has.
    fn length(&mut self, file: File) -> Result<u64, DiskFault>
        ensures value { IfOk result (λ n. (d : Files) → held self.old ≡ Some d → n ≡ length (bytes_of file d)) }
        ensures held { held self.new ≡ held self.old }
        ensures count { IsOneMore (commands self.old) (commands self.new) }
        ensures cause { HasCause (faults self.old) (faults self.new) result }
        ensures crash { Crashes NothingNew (commands self.old)
            (leaves self.old) (leaves self.new) (left_since self.old) (left_since self.new) };

    /// Fills the buffer with the bytes of a file from a place on. All of them lie within the file.
    fn read(&mut self, file: File, at: u64, buf: &mut [u8]) -> Result<(), DiskFault>
        requires within { IfSome (held self.old) (λ d. at + length buf.old ≤ length (bytes_of file d)) }
        ensures size { length buf.new ≡ length buf.old }
        ensures value { (d : Files) → held self.old ≡ Some d
            → OnOk result (buf.new ≡ bytes_at at (length buf.old) (bytes_of file d)) }
        ensures held { held self.new ≡ held self.old }
        ensures count { IsOneMore (commands self.old) (commands self.new) }
        ensures cause { HasCause (faults self.old) (faults self.new) result }
        ensures crash { Crashes NothingNew (commands self.old)
            (leaves self.old) (leaves self.new) (left_since self.old) (left_since self.new) };

    /// Writes bytes to a file from a place on that is at most its length. They end below 2^62. Until a sync of this
    /// file succeeds, a crash leaves any bytes in their place, also where the write fails.
    fn write(&mut self, file: File, at: u64, bytes: &[u8]) -> Result<(), DiskFault>
        requires within { IfSome (held self.old) (λ d. at ≤ length (bytes_of file d)) }
        requires end { at + length bytes.now < 2 ^ 62 }
        ensures told { (d : Files) → held self.old ≡ Some d
            → (e : Files) × (held self.new ≡ Some e) × AfterWrite result file at bytes.now d e }
        ensures untold { held self.old ≡ None → held self.new ≡ None }
        ensures count { IsOneMore (commands self.old) (commands self.new) }
        ensures cause { HasCause (faults self.old) (faults self.new) result }
        ensures crash { Crashes (WithinWrite file at (length bytes.now)) (commands self.old)
            (leaves self.old) (leaves self.new) (left_since self.old) (left_since self.new) };

    /// Makes a file durable as it reads. One that fails makes nothing durable.
    fn sync(&mut self, file: File) -> Result<(), DiskFault>
        ensures sure { OnOk result (IsFileSure file (held self.new) (leaves self.new)) }
        ensures held { held self.new ≡ held self.old }
        ensures count { IsOneMore (commands self.old) (commands self.new) }
        ensures cause { HasCause (faults self.old) (faults self.new) result }
        ensures crash { Crashes NothingNew (commands self.old)
            (leaves self.old) (leaves self.new) (left_since self.old) (left_since self.new) };

    // Since the present number there is no other moment than this one, unless the number stands at its end.
    ghost only_now: { (s : Self) (image : Files) → commands s < 2 ^ 64 - 1
        → left_since s (commands s) image → leaves s image };

    // This moment is one of those since an earlier number.
    ghost counts_now: { (s : Self) (t : ℕ) (image : Files) → t ≤ commands s → leaves s image
        → left_since s t image };

    // There is no more since a greater number than since a smaller one.
    ghost lower: { (s : Self) (t u : ℕ) (image : Files) → t ≤ u → left_since s u image → left_since s t image };

    // What a file holds is bytes.
    ghost bytes: { (s : Self) (d : Files) → held s ≡ Some d → AreFiles d };
}
