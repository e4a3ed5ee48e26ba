// The trait of a drive.
ghost use Rattle.std.specs.Prelude.{◌≡◌, ◌≤◌, ◌<◌, ◌^◌, ◌-◌, ℕ, Option, Some, None, length, vec_capacity, IsErr};
ghost use Rattle.std.specs.Prelude.{IfOk, IfSome, OnOk, OnErr};
ghost use Rattle.tape_types.specs.declared.cartridges.Cartridge.{Cartridge};
ghost use Rattle.tape_types.specs.declared.cartridges.Limits.{Limits};
ghost use Rattle.tape_types.specs.declared.cartridges.Place.{Place};
ghost use Rattle.tape_types.specs.declared.cartridges.Item.TheVariants as item;
ghost use Rattle.tape_types.specs.declared.cartridges.Note.TheVariants as kind;
ghost use Rattle.tape_types.specs.Cartridges.{items_of, note_of, capacity, next, IsLimits, FitsLimits};
ghost use Rattle.tape_drive.specs.Commands.{HasRoom, Commanded, item_at, IsRead, FillsBuffer, after_read, AfterWrite};
ghost use Rattle.tape_drive.specs.Commands.{AfterNote};
ghost use Rattle.tape_drive.specs.Crashes.{WithinWrite, WithinNote, WithinFlush, NothingNew, Crashes, IsSure};
ghost use Rattle.tape_drive.specs.Crashes.{IsSettled};
ghost use Rattle.tape_drive.specs.Crashes.{LeavesAllowed};

use tape_types::{Limits, Note, Part, Place};

/// What a read found at the head.
#[derive(Clone, Copy, Debug, PartialEq, Eq)]
pub enum Got {
    /// A block; its bytes are in the buffer.
    Block,
    /// A file mark.
    Mark,
    /// No item: the head stands behind the last one.
    End,
    /// What a write that was cut off has left.
    Torn,
}

/// Why a command did not succeed.
#[derive(Clone, Copy, Debug, PartialEq, Eq)]
pub enum DriveErr {
    /// The drive failed.
    Failed,
}

/// A drive with one cartridge of two partitions (LTFS 2.4 on partitions).
///
/// The eight calls from `locate` to `vcr` are its commands. After one that failed the head has to be located again.
/// Those that write require that the drive's owner allows all that a crash may leave within them or after them.
pub trait Drive: Drop {
    /// By how much one command may raise the number of commands.
    const MOST: u64;

    ghost MOST: { ℕ };

    // The cartridge as it reads, where the drive tells it.
    ghost held: { Self → Option Cartridge };

    // Where the head stands, where it is located.
    ghost head: { Self → Option Place };

    ghost limits: { Self → Limits };

    ghost faults: { Self → ℕ };

    ghost commands: { Self → ℕ };

    // What a crash at this moment may leave.
    ghost leaves: { Self → Cartridge → Type 0 };

    // What a crash may have left, at this moment or at an earlier one since the number of commands reached this.
    ghost left_since: { Self → ℕ → Cartridge → Type 0 };

    // What the owner of such a drive allows a crash to leave.
    ghost allows: { Cartridge → Type 0 };

    /// The capacities, of 4 to 2^40 positions each.
    fn limits(&self) -> Limits
        ensures value { result ≡ limits self.now }
        ensures range { IsLimits result }
        ensures fits { IfSome (held self.now) (λ c. FitsLimits result c) };

    /// How often the drive has failed. It never falls, and stands still at 2^64 - 1.
    fn faults(&self) -> u64
        ensures { result ≡ faults self.now };

    /// How many commands the drive has had. It stands still at 2^64 - 1.
    fn commands(&self) -> u64
        ensures { result ≡ commands self.now };

    /// Moves the head to a position that an item can have, at most one past the last.
    fn locate(&mut self, place: Place) -> Result<(), DriveErr>
        requires within { IfSome (held self.old) (λ c. place.pos ≤ length (items_of place.part c)) }
        requires room { place.pos < capacity place.part (limits self.old) }
        ensures head { OnOk result (head self.new ≡ Some place) }
        ensures lost { OnErr result (head self.new ≡ None) }
        ensures held { held self.new ≡ held self.old }
        ensures command { Commanded MOST (limits self.old) (limits self.new) (commands self.old) (commands self.new)
            (faults self.old) (faults self.new) result }
        ensures crash { Crashes NothingNew (commands self.old)
            (leaves self.old) (leaves self.new) (left_since self.old) (left_since self.new) };

    /// Reads what stands at the head, and puts a block's bytes in the place of what the buffer had.
    /// The buffer has room for 1,048,576 bytes, before and after.
    fn read(&mut self, buf: &mut Vec<u8>) -> Result<Got, DriveErr>
        requires located { (at : Place) × (head self.old ≡ Some at) }
        requires room { 1048576 ≤ vec_capacity buf.old }
        ensures room { 1048576 ≤ vec_capacity buf.new }
        ensures item { IfOk result (λ answer. (at : Place) (c : Cartridge) → head self.old ≡ Some at
            → held self.old ≡ Some c → IsRead (item_at at c) answer buf.new.items) }
        ensures bytes { IfOk result (λ answer. FillsBuffer answer buf.new.items) }
        ensures at_capacity { IfOk result (λ answer. (at : Place) → head self.old ≡ Some at
            → capacity at.part (limits self.old) ≤ at.pos → answer ≡ Got.End) }
        ensures head { IfOk result (λ answer. (at : Place) → head self.old ≡ Some at
            → head self.new ≡ Some (after_read answer at)) }
        ensures lost { OnErr result (head self.new ≡ None) }
        ensures held { held self.new ≡ held self.old }
        ensures command { Commanded MOST (limits self.old) (limits self.new) (commands self.old) (commands self.new)
            (faults self.old) (faults self.new) result }
        ensures crash { Crashes NothingNew (commands self.old)
            (leaves self.old) (leaves self.new) (left_since self.old) (left_since self.new) };

    /// Cuts the partition at the head, and appends a block of 1 to 1,048,576 bytes.
    fn write(&mut self, bytes: &[u8]) -> Result<(), DriveErr>
        requires located { HasRoom (head self.old) (limits self.old) }
        requires some { 1 ≤ length bytes.now }
        requires size { length bytes.now ≤ 1048576 }
        requires allowed { (at : Place) (c : Cartridge) → head self.old ≡ Some at → held self.old ≡ Some c
            → LeavesAllowed (WithinWrite at.part at.pos (item.Block bytes.now) c) (leaves self.old) allows }
        ensures head { (at : Place) → head self.old ≡ Some at → OnOk result (head self.new ≡ Some (next at)) }
        ensures lost { OnErr result (head self.new ≡ None) }
        ensures told { (at : Place) (c : Cartridge) → head self.old ≡ Some at → held self.old ≡ Some c
            → (d : Cartridge) × (held self.new ≡ Some d)
            × AfterWrite result at.part at.pos (item.Block bytes.now) c d }
        ensures untold { held self.old ≡ None → held self.new ≡ None }
        ensures vcr_at_end { (c : Cartridge) → held self.old ≡ Some c → 2 ^ 64 - 1 ≤ c.vcr
            → IsErr result × (held self.new ≡ Some c) }
        ensures command { Commanded MOST (limits self.old) (limits self.new) (commands self.old) (commands self.new)
            (faults self.old) (faults self.new) result }
        ensures crash { (at : Place) (c : Cartridge) → head self.old ≡ Some at → held self.old ≡ Some c
            → Crashes (WithinWrite at.part at.pos (item.Block bytes.now) c) (commands self.old)
            (leaves self.old) (leaves self.new) (left_since self.old) (left_since self.new) };

    /// Cuts the partition at the head, and appends a file mark.
    fn mark(&mut self) -> Result<(), DriveErr>
        requires located { HasRoom (head self.old) (limits self.old) }
        requires allowed { (at : Place) (c : Cartridge) → head self.old ≡ Some at → held self.old ≡ Some c
            → LeavesAllowed (WithinWrite at.part at.pos item.Mark c) (leaves self.old) allows }
        ensures head { (at : Place) → head self.old ≡ Some at → OnOk result (head self.new ≡ Some (next at)) }
        ensures lost { OnErr result (head self.new ≡ None) }
        ensures told { (at : Place) (c : Cartridge) → head self.old ≡ Some at → held self.old ≡ Some c
            → (d : Cartridge) × (held self.new ≡ Some d)
            × AfterWrite result at.part at.pos item.Mark c d }
        ensures untold { held self.old ≡ None → held self.new ≡ None }
        ensures vcr_at_end { (c : Cartridge) → held self.old ≡ Some c → 2 ^ 64 - 1 ≤ c.vcr
            → IsErr result × (held self.new ≡ Some c) }
        ensures command { Commanded MOST (limits self.old) (limits self.new) (commands self.old) (commands self.new)
            (faults self.old) (faults self.new) result }
        ensures crash { (at : Place) (c : Cartridge) → head self.old ≡ Some at → held self.old ≡ Some c
            → Crashes (WithinWrite at.part at.pos item.Mark c) (commands self.old)
            (leaves self.old) (leaves self.new) (left_since self.old) (left_since self.new) };

    /// Makes both partitions durable as they read.
    fn flush(&mut self) -> Result<(), DriveErr>
        requires allowed { (c : Cartridge) → held self.old ≡ Some c
            → LeavesAllowed (WithinFlush c) (leaves self.old) allows }
        ensures sure { OnOk result (IsSure (held self.new) (leaves self.new)) }
        ensures head { OnOk result (head self.new ≡ head self.old) }
        ensures lost { OnErr result (head self.new ≡ None) }
        ensures held { held self.new ≡ held self.old }
        ensures command { Commanded MOST (limits self.old) (limits self.new) (commands self.old) (commands self.new)
            (faults self.old) (faults self.new) result }
        ensures crash { (c : Cartridge) → held self.old ≡ Some c → Crashes (WithinFlush c) (commands self.old)
            (leaves self.old) (leaves self.new) (left_since self.old) (left_since self.new) };

    /// Reads the coherency attribute of a partition (LTFS 2.4 on volume coherency information).
    fn read_note(&mut self, part: Part) -> Result<Note, DriveErr>
        ensures value { IfOk result (λ note. (c : Cartridge) → held self.old ≡ Some c → note ≡ note_of part c) }
        ensures settled { OnOk result (IsSettled (held self.new) (leaves self.new)) }
        ensures head { OnOk result (head self.new ≡ head self.old) }
        ensures lost { OnErr result (head self.new ≡ None) }
        ensures held { held self.new ≡ held self.old }
        ensures command { Commanded MOST (limits self.old) (limits self.new) (commands self.old) (commands self.new)
            (faults self.old) (faults self.new) result }
        ensures crash { Crashes NothingNew (commands self.old)
            (leaves self.old) (leaves self.new) (left_since self.old) (left_since self.new) };

    /// Writes the coherency attribute of a partition.
    fn write_note(&mut self, part: Part, note: &[u8; 70]) -> Result<(), DriveErr>
        requires allowed { (c : Cartridge) → held self.old ≡ Some c
            → LeavesAllowed (WithinNote part (kind.Kept note.now)) (leaves self.old) allows }
        ensures told { (c : Cartridge) → held self.old ≡ Some c → (d : Cartridge) × (held self.new ≡ Some d)
            × AfterNote result part (kind.Kept note.now) c d }
        ensures untold { held self.old ≡ None → held self.new ≡ None }
        ensures settled { OnOk result (IsSettled (held self.new) (leaves self.new)) }
        ensures head { OnOk result (head self.new ≡ head self.old) }
        ensures lost { OnErr result (head self.new ≡ None) }
        ensures command { Commanded MOST (limits self.old) (limits self.new) (commands self.old) (commands self.new)
            (faults self.old) (faults self.new) result }
        ensures crash { (c : Cartridge) → held self.old ≡ Some c
            → Crashes (WithinNote part (kind.Kept note.now)) (commands self.old)
            (leaves self.old) (leaves self.new) (left_since self.old) (left_since self.new) };

    /// Reads the volume change reference (LTFS 2.4 on medium auxiliary memory).
    fn vcr(&mut self) -> Result<u64, DriveErr>
        ensures value { IfOk result (λ n. (c : Cartridge) → held self.old ≡ Some c → n ≡ c.vcr) }
        ensures settled { OnOk result (IsSettled (held self.new) (leaves self.new)) }
        ensures head { OnOk result (head self.new ≡ head self.old) }
        ensures lost { OnErr result (head self.new ≡ None) }
        ensures held { held self.new ≡ held self.old }
        ensures command { Commanded MOST (limits self.old) (limits self.new) (commands self.old) (commands self.new)
            (faults self.old) (faults self.new) result }
        ensures crash { Crashes NothingNew (commands self.old)
            (leaves self.old) (leaves self.new) (left_since self.old) (left_since self.new) };

    // Since the present number there is no other moment than this one, unless the number stands at its end.
    ghost only_now: { (d : Self) (image : Cartridge) → commands d < 2 ^ 64 - 1
        → left_since d (commands d) image → leaves d image };

    // This moment is one of those since an earlier number.
    ghost counts_now: { (d : Self) (t : ℕ) (image : Cartridge) → t ≤ commands d → leaves d image
        → left_since d t image };

    // There is no more since a greater number than since a smaller one.
    ghost lower: { (d : Self) (t u : ℕ) (image : Cartridge) → t ≤ u → left_since d u image → left_since d t image };
}
