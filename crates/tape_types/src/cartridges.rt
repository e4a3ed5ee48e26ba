ghost use Rattle.std.specs.Prelude.{◌≡◌, IfOk};

use crate::lists::List;
use crate::texts::{Bytes, NoMemory};
use std::alloc::Global;

/// One of the two partitions of a cartridge (LTFS 2.4 on partitions).
#[derive(Clone, Copy, Debug, PartialEq, Eq, Hash)]
pub enum Part {
    /// The index partition.
    Ip,
    /// The data partition.
    Dp,
}

/// A position of a partition, counted in items from its beginning.
#[derive(Clone, Copy, Debug, PartialEq, Eq, Hash)]
pub struct Place {
    pub part: Part,
    pub pos: u64,
}

/// A run of bytes of a file on tape (LTFS 2.4 on data extents). It begins at byte `byte` of
/// the block at position `block` of `part` and goes on through the blocks after it. Its
/// `count` bytes stand in the file from byte `offset` on.
#[derive(Clone, Copy, Debug, PartialEq, Eq)]
pub struct Extent {
    pub offset: u64,
    pub block: u64,
    pub count: u64,
    pub byte: u32,
    pub part: Part,
}

/// What stands at one position of a partition.
#[derive(Drop)]
pub enum Item {
    /// A block of 1 to 1,048,576 bytes.
    Block(Bytes),
    /// A file mark.
    Mark,
    /// What a write that was cut off has left: it can't be read.
    Torn,
}

impl Item {
    /// A second item that equals this one.
    pub fn try_clone(&self, alloc: Global) -> Result<Item, NoMemory>
        ensures { IfOk result (λ copy. copy ≡ self.now) }
    {
        match self {
            Item::Block(bytes) => Ok(Item::Block(bytes.try_clone(alloc)?)),
            Item::Mark => Ok(Item::Mark),
            Item::Torn => Ok(Item::Torn),
        }
    }
}

/// The volume coherency attribute of a partition (LTFS 2.4 on volume coherency information).
#[derive(Clone, Copy)]
pub enum Note {
    Absent,
    Kept([u8; 70]),
}

/// What a cartridge holds: the items of both partitions, the volume change reference and
/// the coherency attribute of each partition.
#[derive(Drop)]
pub struct Cartridge {
    pub ip: List<Item>,
    pub dp: List<Item>,
    pub vcr: u64,
    pub note_ip: Note,
    pub note_dp: Note,
}

/// How many items each partition can hold.
#[derive(Clone, Copy, Debug, PartialEq, Eq)]
pub struct Limits {
    pub cap_ip: u64,
    pub cap_dp: u64,
}

/// A count before an event and after it.
#[derive(Clone, Copy, Debug, PartialEq, Eq)]
pub struct Twin {
    pub before: u64,
    pub after: u64,
}
