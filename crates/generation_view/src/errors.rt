//! Why a chain breaks, and why nothing is told of one.

ghost use Rattle.std.specs.Prelude.{◌≡◌};
ghost use Rattle.generation_view.specs.Told.{refusal};

use cartridge_meaning::MountErr;
use index_model::IndexErr;
use tape_types::{Place, Twin};

/// Why the chain of indexes breaks at one of them: the first test that it fails.
#[derive(Clone, Copy, Debug, PartialEq, Eq)]
pub enum BreakWhy {
    /// Its blocks are the text of no index.
    Text(IndexErr),
    /// It has another UUID than the label.
    Volume,
    /// It doesn't point to itself, or not back to the one before it.
    Pointer,
    /// Its generation isn't below that of the one after it.
    Rises,
    /// An extent of the file with this UID doesn't end before the index, or before the index partition's end.
    Extent(u64),
}

/// Why no generation is told.
#[derive(Clone, Copy, Debug, PartialEq, Eq)]
pub enum ViewErr {
    /// The cartridge doesn't mount.
    Mount(MountErr),
    /// The chain breaks at the index with this first block.
    Broken(Place, BreakWhy),
    /// The way that was needed is sound, and has no such generation.
    NoGeneration(u64),
    /// The drive failed: its count of faults before and after.
    Drive(Twin),
    /// Memory was refused.
    NoMemory,
}

/// What a mount's refusal is here.
pub fn refusal(fault: MountErr) -> ViewErr
    ensures { result ≡ refusal fault }
{
    match fault {
        MountErr::Drive(counts) => ViewErr::Drive(counts),
        MountErr::NoMemory => ViewErr::NoMemory,
        _ => ViewErr::Mount(fault),
    }
}

/// Why nothing is read of a view.
#[derive(Clone, Copy, Debug, PartialEq, Eq)]
pub enum ReadErr {
    /// The drive failed: its count of faults before and after.
    Drive(Twin),
    /// Memory was refused.
    NoMemory,
}
