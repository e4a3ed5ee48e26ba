use index_model::IndexErr;
use std::alloc::AllocError;
use tape_types::{Part, Place, Twin};

/// Why a cartridge does not mount: the first check that fails.
#[derive(Clone, Copy, Debug, PartialEq, Eq)]
pub enum MountErr {
    /// A partition does not begin with a VOL1 record and a file mark.
    Vol1(Part),
    /// A partition's third item is no block with a label, or no file mark stands behind it.
    Label(Part),
    /// The labels of the partitions are not of one volume.
    LabelsDiffer,
    /// A mark stands directly behind the mark that opens an index: the place of the second.
    Layout(Place),
    /// No partition has an index.
    NoIndex,
    /// The last index of a partition, which begins at this place, is the text of none, and why.
    BadIndex(Place, IndexErr),
    /// The last index of a partition has another UUID than the label.
    WrongVolume(Place),
    /// The last index of a partition does not point to itself, or not back to where it must.
    WrongPointer(Place),
    /// An extent of the file with this UID does not lie within the data of a partition.
    BadExtent(u64),
    /// The drive failed: its count of faults before and after.
    Drive(Twin),
    /// Memory was refused.
    NoMemory,
}

impl From<AllocError> for MountErr {
    ghost use Rattle.std.specs.Prelude.{◌≡◌};
    ghost use Rattle.cartridge_meaning.specs.declared.errors.MountErr.TheVariants as errors;

    ghost from_gives = { λ _ e. e ≡ errors.NoMemory };

    fn from(_e: AllocError) -> MountErr {
        MountErr::NoMemory
    }
}
