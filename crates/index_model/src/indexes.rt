use crate::nodes::Node;
use crate::text_list::TextList;
use ltfs_documents::doc_fields::LockState;
use tape_types::{List, Moment, Text};

/// Where an index stands on tape: the position of the first block of its document (LTFS 2.4 on
/// the self pointer and the back pointer).
#[derive(Clone, Copy, Debug, PartialEq, Eq)]
pub struct Spot {
    /// The partition's letter, `a` to `z` in ASCII.
    pub letter: u8,
    /// The position, counted in items from the partition's beginning. At most 2^62 in a valid
    /// index.
    pub block: u64,
}

/// Which files the index partition may hold (LTFS 2.4 on the data placement policy): those of
/// at most `size` bytes whose name one of the patterns matches, or of any name where there is
/// no pattern.
#[derive(Drop)]
pub struct Policy {
    /// In bytes, at most 2^62 in a valid index.
    pub size: u64,
    /// The patterns, in the order of the document. Each may be any text, an empty one too.
    pub names: TextList,
}

/// An index of a volume (LTFS 2.4 on the index).
#[derive(Drop)]
pub struct Index {
    /// The name of the program that wrote the index.
    pub creator: Text,
    pub comment: Option<Text>,
    /// The UUID of the volume, its first byte the highest.
    pub uuid: u128,
    /// The generation of the index: 1 to 2^62 in a valid one, and higher in each later index
    /// of the volume.
    pub generation: u64,
    /// When the volume was last changed.
    pub updated: Moment,
    /// The self pointer: where this index stands.
    pub here: Spot,
    /// The back pointer: where the index before it stands on the data partition.
    pub back: Option<Spot>,
    /// Whether the policy may be changed.
    pub allow: bool,
    /// Where there is none, no file belongs on the index partition.
    pub policy: Option<Policy>,
    pub lock: Option<LockState>,
    /// The highest file UID that a node of the volume ever had, at most 2^62 in a valid index.
    pub highest: u64,
    /// The nodes in the order of the document: the root first, each node before those below
    /// it, and all that is below one child of a directory before the next child. 1 to 65,536
    /// in a valid index.
    pub nodes: List<Node>,
}
