//! What stands on a partition.

use tape_types::List;

/// An index on a partition, between two file marks (LTFS 2.4 on index constructs).
#[derive(Clone, Copy, Debug, PartialEq, Eq)]
pub struct Construct {
    /// The position of the mark that opens it.
    pub mark: u64,
    /// The position of its first block.
    pub first: u64,
    /// The position behind the mark that closes it.
    pub after: u64,
}

/// What stands on a partition behind its labels (LTFS 2.4 on partitions).
#[derive(Drop)]
pub struct Content {
    /// The indexes, with the oldest first.
    pub constructs: List<Construct>,
    /// The position behind the blocks that directly follow the last index.
    pub lead: u64,
    /// How many items stand before the first that is torn.
    pub front: u64,
}
