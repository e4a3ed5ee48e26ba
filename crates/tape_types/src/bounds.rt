//! The limits of a volume, one constant each.

/// The most nodes of a volume, the root among them.
pub const MOST_NODES: u32 = 65_536;
/// The most bytes of a file.
pub const LONGEST_FILE: u64 = 1 << 40;
/// The most characters of a name, and of a key of an attribute.
pub const LONGEST_NAME: usize = 255;
/// The most positions of a partition.
pub const MOST_POSITIONS: u64 = 1 << 40;
