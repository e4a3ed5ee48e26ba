/// What is wrong with an index as a whole, and the UID of the node of which that is told first.
#[derive(Clone, Copy, Debug, PartialEq, Eq)]
pub enum Fault {
    /// The highest UID is over 2^62; or a UID is 0, is there already, or is over the highest; or
    /// the root's isn't 1.
    Uid(u64),
    /// A node has the name of an earlier one of its directory.
    SameName(u64),
    /// A node has two attributes of one key.
    SameKey(u64),
    /// A file is longer than 2^40 bytes, or one of its extents ends past 2^62.
    Extent(u64),
    /// Two extents of a file share an offset.
    Overlap(u64),
}
