use tape_types::node_keys::Xattr;
use tape_types::{List, Text, Times};

/// A run of a file's bytes on tape, as an index tells it (LTFS 2.4 on data extents). It begins
/// at byte `byte` of the block at position `block` of the partition with this letter, and goes
/// on through the blocks after it. Its `count` bytes stand in the file from byte `offset` on.
///
/// An index may tell more than the tape holds: whether the letter is one of the volume's two,
/// and whether the blocks are there and long enough, is seen when it is mounted. All four
/// numbers are at most 2^62 in an index that is valid, and so is the sum of `offset` and
/// `count`.
#[derive(Clone, Copy, Debug, PartialEq, Eq)]
pub struct RawExtent {
    /// The offset in the file of the first byte, in bytes.
    pub offset: u64,
    /// The partition's letter, `a` to `z` in ASCII.
    pub letter: u8,
    /// The position of the first block, counted in items from the partition's beginning.
    pub block: u64,
    /// The offset of the first byte in that block, in bytes.
    pub byte: u64,
    /// The count of bytes. It may be 0.
    pub count: u64,
}

/// What a node is.
#[derive(Drop)]
pub enum NodeKind {
    /// A directory. Its children are the nodes that name it as their parent.
    Dir,
    /// A file. `length` is in bytes, at most 2^40 in a valid index. The extents stand in the
    /// order of the document, which may be any; what none of them covers below the length
    /// reads as zeros. No two that have bytes share an offset.
    File {
        length: u64,
        extents: List<RawExtent>,
    },
    /// A symbolic link: the text of what it points to. It may be any text, an empty one too.
    Link {
        text: Text,
    },
}

/// A directory, a file or a symbolic link (LTFS 2.4 on the directory and file elements).
#[derive(Drop)]
pub struct Node {
    /// The place in the list of nodes of the directory that this node is in, below the node's
    /// own place; 0 for the root.
    pub parent: u32,
    /// The file UID: in a valid index 1 for the root, above 0, at most the index's highest,
    /// and no other node's.
    pub uid: u64,
    /// The name, which no other child of the same directory has. The root's is the name of
    /// the volume, and may be empty.
    pub name: Text,
    pub times: Times,
    /// Whether the node may not be changed.
    pub readonly: bool,
    /// The extended attributes, in the order of the document. In a valid index no key stands
    /// twice; there may be any number of them.
    pub xattrs: List<Xattr>,
    pub kind: NodeKind,
}
