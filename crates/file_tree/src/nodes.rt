use extent_map::Extents;
use tape_types::node_keys::Keys;
use tape_types::{Text, Times};

/// What stands at a path of the tree.
#[derive(Drop)]
pub struct Node {
    /// The place of the node in the tree, which it keeps as long as it is there.
    pub number: u32,
    pub uid: u64,
    pub times: Times,
    pub readonly: bool,
    pub keys: Keys,
    pub kind: HeldKind,
}

/// What a node is, with what it holds.
#[derive(Drop)]
pub enum HeldKind {
    Dir,
    File(Extents),
    Link(Text),
}

/// A node under its name in its directory, which is given by its number. The root is in itself, under no name.
#[derive(Drop)]
pub struct Spot {
    pub parent: u32,
    pub name: Text,
    pub node: Node,
}
