use crate::keys::NodeKeys;
use crate::paged::PagedFile;
use tape_types::{Text, Times};

/// What stands at a path of the tree.
#[derive(Drop)]
pub struct Node {
    pub uid: u64,
    pub times: Times,
    pub readonly: bool,
    pub keys: NodeKeys,
    pub kind: Kind,
}

/// What a node is, with what it holds.
#[derive(Drop)]
pub enum Kind {
    Dir,
    File(PagedFile),
    Link(Text),
}
