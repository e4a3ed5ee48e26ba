ghost use Rattle.std.specs.Prelude.{◌≡◌, IfOk, length};
ghost use Rattle.plain_tree.specs.Tree.{facts_of as plain_facts, cells_of_kind, text_of_kind};
ghost use Rattle.extent_map.specs.Cells.{Tape};
ghost use Rattle.file_tree.specs.Tree.{plain_node_of, plain_kind_of};
ghost use Rattle.file_tree.specs.Reads.{lost_below as what_is_lost, sort_in};

use crate::nodes::{HeldKind, Node};
use plain_tree::{Facts, Sort};
use std::alloc::Global;
use tape_types::{NoMemory, Text};

/// What a path leads to.
#[derive(Clone, Copy, Debug, PartialEq, Eq)]
pub enum Found {
    /// The node with this number.
    Node(u32),
    /// Nothing, and the longest front of the path that leads to a node leads to a directory.
    Missing,
    /// Nothing, and that front leads to a file or a link.
    NotDir,
}

/// What is found where a path goes on below a node, under a name that isn't there.
pub fn lost_below(kind: &HeldKind) -> Found
    ensures { result ≡ what_is_lost kind.now }
{
    match kind {
        HeldKind::Dir => Found::Missing,
        HeldKind::File(_) | HeldKind::Link(_) => Found::NotDir,
    }
}

pub fn sort_of(kind: &HeldKind) -> Sort
    ensures { result ≡ sort_in kind.now }
{
    match kind {
        HeldKind::Dir => Sort::Dir,
        HeldKind::File(_) => Sort::File,
        HeldKind::Link(_) => Sort::Link,
    }
}

pub fn facts_of(alloc: Global, node: &Node) -> Result<Facts, NoMemory>
    ensures { IfOk result (λ facts. (tape : Tape) → facts ≡ plain_facts (plain_node_of tape node.now)) }
{
    let text = text_of(alloc, &node.kind)?;
    Ok(Facts {
        sort: sort_of(&node.kind),
        uid: node.uid,
        length: length_of(&node.kind),
        text,
        times: node.times,
    })
}

/// The length of a file, in bytes, and 0 of another node.
fn length_of(kind: &HeldKind) -> u64
    ensures { (tape : Tape) → result ≡ length (cells_of_kind (plain_kind_of tape kind.now)) }
{
    match kind {
        HeldKind::File(extents) => extents.length(),
        HeldKind::Dir | HeldKind::Link(_) => 0,
    }
}

/// The text of a link, and none of another node.
fn text_of(alloc: Global, kind: &HeldKind) -> Result<Text, NoMemory>
    ensures { IfOk result (λ text. (tape : Tape) → text ≡ text_of_kind (plain_kind_of tape kind.now)) }
{
    match kind {
        HeldKind::Link(text) => text.try_clone(alloc),
        HeldKind::Dir | HeldKind::File(_) => Ok(Text::from_string(String::new(alloc))),
    }
}
