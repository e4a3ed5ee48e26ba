//! The text of nodes, each directory's children before its end.

ghost use Rattle.std.specs.Prelude.{◌≡◌, ◌++◌, ◌+◌, ◌<◌, ◌≤◌, ℕ, List, IfOk, OnOk, OnErr, length, map};
ghost use Rattle.std.specs.List.{flat_map};
ghost use Rattle.ltfs_documents.specs.DocFields.Written.{Keeps};
ghost use Rattle.index_model.specs.Canonical as canonical;
ghost use Rattle.index_model.specs.Values.{facts_of, times_of, value_of, IndexValue, all_nodes};
ghost use Rattle.index_write.specs.Rests.{closings, opened, parent_at, Goes, Rests};
ghost use Rattle.index_write.specs.Parts.{closing, file_start, node_text, opening, traits, tree_text};

use crate::attributes::put_attributes;
use crate::fields::{put, put_moment, put_name, put_number, put_sign, put_symlink, put_truth};
use index_model::{Node, NodeKind, RawExtent};
use tape_types::{NoMemory, Text, Times};

fn put_times(out: &mut Vec<u8>, times: &Times) -> Result<(), NoMemory>
    ensures ok { OnOk result (out.new.items ≡ out.old.items ++ canonical.times (times_of times.now)) }
    ensures err { OnErr result (Keeps out.old.items out.new.items) }
{
    put_moment(out, b"<creationtime>", times.create, b"</creationtime>")?;
    put_moment(out, b"<changetime>", times.change, b"</changetime>")?;
    put_moment(out, b"<modifytime>", times.modify, b"</modifytime>")?;
    put_moment(out, b"<accesstime>", times.access, b"</accesstime>")?;
    put_moment(out, b"<backuptime>", times.backup, b"</backuptime>")
}

fn put_extent(out: &mut Vec<u8>, extent: &RawExtent) -> Result<(), NoMemory>
    ensures ok { OnOk result (out.new.items ≡ out.old.items ++ canonical.extent extent.now) }
    ensures err { OnErr result (Keeps out.old.items out.new.items) }
{
    let RawExtent {
        offset,
        letter,
        block,
        byte,
        count,
    } = *extent;
    put_number(out, b"<extent><fileoffset>", offset, b"</fileoffset>")?;
    put_sign(out, b"<partition>", letter, b"</partition>")?;
    put_number(out, b"<startblock>", block, b"</startblock>")?;
    put_number(out, b"<byteoffset>", byte, b"</byteoffset>")?;
    put_number(out, b"<bytecount>", count, b"</bytecount></extent>")
}

fn put_extents(out: &mut Vec<u8>, extents: &[RawExtent]) -> Result<(), NoMemory>
    ensures ok { OnOk result (out.new.items ≡ out.old.items ++ flat_map canonical.extent extents.now) }
    ensures err { OnErr result (Keeps out.old.items out.new.items) }
{
    for extent in extents {
        put_extent(out, extent)?;
    }
    Ok(())
}

/// What is told of each node behind its name and the length of a file.
#[tactic(auto, unfolding(crate::specs::Parts::traits))]
fn put_traits(out: &mut Vec<u8>, node: &Node) -> Result<(), NoMemory>
    ensures ok { OnOk result (out.new.items ≡ out.old.items ++ traits (facts_of node.now)) }
    ensures err { OnErr result (Keeps out.old.items out.new.items) }
{
    put_times(out, &node.times)?;
    put_truth(out, b"<readonly>", node.readonly, b"</readonly>")?;
    put_attributes(out, node.xattrs.as_slice())
}

/// What a directory has before its children.
fn put_opening(out: &mut Vec<u8>, node: &Node) -> Result<(), NoMemory>
    ensures ok { OnOk result (out.new.items ≡ out.old.items ++ opening (facts_of node.now)) }
    ensures err { OnErr result (Keeps out.old.items out.new.items) }
{
    put_number(out, b"<directory><fileuid>", node.uid, b"</fileuid>")?;
    put_name(out, node.name.as_str())?;
    put_traits(out, node)?;
    put(out, b"<contents>")
}

/// What a file or a link of so many bytes has in front of its own last element.
fn put_front(out: &mut Vec<u8>, node: &Node, length: u64) -> Result<(), NoMemory>
    ensures ok { OnOk result (out.new.items ≡ out.old.items ++ file_start (facts_of node.now) length) }
    ensures err { OnErr result (Keeps out.old.items out.new.items) }
{
    put_number(out, b"<file><fileuid>", node.uid, b"</fileuid>")?;
    put_name(out, node.name.as_str())?;
    put_number(out, b"<length>", length, b"</length>")?;
    put_traits(out, node)
}

fn put_file(
    out: &mut Vec<u8>,
    node: &Node,
    length: u64,
    extents: &[RawExtent],
) -> Result<(), NoMemory>
    ensures ok { OnOk result (out.new.items ≡ out.old.items
        ++ canonical.file_text (facts_of node.now) length extents.now) }
    ensures err { OnErr result (Keeps out.old.items out.new.items) }
{
    put_front(out, node, length)?;
    put(out, b"<extentinfo>")?;
    put_extents(out, extents)?;
    put(out, b"</extentinfo></file>")
}

fn put_link(out: &mut Vec<u8>, node: &Node, text: &Text) -> Result<(), NoMemory>
    ensures ok { OnOk result (out.new.items ≡ out.old.items ++ canonical.link_text (facts_of node.now) text.now) }
    ensures err { OnErr result (Keeps out.old.items out.new.items) }
{
    let text = text.as_str();
    put_front(out, node, text.len() as u64)?;
    put_symlink(out, text)?;
    put(out, b"</file>")
}

/// A file, a link, or a directory up to its children.
fn put_node(out: &mut Vec<u8>, node: &Node) -> Result<(), NoMemory>
    ensures ok { OnOk result (out.new.items ≡ out.old.items ++ node_text (value_of node.now)) }
    ensures err { OnErr result (Keeps out.old.items out.new.items) }
{
    match &node.kind {
        NodeKind::Dir => put_opening(out, node),
        NodeKind::File { length, extents } => put_file(out, node, *length, extents.as_slice()),
        NodeKind::Link { text } => put_link(out, node, text),
    }
}

/// The directory whose children are written, and how many others are open around it.
#[derive(Clone, Copy)]
pub struct Open {
    /// Its place in the list of nodes.
    pub dir: usize,
    pub depth: usize,
}

/// The place of a node's parent.
fn parent_at(nodes: &[Node], at: usize) -> usize
    ensures { result ≡ parent_at nodes.now at }
{
    match nodes.get(at) {
        Some(node) => node.parent as usize,
        None => 0,
    }
}

/// Ends open directories until the one at this place is the innermost.
fn close_to(out: &mut Vec<u8>, nodes: &[Node], inner: Open, dir: usize) -> Result<Open, NoMemory>
    ensures ok { IfOk result (λ left. (at : ℕ) (text : List ℕ) → at < length nodes.now →
        parent_at nodes.now at ≡ dir → Rests nodes.now at inner text →
        Goes nodes.now at left out.old.items out.new.items text × (left.dir ≡ dir)) }
    ensures depth { IfOk result (λ left. left.depth ≤ inner.depth) }
    ensures keeps { Keeps out.old.items out.new.items }
{
    let mut left = inner;
    while left.dir != dir && left.depth > 0 {
        put(out, b"</contents></directory>")?;
        left = Open {
            dir: parent_at(nodes, left.dir),
            depth: left.depth - 1,
        };
    }
    Ok(left)
}

/// Which directory is open behind a node.
fn opened(kind: &NodeKind, at: usize, inner: Open) -> Open
    requires { inner.depth < at }
    ensures { result ≡ opened kind.now at inner }
{
    match kind {
        NodeKind::Dir => Open {
            dir: at,
            depth: inner.depth + 1,
        },
        NodeKind::File { .. } => inner,
        NodeKind::Link { .. } => inner,
    }
}

/// The node at this place, behind the ends of the directories that it isn't in.
fn put_next(out: &mut Vec<u8>, nodes: &[Node], inner: Open, at: usize) -> Result<Open, NoMemory>
    requires within { at < length nodes.now }
    requires depth { inner.depth < at }
    ensures ok { IfOk result (λ left. (text : List ℕ) → Rests nodes.now at inner text →
        Goes nodes.now (at + 1) left out.old.items out.new.items text) }
    ensures depth { IfOk result (λ left. left.depth ≤ at) }
    ensures keeps { Keeps out.old.items out.new.items }
{
    let node = &nodes[at];
    let left = close_to(out, nodes, inner, node.parent as usize)?;
    put_node(out, node)?;
    Ok(opened(&node.kind, at, left))
}

/// So many ends of directories.
fn put_ends(out: &mut Vec<u8>, count: usize) -> Result<(), NoMemory>
    ensures ok { OnOk result (out.new.items ≡ out.old.items ++ closings count) }
    ensures keeps { Keeps out.old.items out.new.items }
{
    for _ in 0..count {
        put(out, b"</contents></directory>")?;
    }
    Ok(())
}

/// All nodes, the root first.
pub fn put_nodes(out: &mut Vec<u8>, nodes: &[Node]) -> Result<(), NoMemory>
    ensures ok { OnOk result ((v : IndexValue) → map value_of nodes.now ≡ all_nodes v → out.new.items ≡ out.old.items
        ++ tree_text v) }
    ensures keeps { Keeps out.old.items out.new.items }
{
    let Some(root) = nodes.first() else {
        return Ok(());
    };
    put_node(out, root)?;
    let mut inner = Open { dir: 0, depth: 0 };
    for at in 1..nodes.len() {
        inner = put_next(out, nodes, inner, at)?;
    }
    put_ends(out, inner.depth + 1)
}
