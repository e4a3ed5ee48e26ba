ghost use Rattle.std.specs.Prelude.{◌≡◌, ◌<◌, ◌+◌, ◌≤◌, length, OnOk, OnErr};
ghost use Rattle.tape_types.specs.Bounds.{longest_file};
ghost use Rattle.plain_tree.specs.Cells.{resized};
ghost use Rattle.plain_tree.specs.Tree.{touched, change_noted, file_changed, written_to, sort_of, changed_by, new_node};
ghost use Rattle.plain_tree.specs.Tree.{key_set, key_dropped, flagged, written_by, CanWrite};
ghost use Rattle.plain_tree.specs.Refusals.{missing_below};

use crate::calls::{Refusal, Sort};
use crate::keys::NodeKeys;
use crate::nodes::{Kind, Node};
use std::alloc::Global;
use tape_types::{Bytes, Moment, NoMemory, Text, Times};

/// A change of a node that takes no memory.
#[derive(Clone, Copy)]
pub enum NodeChange<'a> {
    /// Sets change and modify time.
    Touch,
    /// Sets the change time.
    Note,
    /// Sets the length of a file, and touches it.
    Resize(u64),
    /// Makes the node read-only or not, and sets the change time.
    Flag(bool),
    /// Takes out a key, and sets the change time.
    DropKey(&'a Text),
}

/// A change of a node that takes memory.
#[derive(Clone, Copy)]
pub enum NodeWrite<'a> {
    /// Puts bytes into a file from an offset on, and touches it.
    File(u64, &'a [u8]),
    /// Gives a key its bytes, and sets the change time.
    Key(&'a Text, &'a Bytes),
}

pub fn change_node(node: &mut Node, change: NodeChange<'_>, at: Moment)
    ensures { node.new ≡ changed_by change.entry at node.old }
{
    match change {
        NodeChange::Touch => touch_node(node, at),
        NodeChange::Note => node.times.change = at,
        NodeChange::Resize(size) => resize_node(node, size, at),
        NodeChange::Flag(on) => flag_node(node, on, at),
        NodeChange::DropKey(key) => drop_key(node, key, at),
    }
}

fn touch_node(node: &mut Node, at: Moment)
    ensures { node.new ≡ touched at node.old }
{
    node.times.change = at;
    node.times.modify = at;
}

fn flag_node(node: &mut Node, on: bool, at: Moment)
    ensures { node.new ≡ flagged on at node.old }
{
    node.readonly = on;
    node.times.change = at;
}

fn drop_key(node: &mut Node, key: &Text, at: Moment)
    ensures { node.new ≡ key_dropped key.now at node.old }
{
    node.keys.drop_key(key.as_str());
    node.times.change = at;
}

fn set_key(
    node: &mut Node,
    alloc: Global,
    key: &Text,
    bytes: &Bytes,
    at: Moment,
) -> Result<(), NoMemory>
    ensures ok { OnOk result (node.new ≡ key_set key.now bytes.now at node.old) }
    ensures err { OnErr result (node.new ≡ node.old) }
{
    node.keys.set(alloc, key, bytes)?;
    node.times.change = at;
    Ok(())
}

/// Makes a change of a node that takes memory, or changes nothing.
pub fn write_node(
    node: &mut Node,
    alloc: Global,
    write: NodeWrite<'_>,
    at: Moment,
) -> Result<(), NoMemory>
    requires { CanWrite write }
    ensures ok { OnOk result (node.new ≡ written_by write.entry at node.old) }
    ensures err { OnErr result (node.new ≡ node.old) }
{
    match write {
        NodeWrite::File(offset, bytes) => write_file(node, offset, bytes, at),
        NodeWrite::Key(key, bytes) => set_key(node, alloc, key, bytes, at),
    }
}

/// Puts bytes into a file and touches it, or changes nothing.
fn write_file(node: &mut Node, offset: u64, bytes: &[u8], at: Moment) -> Result<(), NoMemory>
    requires some { 0 < length bytes.now }
    requires fits { offset + length bytes.now ≤ longest_file }
    ensures ok { OnOk result (node.new ≡ written_to offset bytes.now at node.old) }
    ensures err { OnErr result (node.new ≡ node.old) }
{
    if let Kind::File(file) = &mut node.kind {
        file.write(offset, bytes)?;
        touch_node(node, at);
    }
    Ok(())
}

fn resize_node(node: &mut Node, size: u64, at: Moment)
    ensures { node.new ≡ file_changed (λ cells. resized cells size) at node.old }
{
    if let Kind::File(file) = &mut node.kind {
        file.resize(size);
        touch_node(node, at);
    }
}

pub fn put_node(place: &mut Node, node: Node)
    ensures { place.new ≡ node }
{
    *place = node;
}

pub fn sort_of(kind: &Kind) -> Sort
    ensures { result ≡ sort_of kind.now }
{
    match kind {
        Kind::Dir => Sort::Dir,
        Kind::File(_) => Sort::File,
        Kind::Link(_) => Sort::Link,
    }
}

/// A node that is made at a moment, without attributes. Takes no memory.
pub fn new_node(alloc: Global, kind: Kind, uid: u64, at: Moment) -> Node
    ensures { result ≡ new_node kind uid at }
{
    Node {
        uid,
        times: Times::all_at(at),
        readonly: false,
        keys: NodeKeys::new(alloc),
        kind,
    }
}

/// Why nothing stands where a path goes on below such a node.
pub fn missing_below(kind: &Kind) -> Refusal
    ensures { result ≡ missing_below kind.now }
{
    match kind {
        Kind::Dir => Refusal::NotFound,
        Kind::File(_) | Kind::Link(_) => Refusal::NotDir,
    }
}
