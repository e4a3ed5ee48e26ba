ghost use Rattle.std.specs.Prelude.{◌≡◌, ◌≤◌, OnOk};
ghost use Rattle.std.specs.FinMap as fin;
ghost use Rattle.tape_types.specs.Bounds.{longest_file};
ghost use Rattle.extent_map.specs.Laid.{IsLaid, resized, overlaid};
ghost use Rattle.file_tree.specs.Changes.{touched, change_noted, HasKeysNow, IsChangedBy, CanChange, IsRelaid};
ghost use Rattle.file_tree.specs.Changes.{IsRoomier, HasRoom};

use crate::nodes::{HeldKind, Node};
use tape_types::{Bytes, Extent, Moment, NoMemory, Text};

/// A change of a node that takes no memory.
#[derive(Drop)]
pub enum NodeChange<'a> {
    /// Sets change and modify time.
    Touch,
    /// Sets the change time.
    Note,
    /// Sets the length of a file, and touches it.
    Resize(u64),
    /// Puts an extent into a file, and touches it.
    Overlay(Extent),
    /// Makes the node read-only or not, and sets the change time.
    Flag(bool),
    /// Takes out a key, and sets the change time.
    DropKey(&'a Text),
    /// Gives a key its bytes, and sets the change time.
    SetKey(Text, Bytes),
}

/// What memory may be made for.
#[derive(Clone, Copy)]
pub enum NodeRoom {
    /// One overlay, where the node is a file.
    Extent,
    /// One more key.
    Key,
}

pub fn change_node(node: &mut Node, change: NodeChange<'_>, at: Moment)
    requires { CanChange change node.old }
    ensures changed { IsChangedBy change.entry at node.old node.new }
    ensures number { node.new.number ≡ node.old.number }
{
    match change {
        NodeChange::Touch => touch_node(node, at),
        NodeChange::Note => node.times.change = at,
        NodeChange::Resize(length) => resize_node(node, length, at),
        NodeChange::Overlay(new) => overlay_node(node, new, at),
        NodeChange::Flag(on) => flag_node(node, on, at),
        NodeChange::DropKey(key) => drop_key(node, key, at),
        NodeChange::SetKey(key, value) => set_key(node, key, value, at),
    }
}

fn touch_node(node: &mut Node, at: Moment)
    ensures { node.new ≡ touched at node.old }
{
    node.times.change = at;
    node.times.modify = at;
}

fn resize_node(node: &mut Node, length: u64, at: Moment)
    requires { length ≤ longest_file }
    ensures changed { IsRelaid (λ laid. resized laid length) at node.old node.new }
    ensures number { node.new.number ≡ node.old.number }
{
    if let HeldKind::File(extents) = &mut node.kind {
        extents.set_length(length);
        touch_node(node, at);
    }
}

fn overlay_node(node: &mut Node, new: Extent, at: Moment)
    requires { CanChange (NodeChange.Overlay new) node.old }
    ensures changed { IsRelaid (λ laid. overlaid laid new) at node.old node.new }
    ensures number { node.new.number ≡ node.old.number }
{
    if let HeldKind::File(extents) = &mut node.kind {
        extents.overlay(new);
        touch_node(node, at);
    }
}

fn flag_node(node: &mut Node, on: bool, at: Moment)
    ensures { node.new ≡ change_noted at (record node.old { readonly = on }) }
{
    node.readonly = on;
    node.times.change = at;
}

fn drop_key(node: &mut Node, key: &Text, at: Moment)
    ensures { HasKeysNow at node.old node.new (fin.remove node.old.keys.map key.now) }
{
    node.keys.drop_key(key.as_str());
    node.times.change = at;
}

fn set_key(node: &mut Node, key: Text, value: Bytes, at: Moment)
    requires { 1 ≤ node.old.keys.spare }
    ensures { HasKeysNow at node.old node.new (fin.insert node.old.keys.map key value) }
{
    node.keys.set(key, value);
    node.times.change = at;
}

/// Makes room in a node.
pub fn reserve_node(node: &mut Node, room: NodeRoom) -> Result<(), NoMemory>
    ensures same { IsRoomier room node.old node.new }
    ensures room { OnOk result (HasRoom room node.new) }
    ensures number { node.new.number ≡ node.old.number }
{
    match room {
        NodeRoom::Extent => reserve_extent(node),
        NodeRoom::Key => node.keys.reserve(1),
    }
}

/// Makes room for one overlay, where the node is a file.
fn reserve_extent(node: &mut Node) -> Result<(), NoMemory>
    ensures same { IsRoomier NodeRoom.Extent node.old node.new }
    ensures room { OnOk result (HasRoom NodeRoom.Extent node.new) }
    ensures number { node.new.number ≡ node.old.number }
{
    match &mut node.kind {
        HeldKind::File(extents) => extents.reserve(),
        HeldKind::Dir | HeldKind::Link(_) => Ok(()),
    }
}
