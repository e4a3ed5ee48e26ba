//! What has been read of an index.

ghost use Rattle.std.specs.Prelude.{◌≡◌, ◌<◌, true, ◌++◌, ◌∷◌, [], map, length, IfOk, OnOk};
ghost use Rattle.std.specs.Option.{option_map};
ghost use Rattle.tape_types.specs.Times.{civil_of};
ghost use Rattle.ltfs_documents.specs.declared.doc_fields.tags.Tag.TheVariants as tags;
ghost use Rattle.index_model.specs.declared.nodes.NodeKind.TheVariants as kinds;
ghost use Rattle.ltfs_documents.specs.DocElements.Elements.{plain};
ghost use Rattle.ltfs_documents.specs.DocElements.Pieces.{bytes, letter, number, words, time, uuid, truth, lock};
ghost use Rattle.index_model.specs.Values.{facts_of, value_of, volume_of};
ghost use Rattle.ltfs_documents.specs.DocElements.Answers.{val_of};
ghost use Rattle.index_read.specs.Drafts.{state_of};
ghost use Rattle.index_read.specs.Told.{begun, blank, blank_node, blank_volume, blank_xattr, changed, ended, epoch};
ghost use Rattle.index_read.specs.Told.{extent_with, facts_with, kind_with, leaf_told, node_with, one_more};
ghost use Rattle.index_read.specs.Told.{policy_with, spot_with, volume_with, with_extent, with_xattr, xattr_with};

use index_model::{Index, Node, NodeKind, Policy, RawExtent, Spot, TextList};
use ltfs_documents::doc_elements::{Container, Value};
use ltfs_documents::doc_fields::{LockState, Tag};
use std::alloc::Global;
use std::mem;
use tape_types::node_keys::Xattr;
use tape_types::{Bytes, List, Moment, NoMemory, Text, Times};

const BLANK_SPOT: Spot = Spot {
    letter: 0,
    block: 0,
};

const BLANK_EXTENT: RawExtent = RawExtent {
    offset: 0,
    letter: 0,
    block: 0,
    byte: 0,
    count: 0,
};

fn put_index_text(index: &mut Index, tag: Tag, text: Text)
    ensures volume { volume_of index.new ≡ volume_with (plain tag (words text)) (volume_of index.old) }
{
    match tag {
        Tag::Creator => index.creator = text,
        Tag::Comment => index.comment = Some(text),
        _ => {}
    }
}

fn put_index_number(index: &mut Index, tag: Tag, n: u64)
    ensures volume { volume_of index.new ≡ volume_with (plain tag (number n)) (volume_of index.old) }
{
    match tag {
        Tag::GenerationNumber => index.generation = n,
        Tag::HighestFileUid => index.highest = n,
        _ => {}
    }
}

fn put_index_time(index: &mut Index, tag: Tag, moment: Moment)
    ensures volume { volume_of index.new ≡ volume_with (plain tag (time (civil_of moment))) (volume_of index.old) }
{
    match tag {
        Tag::UpdateTime => index.updated = moment,
        _ => {}
    }
}

fn put_index_uuid(index: &mut Index, tag: Tag, number: u128)
    ensures volume { volume_of index.new ≡ volume_with (plain tag (uuid number)) (volume_of index.old) }
{
    match tag {
        Tag::VolumeUuid => index.uuid = number,
        _ => {}
    }
}

fn put_index_truth(index: &mut Index, tag: Tag, is: bool)
    ensures volume { volume_of index.new ≡ volume_with (plain tag (truth is)) (volume_of index.old) }
{
    match tag {
        Tag::AllowPolicyUpdate => index.allow = is,
        _ => {}
    }
}

fn put_index_lock(index: &mut Index, tag: Tag, state: LockState)
    ensures volume { volume_of index.new ≡ volume_with (plain tag (lock state)) (volume_of index.old) }
{
    match tag {
        Tag::VolumeLockState => index.lock = Some(state),
        _ => {}
    }
}

fn put_index(index: &mut Index, tag: Tag, value: Value)
    ensures volume { volume_of index.new ≡ volume_with (plain tag (val_of value)) (volume_of index.old) }
{
    match value {
        Value::Text(text) => put_index_text(index, tag, text),
        Value::Number(n) => put_index_number(index, tag, n),
        Value::Time(moment) => put_index_time(index, tag, moment),
        Value::Uuid(number) => put_index_uuid(index, tag, number),
        Value::Truth(is) => put_index_truth(index, tag, is),
        Value::Lock(state) => put_index_lock(index, tag, state),
        _ => {}
    }
}

fn put_spot(spot: &mut Spot, tag: Tag, value: &Value)
    ensures { spot.new ≡ spot_with (plain tag (val_of value.now)) spot.old }
{
    match value {
        Value::Letter(byte) => match tag {
            Tag::Partition => spot.letter = *byte,
            _ => {}
        },
        Value::Number(n) => match tag {
            Tag::StartBlock => spot.block = *n,
            _ => {}
        },
        _ => {}
    }
}

fn put_extent(extent: &mut RawExtent, tag: Tag, value: &Value)
    ensures { extent.new ≡ extent_with (plain tag (val_of value.now)) extent.old }
{
    match value {
        Value::Letter(byte) => match tag {
            Tag::Partition => extent.letter = *byte,
            _ => {}
        },
        Value::Number(n) => put_extent_number(extent, tag, *n),
        _ => {}
    }
}

fn put_extent_number(extent: &mut RawExtent, tag: Tag, n: u64)
    ensures { extent.new ≡ extent_with (plain tag (number n)) extent.old }
{
    match tag {
        Tag::FileOffset => extent.offset = n,
        Tag::StartBlock => extent.block = n,
        Tag::ByteOffset => extent.byte = n,
        Tag::ByteCount => extent.count = n,
        _ => {}
    }
}

fn put_node_number(node: &mut Node, tag: Tag, n: u64)
    ensures { value_of node.new ≡ node_with (plain tag (number n)) (value_of node.old) }
{
    match tag {
        Tag::FileUid => node.uid = n,
        Tag::Length => put_length(&mut node.kind, n),
        _ => {}
    }
}

fn put_length(kind: &mut NodeKind, n: u64)
    ensures { kind.new ≡ kind_with (plain tags.Length (number n)) kind.old }
{
    match kind {
        NodeKind::File { length, .. } => *length = n,
        _ => {}
    }
}

fn put_node_text(node: &mut Node, tag: Tag, text: Text)
    ensures { value_of node.new ≡ node_with (plain tag (words text)) (value_of node.old) }
{
    match tag {
        Tag::Name => node.name = text,
        Tag::Symlink => node.kind = NodeKind::Link { text },
        _ => {}
    }
}

fn put_node_time(node: &mut Node, tag: Tag, moment: Moment)
    ensures { value_of node.new ≡ node_with (plain tag (time (civil_of moment))) (value_of node.old) }
{
    match tag {
        Tag::CreationTime => node.times.create = moment,
        Tag::ChangeTime => node.times.change = moment,
        Tag::ModifyTime => node.times.modify = moment,
        Tag::AccessTime => node.times.access = moment,
        Tag::BackupTime => node.times.backup = moment,
        _ => {}
    }
}

fn put_node_truth(node: &mut Node, tag: Tag, is: bool)
    ensures { value_of node.new ≡ node_with (plain tag (truth is)) (value_of node.old) }
{
    match tag {
        Tag::ReadOnly => node.readonly = is,
        _ => {}
    }
}

fn put_node(node: &mut Node, tag: Tag, value: Value)
    ensures { value_of node.new ≡ node_with (plain tag (val_of value)) (value_of node.old) }
{
    match value {
        Value::Text(text) => put_node_text(node, tag, text),
        Value::Number(n) => put_node_number(node, tag, n),
        Value::Time(moment) => put_node_time(node, tag, moment),
        Value::Truth(is) => put_node_truth(node, tag, is),
        _ => {}
    }
}

fn put_key(xattr: &mut Xattr, tag: Tag, text: Text)
    ensures { xattr.new ≡ xattr_with (plain tag (words text)) xattr.old }
{
    match tag {
        Tag::Key => xattr.key = text,
        _ => {}
    }
}

fn put_bytes(xattr: &mut Xattr, tag: Tag, value: Bytes)
    ensures { xattr.new ≡ xattr_with (plain tag (bytes value)) xattr.old }
{
    match tag {
        Tag::Value => xattr.value = value,
        _ => {}
    }
}

fn put_xattr(xattr: &mut Xattr, tag: Tag, value: Value)
    ensures { xattr.new ≡ xattr_with (plain tag (val_of value)) xattr.old }
{
    match value {
        Value::Text(text) => put_key(xattr, tag, text),
        Value::Bytes(bytes) => put_bytes(xattr, tag, bytes),
        _ => {}
    }
}

/// An index of which a part has been read: its nodes apart, and the extent and the extended
/// attribute that are being read.
#[derive(Drop)]
pub struct Draft {
    pub index: Index,
    pub nodes: Vec<Node>,
    pub extent: RawExtent,
    pub xattr: Xattr,
}

fn no_text(alloc: Global) -> Text
    ensures { result ≡ [] }
{
    Text::from_string(String::new(alloc))
}

/// An extended attribute of which nothing has been told.
fn blank_xattr(alloc: Global) -> Xattr
    ensures { result ≡ blank_xattr }
{
    Xattr {
        key: no_text(alloc),
        value: Bytes::new(alloc),
    }
}

fn blank_index(alloc: Global) -> Index
    ensures { volume_of result ≡ blank_volume }
{
    Index {
        creator: no_text(alloc),
        comment: None,
        uuid: 0,
        generation: 0,
        updated: Moment { secs: 0, nanos: 0 },
        here: BLANK_SPOT,
        back: None,
        allow: false,
        policy: None,
        lock: None,
        highest: 0,
        nodes: List::new(alloc),
    }
}

/// A node of which nothing has been told.
fn blank_node(alloc: Global, parent: u32, kind: NodeKind) -> Node
    ensures { value_of result ≡ blank_node parent kind }
{
    Node {
        parent,
        uid: 0,
        name: no_text(alloc),
        times: Times::all_at(Moment { secs: 0, nanos: 0 }),
        readonly: false,
        xattrs: List::new(alloc),
        kind,
    }
}

fn put_policy(policy: &mut Policy, tag: Tag, value: Value) -> Result<(), NoMemory>
    ensures { OnOk result (policy.new ≡ policy_with (plain tag (val_of value)) policy.old) }
{
    match value {
        Value::Text(text) => put_pattern(policy, tag, text),
        Value::Number(n) => {
            put_policy_size(policy, tag, n);
            Ok(())
        }
        _ => Ok(()),
    }
}

fn put_policy_size(policy: &mut Policy, tag: Tag, n: u64)
    ensures { policy.new ≡ policy_with (plain tag (number n)) policy.old }
{
    match tag {
        Tag::Size => policy.size = n,
        _ => {}
    }
}

fn put_pattern(policy: &mut Policy, tag: Tag, text: Text) -> Result<(), NoMemory>
    ensures { OnOk result (policy.new ≡ policy_with (plain tag (words text)) policy.old) }
{
    match tag {
        Tag::Name => {
            policy.names.push(text.as_str())?;
            Ok(())
        }
        _ => Ok(()),
    }
}

/// Changes a node by a leaf of it.
fn tell_node(nodes: &mut Vec<Node>, at: u32, tag: Tag, value: Value)
    ensures { map value_of nodes.new.items
        ≡ changed at (node_with (plain tag (val_of value))) (map value_of nodes.old.items) }
{
    match nodes.get_mut(at as usize) {
        Some(node) => put_node(node, tag, value),
        None => drop(value),
    }
}

/// The list of one item, with room for no more.
fn list_of_one<T: Drop>(alloc: Global, item: T) -> Result<List<T>, NoMemory>
    ensures { IfOk result (λ items. items ≡ item ∷ []) }
{
    let mut items = Vec::with_capacity(alloc, 1)?;
    items.push(item)?;
    Ok(List::from_vec(items))
}

/// Puts an item behind others. The first one gets room for no more, since most files have one
/// extent, and most nodes that have an extended attribute have just one.
fn push_item<T: Drop>(alloc: Global, items: &mut List<T>, item: T) -> Result<(), NoMemory>
    ensures { OnOk result (items.new ≡ items.old ++ item ∷ []) }
{
    if items.len() == 0 {
        *items = list_of_one(alloc, item)?;
    } else {
        items.push(item)?;
    }
    Ok(())
}

fn add_extent(alloc: Global, kind: &mut NodeKind, extent: RawExtent) -> Result<(), NoMemory>
    ensures { OnOk result (kind.new ≡ one_more extent kind.old) }
{
    match kind {
        NodeKind::File { extents, .. } => push_item(alloc, extents, extent),
        _ => Ok(()),
    }
}

/// Gives a file one extent more.
fn tell_extent(
    alloc: Global,
    nodes: &mut Vec<Node>,
    at: u32,
    extent: RawExtent,
) -> Result<(), NoMemory>
    ensures { OnOk result (map value_of nodes.new.items
        ≡ changed at (with_extent extent) (map value_of nodes.old.items)) }
{
    match nodes.get_mut(at as usize) {
        Some(node) => add_extent(alloc, &mut node.kind, extent),
        None => Ok(()),
    }
}

/// Gives a node one extended attribute more.
fn tell_xattr(alloc: Global, nodes: &mut Vec<Node>, at: u32, xattr: Xattr) -> Result<(), NoMemory>
    ensures { OnOk result (map value_of nodes.new.items
        ≡ changed at (with_xattr xattr) (map value_of nodes.old.items)) }
{
    match nodes.get_mut(at as usize) {
        Some(node) => push_item(alloc, &mut node.xattrs, xattr),
        None => {
            drop(xattr);
            Ok(())
        }
    }
}

fn push_node(
    alloc: Global,
    nodes: &mut Vec<Node>,
    parent: u32,
    kind: NodeKind,
) -> Result<(), NoMemory>
    ensures { OnOk result (map value_of nodes.new.items ≡ map value_of nodes.old.items ++ blank_node parent kind ∷ []) }
{
    nodes.push(blank_node(alloc, parent, kind))?;
    Ok(())
}

impl Draft {
    /// Nothing has been read.
    pub fn new(alloc: Global) -> Draft
        ensures { state_of result ≡ blank }
    {
        Draft {
            index: blank_index(alloc),
            nodes: Vec::new(alloc),
            extent: BLANK_EXTENT,
            xattr: blank_xattr(alloc),
        }
    }

    /// A parent begins that stands in a node.
    pub fn begin(&mut self, alloc: Global, place: Container, node: u32) -> Result<(), NoMemory>
        ensures { OnOk result (state_of self.new ≡ begun place node (state_of self.old)) }
    {
        match place {
            Container::Here => self.index.here = BLANK_SPOT,
            Container::Back => self.index.back = Some(BLANK_SPOT),
            Container::Criteria => {
                self.index.policy = Some(Policy {
                    size: 0,
                    names: TextList::new(alloc),
                });
            }
            Container::Root => push_node(alloc, &mut self.nodes, 0, NodeKind::Dir)?,
            Container::Directory => push_node(alloc, &mut self.nodes, node, NodeKind::Dir)?,
            Container::File => push_file(alloc, &mut self.nodes, node)?,
            Container::Extent => self.extent = BLANK_EXTENT,
            Container::Xattr => self.xattr = blank_xattr(alloc),
            _ => {}
        }
        Ok(())
    }

    /// A leaf of a parent, whose children speak of a node.
    #[inline(always)]
    pub fn tell(
        &mut self,
        place: Container,
        node: u32,
        tag: Tag,
        value: Value,
    ) -> Result<(), NoMemory>
        ensures { OnOk result (state_of self.new
            ≡ leaf_told place node (plain tag (val_of value)) (state_of self.old)) }
    {
        match place {
            Container::Index => put_index(&mut self.index, tag, value),
            Container::Here => put_spot(&mut self.index.here, tag, &value),
            Container::Back => put_back(&mut self.index.back, tag, &value),
            Container::Criteria => put_criteria(&mut self.index.policy, tag, value)?,
            Container::Root | Container::Directory | Container::File => {
                tell_node(&mut self.nodes, node, tag, value)
            }
            Container::Extent => put_extent(&mut self.extent, tag, &value),
            Container::Xattr => put_xattr(&mut self.xattr, tag, value),
            _ => drop(value),
        }
        Ok(())
    }

    /// A parent ends, whose children spoke of a node.
    pub fn end(&mut self, alloc: Global, place: Container, node: u32) -> Result<(), NoMemory>
        ensures { OnOk result (state_of self.new ≡ ended place node (state_of self.old)) }
    {
        match place {
            Container::Extent => tell_extent(alloc, &mut self.nodes, node, self.extent),
            Container::Xattr => {
                let xattr = mem::replace(&mut self.xattr, blank_xattr(alloc));
                tell_xattr(alloc, &mut self.nodes, node, xattr)
            }
            _ => Ok(()),
        }
    }
}

fn put_back(back: &mut Option<Spot>, tag: Tag, value: &Value)
    ensures { back.new ≡ option_map (spot_with (plain tag (val_of value.now))) back.old }
{
    match back {
        Some(spot) => put_spot(spot, tag, value),
        None => {}
    }
}

fn put_criteria(policy: &mut Option<Policy>, tag: Tag, value: Value) -> Result<(), NoMemory>
    ensures { OnOk result (policy.new ≡ option_map (policy_with (plain tag (val_of value))) policy.old) }
{
    match policy {
        Some(policy) => put_policy(policy, tag, value),
        None => {
            drop(value);
            Ok(())
        }
    }
}

fn push_file(alloc: Global, nodes: &mut Vec<Node>, parent: u32) -> Result<(), NoMemory>
    ensures { OnOk result (map value_of nodes.new.items ≡ map value_of nodes.old.items
        ++ blank_node parent (kinds.File 0 []) ∷ []) }
{
    let kind = NodeKind::File {
        length: 0,
        extents: List::new(alloc),
    };
    push_node(alloc, nodes, parent, kind)
}
