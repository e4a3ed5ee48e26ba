ghost use Rattle.std.specs.Prelude.{◌≡◌, ◌+◌, ◌<◌, length, OnOk, IfOk};
ghost use Rattle.file_tree.specs.Mounts.{IsKindOf, IsNodeOf, IsBuilt, AreTold};
ghost use Rattle.file_tree.specs.Raws.{CanKeep, LiesWell};
ghost use Rattle.file_tree.specs.Valid.{AreFilesOf};
ghost use Rattle.tape_types.specs.NodeKeys.Keys.{AreKeysApart};

use crate::nodes::{HeldKind, Node};
use crate::places::Places;
use crate::raws::{Letters, extents_from};
use crate::store::Store;
use index_model::{Node as ToldNode, NodeKind as ToldKind};
use std::alloc::Global;
use tape_types::NoMemory;
use tape_types::node_keys::Keys;

/// The nodes of an index, each under the number of its place.
pub fn place_nodes(
    alloc: Global,
    nodes: &[ToldNode],
    letters: Letters,
    block_size: u32,
) -> Result<Places, NoMemory>
    requires { AreTold letters block_size nodes.now }
    ensures built { IfOk result (λ places. IsBuilt letters block_size nodes.now (length nodes.now) places.nodes) }
    ensures files { IfOk result (λ places. AreFilesOf block_size places.nodes) }
{
    let store = store_nodes(alloc, nodes, letters, block_size)?;
    Places::from_store(alloc, store)
}

fn store_nodes(
    alloc: Global,
    nodes: &[ToldNode],
    letters: Letters,
    block_size: u32,
) -> Result<Store, NoMemory>
    requires { AreTold letters block_size nodes.now }
    ensures built { IfOk result (λ store. IsBuilt letters block_size nodes.now (length nodes.now) store.nodes) }
    ensures slots { IfOk result (λ store. length store.spots ≡ length nodes.now) }
    ensures files { IfOk result (λ store. AreFilesOf block_size store.nodes) }
{
    let root = node_from(alloc, &nodes[0], letters, block_size)?;
    let mut store = Store::new(alloc, root, nodes.len())?;
    for at in 1..nodes.len() {
        add_node(&mut store, alloc, nodes, at, letters, block_size)?;
    }
    Ok(store)
}

/// Puts the node at a place of an index behind those before it.
fn add_node(
    store: &mut Store,
    alloc: Global,
    nodes: &[ToldNode],
    at: usize,
    letters: Letters,
    block_size: u32,
) -> Result<(), NoMemory>
    requires told { AreTold letters block_size nodes.now }
    requires behind { 0 < at }
    requires within { at < length nodes.now }
    requires built { IsBuilt letters block_size nodes.now at store.old.nodes }
    requires slots { length store.old.spots ≡ at }
    requires files { AreFilesOf block_size store.old.nodes }
    ensures built { OnOk result (IsBuilt letters block_size nodes.now (at + 1) store.new.nodes) }
    ensures slots { OnOk result (length store.new.spots ≡ at + 1) }
    ensures files { OnOk result (AreFilesOf block_size store.new.nodes) }
{
    let told = &nodes[at];
    let node = node_from(alloc, told, letters, block_size)?;
    let name = told.name.try_clone(alloc)?;
    store.append(told.parent, name, node)
}

/// The node that is told. Its number is given when it is put into the tree, or 0.
fn node_from(
    alloc: Global,
    told: &ToldNode,
    letters: Letters,
    block_size: u32,
) -> Result<Node, NoMemory>
    requires keys { AreKeysApart told.now.xattrs }
    requires kind { CanKeep letters block_size told.now.kind }
    ensures node { IfOk result (λ node. IsNodeOf letters block_size told.now node) }
    ensures number { IfOk result (λ node. node.number ≡ 0) }
    ensures files { IfOk result (λ node. LiesWell block_size node.kind) }
{
    let keys = Keys::from_list(alloc, told.xattrs.as_slice())?;
    let kind = kind_from(alloc, &told.kind, letters, block_size)?;
    Ok(Node {
        number: 0,
        uid: told.uid,
        times: told.times,
        readonly: told.readonly,
        keys,
        kind,
    })
}

fn kind_from(
    alloc: Global,
    told: &ToldKind,
    letters: Letters,
    block_size: u32,
) -> Result<HeldKind, NoMemory>
    requires { CanKeep letters block_size told.now }
    ensures kind { IfOk result (λ kind. IsKindOf letters block_size told.now kind) }
    ensures files { IfOk result (λ kind. LiesWell block_size kind) }
{
    match told {
        ToldKind::Dir => Ok(HeldKind::Dir),
        ToldKind::File { length, extents } => {
            let extents = extents_from(alloc, extents.as_slice(), *length, letters, block_size)?;
            Ok(HeldKind::File(extents))
        }
        ToldKind::Link { text } => Ok(HeldKind::Link(text.try_clone(alloc)?)),
    }
}
