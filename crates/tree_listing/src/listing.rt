ghost use Rattle.std.specs.Prelude.{◌≡◌, true, OnOk, IfOk, IfErr};
ghost use Rattle.std.specs.Io.KnownBytes.{Appends};
ghost use Rattle.index_model.specs.Order.{AreInOrder};
ghost use Rattle.plain_tree.specs.Tree.{Tree};
ghost use Rattle.tree_listing.specs.Listing.{listing_text, tree_lines, AreNodesOf, IsCutShort};
ghost use Rattle.tree_listing.specs.Steps.{told_keys, AreListed, GoesOn, HasListCause, IsNodePut, IsNodeStopped};
ghost use Rattle.tree_listing.specs.Steps.{IsStopped, StaysWhere, StopsIn};

use crate::errors::ListErr;
use crate::lines::Lines;
use crate::texts::put_last;
use index_model::{Node, Spot};
use plain_tree::LockState;
use std::alloc::Global;
use tape_edge::Sink;
use tape_types::node_keys::Xattr;

/// Writes a line for each node of a tree, and a line for the index that tells the tree. Where all is told, the line of
/// a node says whether it is read-only, a line for each of its attributes follows it, and one for the lock state stands
/// before the last. The nodes are in the order of a document. Takes memory for a few lines beside a number for each
/// node.
///
/// # Errors
///
/// `Sink` where a write fails, and `NoMemory` where memory is refused. Some of the lines may have been written then.
pub fn write_listing<K: Sink>(
    alloc: Global,
    all: bool,
    nodes: &[Node],
    state: LockState,
    generation: u64,
    spot: Spot,
    out: &mut K,
) -> Result<(), ListErr>
    requires { AreInOrder nodes.now }
    ensures done { OnOk result ((tree : Tree) → AreNodesOf nodes.now tree → tree.lock ≡ state
        → Appends (K.written out.old) (K.written out.new) (listing_text all generation spot tree)) }
    ensures cut_short { IfErr result (λ e. (tree : Tree) → AreNodesOf nodes.now tree → tree.lock ≡ state
        → IsCutShort all e (listing_text all generation spot tree) tree (K.written out.old) (K.written out.new)) }
    ensures cause { HasListCause (K.faults out.old) (K.faults out.new) result }
{
    let mut rest = match write_nodes(alloc, all, nodes, out) {
        Ok(rest) => rest,
        Err(error) => return Err(error),
    };
    match put_last(&mut rest, all, state, generation, spot) {
        Ok(()) => {}
        Err(_) => return Err(ListErr::NoMemory),
    }
    match out.write(&rest) {
        Ok(()) => Ok(()),
        Err(_) => Err(ListErr::Sink),
    }
}

/// Writes the lines of the nodes, but for those that are left.
fn write_nodes<K: Sink>(
    alloc: Global,
    all: bool,
    nodes: &[Node],
    out: &mut K,
) -> Result<Vec<u8>, ListErr>
    requires { AreInOrder nodes.now }
    ensures left { IfOk result (λ left. (tree : Tree) → AreNodesOf nodes.now tree
        → AreListed (tree_lines all tree) (K.written out.old) (K.written out.new) left.items) }
    ensures stopped { IfErr result (λ e. (tree : Tree) → AreNodesOf nodes.now tree
        → IsStopped e (tree_lines all tree) (K.written out.old) (K.written out.new)) }
    ensures cause { HasListCause (K.faults out.old) (K.faults out.new) result }
{
    let mut lines = match Lines::new(alloc, nodes.len()) {
        Ok(lines) => lines,
        Err(_) => return Err(ListErr::NoMemory),
    };
    for node in nodes {
        match write_node(alloc, all, &mut lines, node, out) {
            Ok(()) => {}
            Err(error) => return Err(error),
        }
    }
    Ok(lines.text)
}

/// Puts the lines of the next node behind the others, and writes those that are held, where there are enough of them.
fn write_node<K: Sink>(
    alloc: Global,
    all: bool,
    lines: &mut Lines,
    node: &Node,
    out: &mut K,
) -> Result<(), ListErr>
    ensures ok { OnOk result (IsNodePut all node.now (K.written out.old) (K.written out.new) lines.old lines.new) }
    ensures err { IfErr result (IsNodeStopped all node.now (K.written out.old) (K.written out.new) lines.old) }
    ensures cause { HasListCause (K.faults out.old) (K.faults out.new) result }
{
    match lines.put(alloc, all, node) {
        Ok(()) => {}
        Err(_) => return Err(ListErr::NoMemory),
    }
    match lines.pass_on(out) {
        Ok(()) => {}
        Err(_) => return Err(ListErr::Sink),
    }
    if all {
        return match write_keys(alloc, lines, node.xattrs.as_slice(), out) {
            Ok(()) => Ok(()),
            Err(error) => Err(error),
        };
    }
    Ok(())
}

/// Puts the lines of the attributes of the last node behind the others, and writes as `write_node` does.
fn write_keys<K: Sink>(
    alloc: Global,
    lines: &mut Lines,
    xattrs: &[Xattr],
    out: &mut K,
) -> Result<(), ListErr>
    ensures ok { OnOk result (GoesOn (told_keys true lines.old.names.items xattrs.now)
        (K.written out.old) (K.written out.new) lines.old.text.items lines.new.text.items) }
    ensures stays { OnOk result (StaysWhere lines.old lines.new) }
    ensures err { IfErr result (λ e. StopsIn e (told_keys true lines.old.names.items xattrs.now)
        (K.written out.old) (K.written out.new) lines.old.text.items) }
    ensures cause { HasListCause (K.faults out.old) (K.faults out.new) result }
{
    for xattr in xattrs {
        match lines.put_key(alloc, xattr) {
            Ok(()) => {}
            Err(_) => return Err(ListErr::NoMemory),
        }
        match lines.pass_on(out) {
            Ok(()) => {}
            Err(_) => return Err(ListErr::Sink),
        }
    }
    Ok(())
}
