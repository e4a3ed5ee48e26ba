//! Whether extents lie within the data of a cartridge.

ghost use Rattle.std.specs.Prelude.{◌≡◌, ◌<◌, ◌+◌, ◌*◌, ◌≤◌, ◌↔◌, IsTrue, MatchOption};
ghost use Rattle.std.specs.List.{AllByRecursion};
ghost use Rattle.cartridge_meaning.specs.Meaning.{Fits, FitsKind, FitsNode};
ghost use Rattle.mount_recover.specs.Lasts.{IsFirstOutside, LiesOn};

use index_model::{Node, NodeKind, RawExtent};
use ltfs_label::Label;

/// Where the next item of each partition goes.
#[derive(Clone, Copy)]
pub struct Ends {
    pub ip: u64,
    pub dp: u64,
}

/// The UID of the first node with an extent that does not lie before the ends.
pub fn first_outside(label: &Label, ends: Ends, nodes: &[Node]) -> Option<u64>
    ensures { MatchOption result (AllByRecursion (FitsNode label.now ends.ip ends.dp) nodes.now)
        (IsFirstOutside label.now ends.ip ends.dp nodes.now) }
{
    for node in nodes {
        if !fits(label, ends, &node.kind) {
            return Some(node.uid);
        }
    }
    None
}

/// Whether the extents of a node lie before the ends.
fn fits(label: &Label, ends: Ends, kind: &NodeKind) -> bool
    ensures { IsTrue result ↔ FitsKind label.now ends.ip ends.dp kind.now }
{
    match kind {
        NodeKind::Dir => true,
        NodeKind::File { extents, .. } => all_fit(label, ends, extents.as_slice()),
        NodeKind::Link { .. } => true,
    }
}

fn all_fit(label: &Label, ends: Ends, extents: &[RawExtent]) -> bool
    ensures { IsTrue result ↔ AllByRecursion (λ e. 0 < e.count → Fits label.now ends.ip ends.dp e) extents.now }
{
    for extent in extents {
        if !is_within(label, ends, extent) {
            return false;
        }
    }
    true
}

/// Whether an extent has no bytes, or lies before the ends.
fn is_within(label: &Label, ends: Ends, extent: &RawExtent) -> bool
    ensures { IsTrue result ↔ (0 < extent.now.count → Fits label.now ends.ip ends.dp extent.now) }
{
    extent.count == 0
        || lies_on(label.block, label.index, ends.ip, extent)
        || lies_on(label.block, label.dpart, ends.dp, extent)
}

/// Whether an extent lies on the partition with this letter, and before its end.
fn lies_on(block: u32, letter: u8, end: u64, extent: &RawExtent) -> bool
    ensures { IsTrue result ↔ LiesOn block letter end extent.now }
{
    extent.letter == letter
        && extent.byte < u64::from(block)
        && 4 <= extent.block
        && end_of(extent, block) <= u128::from(end) * u128::from(block)
}

/// Where an extent ends, in bytes from the beginning of its partition, as if each item were a block of this size.
fn end_of(extent: &RawExtent, block: u32) -> u128
    ensures { result ≡ extent.now.block * block + extent.now.byte + extent.now.count }
{
    let RawExtent {
        block: first,
        byte,
        count,
        ..
    } = *extent;
    u128::from(first) * u128::from(block) + u128::from(byte) + u128::from(count)
}
