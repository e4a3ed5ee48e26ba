ghost use Rattle.std.specs.Prelude.{◌≡◌, ◌<◌, true, false, IfOk, IfSome, IfNone};
ghost use Rattle.std.specs.List.{All};
ghost use Rattle.std.specs.List.Sorted.{IsNonDecreasingBy, IsPermutation};
ghost use Rattle.index_model.specs.Extents.{EndsTooFar, Overlap};
ghost use Rattle.index_model.specs.IndexFaults.Crossings.{EndsInTime, Follows, IsCrossed};
ghost use Rattle.index_model.specs.IndexFaults.Firsts.{TellsBad, TellsFile, TellsNode};

use crate::{Fault, Node, NodeKind, RawExtent};
use std::alloc::Global;
use tape_types::{LONGEST_FILE, NoMemory};

/// An extent ends at or before this offset.
const FARTHEST: u64 = 1 << 62;

/// What is wrong with the first file in the order of the document that is out of its bounds, or
/// of which some extents overlap.
pub fn first_bad_file(alloc: Global, nodes: &[Node]) -> Result<Option<Fault>, NoMemory>
    ensures { IfOk result (TellsBad nodes.now) }
{
    for node in nodes {
        if let Some(fault) = node_fault(alloc, node)? {
            return Ok(Some(fault));
        }
    }
    Ok(None)
}

/// What is wrong with a node, if it is a file.
fn node_fault(alloc: Global, node: &Node) -> Result<Option<Fault>, NoMemory>
    ensures { IfOk result (TellsNode node.now.uid node.now.kind) }
{
    match &node.kind {
        NodeKind::File { length, extents } => file_fault(
            alloc,
            node.uid,
            *length,
            extents.as_slice(),
        ),
        _ => Ok(None),
    }
}

/// What is wrong with a file of this UID, length and extents: first that it is too long or that
/// an extent ends too far, then that extents overlap.
fn file_fault(
    alloc: Global,
    uid: u64,
    length: u64,
    extents: &[RawExtent],
) -> Result<Option<Fault>, NoMemory>
    ensures { IfOk result (TellsFile uid length extents.now) }
{
    if length > LONGEST_FILE || !end_in_time(extents) {
        return Ok(Some(Fault::Extent(uid)));
    }
    if overlap(alloc, extents)? {
        return Ok(Some(Fault::Overlap(uid)));
    }
    Ok(None)
}

/// Whether no extent ends past 2^62.
fn end_in_time(extents: &[RawExtent]) -> bool
    ensures yes { result ≡ true → All EndsInTime extents.now }
    ensures fails { result ≡ false → EndsTooFar extents.now }
{
    for extent in extents {
        let RawExtent { offset, count, .. } = *extent;
        if offset > FARTHEST || count > FARTHEST - offset {
            return false;
        }
    }
    true
}

/// Whether some two extents share an offset. Takes no memory where they stand in order.
fn overlap(alloc: Global, extents: &[RawExtent]) -> Result<bool, NoMemory>
    requires ends { All EndsInTime extents.now }
    ensures yes { IfOk result (λ found. found ≡ true → Overlap extents.now) }
    ensures fails { IfOk result (λ found. found ≡ false → ¬ Overlap extents.now) }
{
    if ascend(extents) {
        return Ok(false);
    }
    let sorted = sorted(alloc, extents)?;
    let apart = ascend(&sorted);
    Ok(!apart)
}

/// The extents by their offsets.
fn sorted(alloc: Global, extents: &[RawExtent]) -> Result<Vec<RawExtent>, NoMemory>
    ensures moved { IfOk result (λ sorted. IsPermutation extents.now sorted.items) }
    ensures rises { IfOk result (λ sorted. IsNonDecreasingBy (λ e. e.offset) sorted.items) }
{
    let mut sorted = Vec::from_slice(alloc, extents)?;
    sorted.sort_unstable_by_key(|extent| extent.offset);
    Ok(sorted)
}

/// Whether each extent with bytes begins where the ones before it end, or behind.
fn ascend(extents: &[RawExtent]) -> bool
    requires ends { All EndsInTime extents.now }
    ensures yes { result ≡ true → ¬ Overlap extents.now }
    ensures fails { result ≡ false → IsCrossed extents.now }
{
    let mut end = 0;
    for extent in extents {
        match end_with(end, extent) {
            Some(next) => end = next,
            None => return false,
        }
    }
    true
}

/// Where the extents up to this one end, if those before it end here. None, if it has bytes and
/// begins before that end.
fn end_with(end: u64, extent: &RawExtent) -> Option<u64>
    requires { EndsInTime extent.now }
    ensures next { IfSome result (Follows end extent.now) }
    ensures crossed { IfNone result ((0 < extent.now.count) × (extent.now.offset < end)) }
{
    let RawExtent { offset, count, .. } = *extent;
    if count == 0 {
        return Some(end);
    }
    if offset < end {
        return None;
    }
    Some(offset + count)
}
