ghost use Rattle.std.specs.Prelude.{◌≡◌, ◌≢◌, ◌⊎◌, ℕ, ◌<◌, ◌≤◌, true, false, IfOk, IfSome, IfNone};
ghost use Rattle.index_model.specs.declared.nodes.Node.{Node};
ghost use Rattle.index_model.specs.Places.{IsAt};
ghost use Rattle.index_model.specs.Refusals.{IsTold, RefusesUid};
ghost use Rattle.index_model.specs.Uids.{AreUids, HasBadUid};
ghost use Rattle.index_model.specs.IndexFaults.Firsts.{TellsFirst};

use crate::{Index, Node};
use std::alloc::Global;
use std::collections::BTreeSet;
use tape_types::NoMemory;

/// A UID is at most this.
const LARGEST: u64 = 1 << 62;

/// The root's UID.
const ROOT: u64 = 1;

/// The UID of an index that may not be: the highest, if it is over 2^62; else the first bad one;
/// else the root's, if it isn't 1.
pub fn refused_uid(alloc: Global, index: &Index) -> Result<Option<u64>, NoMemory>
    ensures told { IfOk result (λ uid. IfSome uid (RefusesUid index.now)) }
    ensures right { IfOk result (λ uid. IfNone uid (AreUids index.now.highest index.now.nodes)) }
{
    let highest = index.highest;
    if highest > LARGEST {
        return Ok(Some(highest));
    }
    let nodes = index.nodes.as_slice();
    if let Some(uid) = first_bad_uid(alloc, highest, nodes)? {
        return Ok(Some(uid));
    }
    Ok(wrong_root_uid(nodes))
}

/// The root's UID, if it isn't 1.
fn wrong_root_uid(nodes: &[Node]) -> Option<u64>
    ensures told { IfSome result (λ uid. (uid ≢ 1) × IsTold nodes.now 0 uid) }
    ensures right { IfNone result ((root : Node) → IsAt nodes.now 0 root → root.uid ≡ 1) }
{
    let root = nodes.first()?;
    let uid = root.uid;
    if uid == ROOT { None } else { Some(uid) }
}

/// The first UID in the order of the document that is 0, is there already, or is over the
/// highest.
fn first_bad_uid(alloc: Global, highest: u64, nodes: &[Node]) -> Result<Option<u64>, NoMemory>
    ensures { IfOk result (TellsFirst (HasBadUid highest nodes.now) nodes.now) }
{
    if uids_ascend(highest, nodes) {
        return Ok(None);
    }
    first_bad_of_any(alloc, highest, nodes)
}

/// Whether the UIDs ascend in the order of the document, from above 0 to the highest at most.
/// Then none is bad.
fn uids_ascend(highest: u64, nodes: &[Node]) -> bool
    ensures { result ≡ true → (at : ℕ) → ¬ HasBadUid highest nodes.now at }
{
    let mut last = 0;
    for node in nodes {
        let uid = node.uid;
        if uid <= last || uid > highest {
            return false;
        }
        last = uid;
    }
    true
}

/// The first bad UID, where they stand in any order.
fn first_bad_of_any(alloc: Global, highest: u64, nodes: &[Node]) -> Result<Option<u64>, NoMemory>
    ensures { IfOk result (TellsFirst (HasBadUid highest nodes.now) nodes.now) }
{
    let mut seen = BTreeSet::new(alloc);
    for node in nodes {
        let uid = node.uid;
        if is_out(uid, highest) {
            return Ok(Some(uid));
        }
        let is_new = seen.insert(uid)?;
        if !is_new {
            return Ok(Some(uid));
        }
    }
    Ok(None)
}

/// Whether a UID is 0 or over the highest.
fn is_out(uid: u64, highest: u64) -> bool
    ensures yes { result ≡ true → (uid ≡ 0) ⊎ (highest < uid) }
    ensures within { result ≡ false → (1 ≤ uid) × (uid ≤ highest) }
{
    uid == 0 || uid > highest
}
