ghost use Rattle.std.specs.Prelude.{◌≡◌, ◌⊎◌, ℕ, ◌<◌, true, IfOk, length, replicate};
ghost use Rattle.index_model.specs.Names.{HasTakenName};
ghost use Rattle.index_model.specs.IndexFaults.Firsts.{TellsFirst};
ghost use Rattle.index_model.specs.IndexFaults.Digest.{digest};
ghost use Rattle.index_model.specs.IndexFaults.Rising.{IsBelow};

use crate::Node;
use std::alloc::Global;
use std::collections::BTreeSet;
use std::hash::{FoldHasher, Hasher};
use tape_types::NoMemory;

/// The UID of the first node that has the name of an earlier one of its directory. The root has
/// no directory, and its name is free.
pub fn first_taken_name(alloc: Global, nodes: &[Node]) -> Result<Option<u64>, NoMemory>
    ensures { IfOk result (TellsFirst (HasTakenName nodes.now) nodes.now) }
{
    if names_ascend(alloc, nodes)? {
        return Ok(None);
    }
    first_taken_of_any(alloc, nodes)
}

/// Whether each node stands behind its directory, and has a name above those of the earlier nodes
/// there. Then no name is taken.
fn names_ascend(alloc: Global, nodes: &[Node]) -> Result<bool, NoMemory>
    ensures { IfOk result (λ ascend. ascend ≡ true → (at : ℕ) → ¬ HasTakenName nodes.now at) }
{
    let mut latest = zeros(alloc, nodes.len())?;
    for at in 1..nodes.len() {
        let node = &nodes[at];
        let parent = node.parent as usize;
        if parent >= at {
            return Ok(false);
        }
        let is_next = follows(nodes, latest[parent], node);
        if !is_next {
            return Ok(false);
        }
        latest[parent] = at;
    }
    Ok(true)
}

/// So many zeros: no directory has a node yet.
fn zeros(alloc: Global, count: usize) -> Result<Vec<usize>, NoMemory>
    ensures { IfOk result (λ places. places.items ≡ replicate count 0) }
{
    Ok(vec![in alloc; 0usize; count]?)
}

/// Whether a node is the first of its directory, or has a name above that of the latest one before
/// it, which stands at this place. Of the first one the place is 0.
fn follows(nodes: &[Node], latest: usize, node: &Node) -> bool
    requires { latest < length nodes.now }
    ensures { result ≡ true → (latest ≡ 0) ⊎ IsBelow nodes.now latest node.now.name }
{
    if latest == 0 {
        return true;
    }
    nodes[latest].name < node.name
}

/// The UID of that node, where the nodes stand in any order.
fn first_taken_of_any(alloc: Global, nodes: &[Node]) -> Result<Option<u64>, NoMemory>
    ensures { IfOk result (TellsFirst (HasTakenName nodes.now) nodes.now) }
{
    let mut seen = BTreeSet::new(alloc);
    for at in 1..nodes.len() {
        let node = &nodes[at];
        let name = node.name.as_str();
        let is_new = seen.insert((digest(name), node.parent, name))?;
        if !is_new {
            return Ok(Some(node.uid));
        }
    }
    Ok(None)
}

/// A number that stands for a name. Two names mostly differ in it, so that few are compared by
/// their bytes.
fn digest(name: &str) -> u64
    ensures { result ≡ digest name.now }
{
    let mut hasher = FoldHasher::default();
    hasher.write(name.as_bytes());
    hasher.finish()
}
