ghost use Rattle.std.specs.Prelude.{◌≡◌, ℕ, true, IfOk};
ghost use Rattle.std.specs.Cmp.Lexicographic.{slice_cmp};
ghost use Rattle.std.specs.Ordering.{nat_cmp};
ghost use Rattle.std.specs.declared.cmp.Ordering.TheVariants.{Less};
ghost use Rattle.index_model.specs.Keys.{HasKeyTwice};
ghost use Rattle.index_model.specs.IndexFaults.Firsts.{IsAgain, TellsFirst, TellsTwice};

use crate::Node;
use std::alloc::Global;
use std::collections::BTreeSet;
use tape_types::NoMemory;
use tape_types::node_keys::Xattr;

/// The UID of the first node that has two attributes of one key.
pub fn first_key_twice(alloc: Global, nodes: &[Node]) -> Result<Option<u64>, NoMemory>
    ensures { IfOk result (TellsFirst (HasKeyTwice nodes.now) nodes.now) }
{
    for node in nodes {
        let is_double = has_key_twice(alloc, node.xattrs.as_slice())?;
        if is_double {
            return Ok(Some(node.uid));
        }
    }
    Ok(None)
}

/// Whether two attributes have one key. Takes no memory where the keys ascend.
fn has_key_twice(alloc: Global, xattrs: &[Xattr]) -> Result<bool, NoMemory>
    ensures { IfOk result (TellsTwice xattrs.now) }
{
    if keys_ascend(xattrs) {
        return Ok(false);
    }
    has_any_twice(alloc, xattrs)
}

/// Whether each key is above the one before it. Then none stands twice.
fn keys_ascend(xattrs: &[Xattr]) -> bool
    ensures { result ≡ true → (at : ℕ) → ¬ IsAgain xattrs.now at }
{
    for at in 1..xattrs.len() {
        let last = at - 1;
        let is_next = is_below(&xattrs[last], &xattrs[at]);
        if !is_next {
            return false;
        }
    }
    true
}

fn is_below(one: &Xattr, other: &Xattr) -> bool
    ensures { result ≡ true → slice_cmp nat_cmp one.now.key other.now.key ≡ Less }
{
    one.key < other.key
}

/// Whether two attributes have one key, where they stand in any order.
fn has_any_twice(alloc: Global, xattrs: &[Xattr]) -> Result<bool, NoMemory>
    ensures { IfOk result (TellsTwice xattrs.now) }
{
    let mut seen = BTreeSet::new(alloc);
    for at in 0..xattrs.len() {
        let xattr = &xattrs[at];
        let key = xattr.key.as_str();
        let is_new = seen.insert(key)?;
        if !is_new {
            return Ok(true);
        }
    }
    Ok(false)
}
