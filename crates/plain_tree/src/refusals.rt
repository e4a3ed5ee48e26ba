ghost use Rattle.std.specs.Prelude.{◌≡◌, IfOk};
ghost use Rattle.plain_tree.specs.Refusals.{bad_key, bad_name, lock_refusal, no_dir, no_file, no_key, no_node};
ghost use Rattle.plain_tree.specs.Refusals.{is_locked, is_sealed, read_only};

use crate::calls::{Call, LockState, Refusal};
use crate::node_map::NodeMap;
use crate::nodes::Kind;
use std::alloc::Global;
use tape_types::node_keys::is_key;
use tape_types::{NameErr, NoMemory, Text, check_name};

/// Whether the last name is one that no node may have.
pub fn bad_name(alloc: Global, path: &[Text]) -> Result<Option<Refusal>, NoMemory>
    ensures { IfOk result (λ refusal. refusal ≡ bad_name path.now) }
{
    let Some(name) = path.last() else {
        return Ok(None);
    };
    match check_name(alloc, name.as_str()) {
        Ok(()) => Ok(None),
        Err(NameErr::NoMemory) => Err(NoMemory),
        Err(_) => Ok(Some(Refusal::BadName)),
    }
}

/// Why nothing stands at a path.
pub fn no_node(nodes: &NodeMap, path: &[Text]) -> Option<Refusal>
    ensures { result ≡ no_node nodes.now path.now }
{
    match nodes.find(path) {
        Ok(_) => None,
        Err(refusal) => Some(refusal),
    }
}

/// Why a path is no directory.
pub fn no_dir(nodes: &NodeMap, path: &[Text]) -> Option<Refusal>
    ensures { result ≡ no_dir nodes.now path.now }
{
    match nodes.find(path) {
        Ok(node) => match &node.kind {
            Kind::Dir => None,
            Kind::File(_) | Kind::Link(_) => Some(Refusal::NotDir),
        },
        Err(refusal) => Some(refusal),
    }
}

/// Why a path is no file.
pub fn no_file(nodes: &NodeMap, path: &[Text]) -> Option<Refusal>
    ensures { result ≡ no_file nodes.now path.now }
{
    match nodes.find(path) {
        Ok(node) => match &node.kind {
            Kind::Dir => Some(Refusal::IsDir),
            Kind::File(_) => None,
            Kind::Link(_) => Some(Refusal::IsLink),
        },
        Err(refusal) => Some(refusal),
    }
}

/// Whether a key is one that none may be.
pub fn bad_key(key: &Text) -> Option<Refusal>
    ensures { result ≡ bad_key key.now }
{
    if is_key(key.as_str()) {
        None
    } else {
        Some(Refusal::BadKey)
    }
}

/// Why a node has no such key.
pub fn no_key(nodes: &NodeMap, path: &[Text], key: &Text) -> Option<Refusal>
    ensures { result ≡ no_key nodes.now path.now key.now }
{
    match nodes.find(path) {
        Err(_) => Some(Refusal::NoKey),
        Ok(node) => match node.keys.get(key.as_str()) {
            None => Some(Refusal::NoKey),
            Some(_) => None,
        },
    }
}

/// Whether the node at a path is read-only.
pub fn read_only(nodes: &NodeMap, path: &[Text]) -> Option<Refusal>
    ensures { result ≡ read_only nodes.now path.now }
{
    match nodes.find(path) {
        Ok(node) if node.readonly => Some(Refusal::ReadOnly),
        _ => None,
    }
}

fn is_locked(state: LockState) -> bool
    ensures { result ≡ is_locked state }
{
    matches!(state, LockState::Locked | LockState::PermLocked)
}

fn is_sealed(state: LockState) -> bool
    ensures { result ≡ is_sealed state }
{
    matches!(state, LockState::PermLocked)
}

/// Whether the lock refuses a call.
pub fn lock_refusal(state: LockState, call: &Call) -> Option<Refusal>
    ensures { result ≡ lock_refusal state call.now }
{
    let held = match call {
        Call::Read { .. }
        | Call::Listing { .. }
        | Call::Stat { .. }
        | Call::Getx { .. }
        | Call::Sync => false,
        Call::LockVolume | Call::UnlockVolume | Call::PermLock => is_sealed(state),
        Call::Mkdir { .. }
        | Call::Create { .. }
        | Call::Write { .. }
        | Call::Truncate { .. }
        | Call::Rename { .. }
        | Call::Remove { .. }
        | Call::Setx { .. }
        | Call::Dropx { .. }
        | Call::Readonly { .. } => is_locked(state),
    };
    if held { Some(Refusal::Locked) } else { None }
}
