//! Calls about the attributes and the flag of a node.

ghost use Rattle.std.specs.Prelude.{◌≡◌, None, OnErr, IfOk};
ghost use Rattle.extent_map.specs.Cells.{Tape};
ghost use Rattle.plain_tree.specs.Paths.{Path};
ghost use Rattle.plain_tree.specs.Refusals.{lock_refusal};
ghost use Rattle.plain_tree.specs.Tree as plain;
ghost use Rattle.plain_tree.specs.declared.calls.Call.TheVariants as asks;
ghost use Rattle.file_tree.specs.Places.{IsThere};
ghost use Rattle.file_tree.specs.Tree.{StandsAt, plain_of};
ghost use Rattle.held_volume.specs.Applied.{IsTried};
ghost use Rattle.held_volume.specs.Steps.{IsSameTree};

use file_tree::{Tree, held_key_at, key_at, node_at};
use plain_tree::Refusal;
use std::alloc::Global;
use tape_types::{Bytes, Moment, NoMemory, Text};

/// Gives a key of a node its bytes, unless that is refused or it has them.
pub fn set_key(
    tree: &mut Tree,
    alloc: Global,
    path: &[Text],
    key: &Text,
    bytes: &Bytes,
    at: Moment,
) -> Result<Result<bool, Refusal>, NoMemory>
    requires { lock_refusal tree.old.lock (asks.Setx path.now key.now bytes.now) ≡ None }
    ensures ok { IfOk result (IsTried (asks.Setx path.now key.now bytes.now) at tree.old tree.new) }
    ensures err { OnErr result (IsSameTree tree.old tree.new) }
{
    let number = match key_at(tree, path, key) {
        Ok(number) => number,
        Err(refusal) => return Ok(Err(refusal)),
    };
    if has_value(tree, number, key, bytes) {
        return Ok(Ok(false));
    }
    let name = key.try_clone(alloc)?;
    let value = bytes.try_clone(alloc)?;
    tree.reserve_key(number)?;
    tree.set_key(number, name, value, at);
    Ok(Ok(true))
}

/// Whether a key of a node has these bytes.
fn has_value(tree: &Tree, number: u32, key: &Text, bytes: &Bytes) -> bool
    requires { IsThere tree.now.nodes number }
    ensures { (tape : Tape) (path : Path) → StandsAt tree.now path number
        → result ≡ plain.has_value (plain_of tape tree.now).nodes path key.now bytes.now }
{
    match tree.get_key(number, key.as_str()) {
        Some(value) => value.as_slice() == bytes.as_slice(),
        None => false,
    }
}

/// Takes a key with its bytes out of a node, unless that is refused. Takes no memory.
pub fn drop_key(tree: &mut Tree, path: &[Text], key: &Text, at: Moment) -> Result<bool, Refusal>
    requires { lock_refusal tree.old.lock (asks.Dropx path.now key.now) ≡ None }
    ensures { IsTried (asks.Dropx path.now key.now) at tree.old tree.new result }
{
    match held_key_at(tree, path, key) {
        Ok(number) => {
            tree.drop_key(number, key, at);
            Ok(true)
        }
        Err(refusal) => Err(refusal),
    }
}

/// Makes a node read-only or no longer, unless that is refused or it is so. Takes no memory.
pub fn set_readonly(tree: &mut Tree, path: &[Text], on: bool, at: Moment) -> Result<bool, Refusal>
    requires { lock_refusal tree.old.lock (asks.Readonly path.now on) ≡ None }
    ensures { IsTried (asks.Readonly path.now on) at tree.old tree.new result }
{
    match node_at(tree, path) {
        Ok(number) => {
            if tree.is_readonly(number) == on {
                return Ok(false);
            }
            tree.set_readonly(number, on, at);
            Ok(true)
        }
        Err(refusal) => Err(refusal),
    }
}
