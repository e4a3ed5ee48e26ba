//! Calls that change the tree and store nothing.

ghost use Rattle.std.specs.Prelude.{◌≡◌, None, Some, OnErr, IfOk};
ghost use Rattle.plain_tree.specs.Paths.{Path};
ghost use Rattle.plain_tree.specs.Refusals.{lock_refusal, refusal_of};
ghost use Rattle.plain_tree.specs.declared.calls.Call.{Call as Asked};
ghost use Rattle.plain_tree.specs.declared.calls.Call.TheVariants as asks;
ghost use Rattle.file_tree.specs.Edits.{CanMake, making};
ghost use Rattle.file_tree.specs.Tree.{StandsAt, plain_of, whole};
ghost use Rattle.held_volume.specs.Applied.{IsMade, IsTreeStep, IsTried};
ghost use Rattle.held_volume.specs.Steps.{IsSameTree, IsStep};

use file_tree::{Move, Tree, bare_at, dir_of_new, find_move, long_file_at};
use plain_tree::{Refusal, Sort};
use std::alloc::Global;
use tape_types::{Moment, NoMemory, Text};

/// Makes an empty directory or file, unless that is refused.
pub fn make(
    tree: &mut Tree,
    alloc: Global,
    path: &[Text],
    sort: Sort,
    at: Moment,
) -> Result<Result<bool, Refusal>, NoMemory>
    requires makes { (call : Asked) × (making sort path.now ≡ Some call) }
    requires unlocked { (call : Asked) → making sort path.now ≡ Some call → lock_refusal tree.old.lock call ≡ None }
    ensures ok { IfOk result (λ made. (call : Asked) → making sort path.now ≡ Some call
        → IsMade call at tree.old tree.new made) }
    ensures err { OnErr result (IsSameTree tree.old tree.new) }
{
    let Some((name, _)) = path.split_last() else {
        return Ok(Err(Refusal::Root));
    };
    let dir = match dir_of_new(tree, alloc, path)? {
        Ok(dir) => dir,
        Err(refusal) => return Ok(Err(refusal)),
    };
    let name = name.try_clone(alloc)?;
    tree.reserve()?;
    make_in(tree, dir, name, sort, at);
    Ok(Ok(true))
}

/// Makes an empty directory or file under a name in a directory. Takes no memory.
fn make_in(tree: &mut Tree, dir: u32, name: Text, sort: Sort, at: Moment)
    requires { CanMake tree.old dir name sort }
    ensures { (c : CanMake tree.old dir name sort) → IsStep c.call at tree.old tree.new }
{
    // The tree is good.
    let _count = tree.count();
    let _number = tree.make(dir, name, sort, at);
    // And it is good behind that.
    let _count_now = tree.count();
}

/// Takes out a file, a link or an empty directory, unless that is refused. Takes no memory.
pub fn remove(tree: &mut Tree, path: &[Text], at: Moment) -> Result<bool, Refusal>
    requires { lock_refusal tree.old.lock (asks.Remove path.now) ≡ None }
    ensures { IsTried (asks.Remove path.now) at tree.old tree.new result }
{
    match bare_at(tree, path) {
        Ok(number) => {
            tree.unlink(number, at);
            // The tree is good.
            let _count = tree.count();
            Ok(true)
        }
        Err(refusal) => Err(refusal),
    }
}

/// Moves a node to another path, unless that is refused or the path is its own.
pub fn rename(
    tree: &mut Tree,
    alloc: Global,
    from: &[Text],
    to: &[Text],
    at: Moment,
) -> Result<Result<bool, Refusal>, NoMemory>
    requires { lock_refusal tree.old.lock (asks.Rename from.now to.now) ≡ None }
    ensures ok { IfOk result (IsTried (asks.Rename from.now to.now) at tree.old tree.new) }
    ensures err { OnErr result (tree.new ≡ tree.old) }
{
    let Some((name, _)) = to.split_last() else {
        return Ok(Err(Refusal::Root));
    };
    match find_move(tree, alloc, from, to)? {
        Ok(Move::Into { number, dir }) => {
            let name = name.try_clone(alloc)?;
            // The tree is good.
            let _count = tree.count();
            tree.move_to(number, dir, name, at);
            // And it is good behind that.
            let _count_now = tree.count();
            Ok(Ok(true))
        }
        Ok(Move::Nothing) => Ok(Ok(false)),
        Err(refusal) => Ok(Err(refusal)),
    }
}

/// Sets the length of a file, unless that is refused or the file has it. Takes no memory.
pub fn truncate(tree: &mut Tree, path: &[Text], length: u64, at: Moment) -> Result<bool, Refusal>
    requires { lock_refusal tree.old.lock (asks.Truncate path.now length) ≡ None }
    ensures { IsTried (asks.Truncate path.now length) at tree.old tree.new result }
{
    match long_file_at(tree, path, length, 0) {
        Ok(file) => Ok(set_length(tree, file, length, at)),
        Err(refusal) => Err(refusal),
    }
}

/// Sets the length of a file, and tells whether it had another. Takes no memory.
fn set_length(tree: &mut Tree, file: u32, length: u64, at: Moment) -> bool
    requires { (path : Path) × StandsAt tree.old path file
        × (refusal_of (plain_of whole tree.old) (asks.Truncate path length) ≡ None) }
    ensures { (path : Path) → StandsAt tree.old path file
        → refusal_of (plain_of whole tree.old) (asks.Truncate path length) ≡ None
        → IsTreeStep (asks.Truncate path length) at result tree.old tree.new }
{
    // The tree is good.
    let _count = tree.count();
    if tree.extents(file).length() == length {
        return false;
    }
    tree.set_length(file, length, at);
    // And it is good behind that.
    let _count_now = tree.count();
    true
}
