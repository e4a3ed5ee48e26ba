ghost use Rattle.std.specs.Prelude.{◌≡◌, ◌+◌, ◌++◌, ℕ, List, [], ◌∷◌, IfOk, Ok, Err, None, if◌then◌else◌};
ghost use Rattle.plain_tree.specs.Paths as paths;
ghost use Rattle.plain_tree.specs.Paths.{Path};
ghost use Rattle.plain_tree.specs.Refusals.{bad_name as why_bad_name, no_node as why_no_node, no_dir as why_no_dir};
ghost use Rattle.plain_tree.specs.Refusals.{no_file as why_no_file, exists_at, not_empty, first_of, refuse_if};
ghost use Rattle.plain_tree.specs.Refusals.{too_many, too_long as why_too_long, new_refusal as why_not_new};
ghost use Rattle.plain_tree.specs.Refusals.{many_keys as why_many_keys, read_only, refusal_within};
ghost use Rattle.plain_tree.specs.declared.calls.Call.TheVariants as asks;
ghost use Rattle.file_tree.specs.Tree.{StandsAt, plain_of, whole};
ghost use Rattle.file_tree.specs.Places.{IsThere};
ghost use Rattle.file_tree.specs.Checks.{AreChecked, IsChecked, IsMove};

use crate::found::Found;
use crate::tree::Tree;
use plain_tree::{MOST_KEYS, Refusal, Sort};
use std::alloc::Global;
use tape_types::node_keys::is_key;
use tape_types::{LONGEST_FILE, MOST_NODES, NameErr, NoMemory, Text, check_name};

/// What a rename moves, where the tree doesn't refuse it.
#[derive(Clone, Copy, Debug, PartialEq, Eq)]
pub enum Move {
    /// Nothing: it is to the path that the node has.
    Nothing,
    /// The node with this number, into the directory with that number.
    Into { number: u32, dir: u32 },
}

const LAST_UID: u64 = 1 << 62;

/// Whether the last name is one that no node may have.
fn bad_name(alloc: Global, path: &[Text]) -> Result<Option<Refusal>, NoMemory>
    ensures { IfOk result (λ refusal. refusal ≡ why_bad_name path.now) }
{
    let Some(name) = path.last() else {
        return Ok(None);
    };
    match check_name(alloc, name.as_str()) {
        Ok(()) => Ok(None),
        Err(NameErr::NoMemory) => Err(NoMemory),
        Err(_) => Ok(Some(Refusal::BadName)),
    }
}

/// The node at a path, or why nothing stands there.
pub fn node_at(tree: &Tree, path: &[Text]) -> Result<u32, Refusal>
    ensures { IsChecked (why_no_node (plain_of whole tree.now).nodes path.now) tree.now path.now result }
{
    match tree.find(path) {
        Found::Node(number) => Ok(number),
        Found::Missing => Err(Refusal::NotFound),
        Found::NotDir => Err(Refusal::NotDir),
    }
}

/// The directory at a path, or why the path is none.
fn dir_at(tree: &Tree, path: &[Text]) -> Result<u32, Refusal>
    ensures { IsChecked (why_no_dir (plain_of whole tree.now).nodes path.now) tree.now path.now result }
{
    match tree.find(path) {
        Found::Node(number) => match tree.sort(number) {
            Sort::Dir => Ok(number),
            Sort::File | Sort::Link => Err(Refusal::NotDir),
        },
        Found::Missing => Err(Refusal::NotFound),
        Found::NotDir => Err(Refusal::NotDir),
    }
}

/// The file at a path, or why the path is none.
pub fn file_at(tree: &Tree, path: &[Text]) -> Result<u32, Refusal>
    ensures { IsChecked (why_no_file (plain_of whole tree.now).nodes path.now) tree.now path.now result }
{
    match tree.find(path) {
        Found::Node(number) => match tree.sort(number) {
            Sort::Dir => Err(Refusal::IsDir),
            Sort::File => Ok(number),
            Sort::Link => Err(Refusal::IsLink),
        },
        Found::Missing => Err(Refusal::NotFound),
        Found::NotDir => Err(Refusal::NotDir),
    }
}

/// The file at a path, or why it can't be changed, or not be as long as to the end of a range.
pub fn long_file_at(tree: &Tree, path: &[Text], offset: u64, count: u64) -> Result<u32, Refusal>
    ensures { IsChecked
        (first_of (why_no_file (plain_of whole tree.now).nodes path.now
        ∷ read_only (plain_of whole tree.now).nodes path.now ∷ why_too_long (offset + count) ∷ []))
        tree.now path.now result }
{
    match file_at(tree, path) {
        Ok(number) => {
            if tree.is_readonly(number) {
                return Err(Refusal::ReadOnly);
            }
            if offset > LONGEST_FILE || count > LONGEST_FILE - offset {
                return Err(Refusal::TooLong);
            }
            Ok(number)
        }
        Err(refusal) => Err(refusal),
    }
}

/// The node at a path, or why it can't be removed.
pub fn bare_at(tree: &Tree, path: &[Text]) -> Result<u32, Refusal>
    ensures { IsChecked (refusal_within (plain_of whole tree.now) (asks.Remove path.now)) tree.now path.now result }
{
    if path.is_empty() {
        return Err(Refusal::Root);
    }
    match tree.find(path) {
        Found::Node(number) => {
            if tree.has_entries(number) {
                return Err(Refusal::NotEmpty);
            }
            if tree.is_readonly(tree.parent(number)) {
                return Err(Refusal::ReadOnly);
            }
            Ok(number)
        }
        Found::Missing => Err(Refusal::NotFound),
        Found::NotDir => Err(Refusal::NotDir),
    }
}

/// The node at a path, or why a key of it can't get any bytes.
pub fn key_at(tree: &Tree, path: &[Text], key: &Text) -> Result<u32, Refusal>
    ensures { (bytes : List ℕ) → IsChecked
        (refusal_within (plain_of whole tree.now) (asks.Setx path.now key.now bytes)) tree.now path.now result }
{
    if !is_key(key.as_str()) {
        return Err(Refusal::BadKey);
    }
    match node_at(tree, path) {
        Ok(number) => {
            if tree.is_readonly(number) {
                return Err(Refusal::ReadOnly);
            }
            if has_many_keys(tree, number, key) {
                return Err(Refusal::ManyKeys);
            }
            Ok(number)
        }
        Err(refusal) => Err(refusal),
    }
}

/// Whether a node gets no such further key.
fn has_many_keys(tree: &Tree, number: u32, key: &Text) -> bool
    requires { IsThere tree.now.nodes number }
    ensures { (path : Path) → StandsAt tree.now path number
        → refuse_if result Refusal.ManyKeys ≡ why_many_keys (plain_of whole tree.now).nodes path key.now }
{
    tree.key_count(number) >= MOST_KEYS && tree.get_key(number, key.as_str()).is_none()
}

/// The node at a path, or why it has no such key.
pub fn known_key_at(tree: &Tree, path: &[Text], key: &Text) -> Result<u32, Refusal>
    ensures { IsChecked (refusal_within (plain_of whole tree.now) (asks.Getx path.now key.now))
        tree.now path.now result }
{
    match node_at(tree, path) {
        Ok(number) => {
            if tree.get_key(number, key.as_str()).is_none() {
                return Err(Refusal::NoKey);
            }
            Ok(number)
        }
        Err(refusal) => Err(refusal),
    }
}

/// The node at a path, or why it can't lose such a key.
pub fn held_key_at(tree: &Tree, path: &[Text], key: &Text) -> Result<u32, Refusal>
    ensures { IsChecked (refusal_within (plain_of whole tree.now) (asks.Dropx path.now key.now))
        tree.now path.now result }
{
    match known_key_at(tree, path, key) {
        Ok(number) => {
            if tree.is_readonly(number) {
                return Err(Refusal::ReadOnly);
            }
            Ok(number)
        }
        Err(refusal) => Err(refusal),
    }
}

/// The directory of a new node's path, or why no node may be made there.
pub fn dir_of_new(
    tree: &Tree,
    alloc: Global,
    path: &[Text],
) -> Result<Result<u32, Refusal>, NoMemory>
    ensures { IfOk result (λ found. IsChecked (why_not_new (plain_of whole tree.now) path.now) tree.now
        (paths.parent_of path.now) found) }
{
    if let Some(refusal) = bad_name(alloc, path)? {
        return Ok(Err(refusal));
    }
    let Some((name, up)) = path.split_last() else {
        return Ok(Err(Refusal::Root));
    };
    match dir_at(tree, up) {
        Ok(dir) => Ok(free_in(tree, dir, name)),
        Err(refusal) => Ok(Err(refusal)),
    }
}

/// The directory, or why there may be no further node under a name in it.
fn free_in(tree: &Tree, dir: u32, name: &Text) -> Result<u32, Refusal>
    requires { IsThere tree.now.nodes dir }
    ensures { (path : Path) → StandsAt tree.now path dir → IsChecked
        (first_of (exists_at (plain_of whole tree.now).nodes (path ++ name.now ∷ [])
        ∷ read_only (plain_of whole tree.now).nodes path ∷ too_many (plain_of whole tree.now) ∷ []))
        tree.now path result }
{
    if tree.taken(dir, name).is_some() {
        return Err(Refusal::Exists);
    }
    if tree.is_readonly(dir) {
        return Err(Refusal::ReadOnly);
    }
    if is_full(tree) {
        return Err(Refusal::TooMany);
    }
    Ok(dir)
}

/// Whether there may be no further node.
fn is_full(tree: &Tree) -> bool
    ensures { refuse_if result Refusal.TooMany ≡ too_many (plain_of whole tree.now) }
{
    tree.count() >= MOST_NODES || tree.highest() >= LAST_UID
}

/// What a rename moves, or why it is refused.
pub fn find_move(
    tree: &Tree,
    alloc: Global,
    from: &[Text],
    to: &[Text],
) -> Result<Result<Move, Refusal>, NoMemory>
    ensures { IfOk result (λ found. IsMove (refusal_within (plain_of whole tree.now) (asks.Rename from.now to.now))
        tree.now from.now to.now found) }
{
    if let Some(refusal) = bad_name(alloc, to)? {
        return Ok(Err(refusal));
    }
    if from.is_empty() {
        return Ok(Err(Refusal::Root));
    }
    let Some((name, up)) = to.split_last() else {
        return Ok(Err(Refusal::Root));
    };
    match both_at(tree, from, up) {
        Ok((number, dir)) => Ok(move_in(tree, from, to, (number, dir), name)),
        Err(refusal) => Ok(Err(refusal)),
    }
}

/// The node at a path and the directory at another path, or why one of them isn't there.
fn both_at(tree: &Tree, from: &[Text], up: &[Text]) -> Result<(u32, u32), Refusal>
    ensures { AreChecked
        (first_of (why_no_node (plain_of whole tree.now).nodes from.now
        ∷ why_no_dir (plain_of whole tree.now).nodes up.now ∷ []))
        tree.now from.now up.now result }
{
    match from.split_last() {
        Some((name, front)) => {
            if same_path(front, up) {
                return both_in(tree, up, name);
            }
            both_apart(tree, from, up)
        }
        None => both_apart(tree, from, up),
    }
}

/// The same by two walks.
fn both_apart(tree: &Tree, from: &[Text], up: &[Text]) -> Result<(u32, u32), Refusal>
    ensures { AreChecked
        (first_of (why_no_node (plain_of whole tree.now).nodes from.now
        ∷ why_no_dir (plain_of whole tree.now).nodes up.now ∷ []))
        tree.now from.now up.now result }
{
    match node_at(tree, from) {
        Ok(number) => match dir_at(tree, up) {
            Ok(dir) => Ok((number, dir)),
            Err(refusal) => Err(refusal),
        },
        Err(refusal) => Err(refusal),
    }
}

/// The same of a node that stands directly in that directory, by one walk.
fn both_in(tree: &Tree, up: &[Text], name: &Text) -> Result<(u32, u32), Refusal>
    ensures { AreChecked
        (first_of (why_no_node (plain_of whole tree.now).nodes (up.now ++ name.now ∷ [])
        ∷ why_no_dir (plain_of whole tree.now).nodes up.now ∷ []))
        tree.now (up.now ++ name.now ∷ []) up.now result }
{
    // The tree is good.
    let _good = tree.count();
    match dir_at(tree, up) {
        Ok(dir) => match tree.child(dir, name) {
            Some(number) => Ok((number, dir)),
            None => Err(Refusal::NotFound),
        },
        Err(refusal) => Err(refusal),
    }
}

/// What a rename moves, once both nodes are found, or why it is refused.
fn move_in(
    tree: &Tree,
    from: &[Text],
    to: &[Text],
    numbers: (u32, u32),
    name: &Text,
) -> Result<Move, Refusal>
    requires there { IsThere tree.now.nodes numbers.0 }
    requires dir { IsThere tree.now.nodes numbers.1 }
    ensures { (up : Path) → StandsAt tree.now from.now numbers.0 → StandsAt tree.now up numbers.1
        → to.now ≡ up ++ name.now ∷ [] → IsMove (if paths.same_path from.now to.now then None else
        first_of (exists_at (plain_of whole tree.now).nodes to.now
        ∷ refuse_if (paths.is_below from.now to.now) Refusal.Inside
        ∷ read_only (plain_of whole tree.now).nodes (paths.parent_of from.now)
        ∷ read_only (plain_of whole tree.now).nodes (paths.parent_of to.now) ∷ []))
        tree.now from.now to.now result }
{
    if same_path(from, to) {
        return Ok(Move::Nothing);
    }
    let (number, up) = numbers;
    if tree.taken(up, name).is_some() {
        return Err(Refusal::Exists);
    }
    if is_below(from, to) {
        return Err(Refusal::Inside);
    }
    if tree.is_readonly(tree.parent(number)) {
        return Err(Refusal::ReadOnly);
    }
    if tree.is_readonly(up) {
        return Err(Refusal::ReadOnly);
    }
    Ok(Move::Into { number, dir: up })
}

/// Whether two paths are one. Long ones mostly differ in their last names.
pub fn same_path(a: &[Text], b: &[Text]) -> bool
    ensures { result ≡ paths.same_path a.now b.now }
{
    if let (Some(last), Some(other)) = (a.last(), b.last()) {
        if last != other {
            return false;
        }
    }
    a == b
}

/// Whether the second path goes on from the first one.
fn is_below(front: &[Text], path: &[Text]) -> bool
    ensures { result ≡ paths.is_below front.now path.now }
{
    path.len() != front.len() && path.starts_with(front)
}
