ghost use Rattle.std.specs.Prelude.{◌≡◌, ℕ, List, ◌<◌, ◌+◌, ◌≤◌, length, map, Some, None, OnOk, OnErr, IfOk};
ghost use Rattle.std.specs.Prelude.{IfErr, IsSome, nat_lt};
ghost use Rattle.std.specs.List.Sorted.{IsStrictlySortedBy};
ghost use Rattle.std.specs.Option.{option_copied, option_map};
ghost use Rattle.std.specs.Ordering.{nat_cmp};
ghost use Rattle.std.specs.BTreeMap.{get, IsUnchanged};
ghost use Rattle.plain_tree.specs.Tree.{changed_by, sort_of, written_by, CanWrite};
ghost use Rattle.plain_tree.specs.Links.{child, walk, name_cmp, lines, lines_of, IsPut, IsPutIn, IsMovedTo, IsSame};
ghost use Rattle.plain_tree.specs.Links.{IsLast};
ghost use Rattle.plain_tree.specs.Paths.{Name};

use crate::calls::Entry;
use crate::changes::{NodeChange, NodeWrite, change_node, put_node, sort_of, write_node};
use crate::keys::NodeKeys;
use crate::nodes::{Kind, Node};
use std::alloc::Global;
use std::collections::BTreeMap;
use tape_types::{List, Moment, NoMemory, Text, Times};

type Names = BTreeMap<Text, Node>;

/// What stands in each directory under each name, by the directory's uid.
#[derive(Drop)]
pub struct Links {
    dirs: BTreeMap<u64, Names>,
}

impl Links {
    pub fn new(alloc: Global) -> Links
        ensures { (u : ℕ) (n : Name) → child result u n ≡ None }
    {
        Links {
            dirs: BTreeMap::new(alloc),
        }
    }

    pub fn get(&self, uid: u64, name: &Text) -> Option<&Node>
        ensures { option_copied result ≡ child self.now uid name.now }
    {
        match self.dirs.get(&uid) {
            Some(names) => names.get(name),
            None => None,
        }
    }

    /// The node at a path, or the last one on the way there.
    pub fn walk<'a>(&'a self, root: &'a Node, path: &[Text]) -> Result<&'a Node, &'a Node>
        ensures there { IfOk result (λ node. walk (child self.now) (Some root.now) path.now ≡ Some node.now) }
        ensures missing { IfErr result (λ node. IsLast (child self.now) root.now path.now node.now) }
    {
        let mut node = root;
        for name in path {
            match self.get(node.uid, name) {
                Some(next) => node = next,
                None => return Err(node),
            }
        }
        Ok(node)
    }

    /// The lines of a directory, by the bytes of the names.
    pub fn list(&self, alloc: Global, uid: u64) -> Result<List<Entry>, NoMemory>
        ensures lines { IfOk result (λ entries. entries ≡ lines_of self.now uid) }
        ensures ascend { IsStrictlySortedBy name_cmp (map (λ e. e.name) (lines_of self.now uid)) }
    {
        match self.dirs.get(&uid) {
            Some(names) => {
                // The names of a map ascend.
                let _names_ascend = names.len();
                list_names(alloc, names)
            }
            None => Ok(List::new(alloc)),
        }
    }

    /// Whether a directory has lines.
    pub fn has_entries(&self, uid: u64) -> bool
        ensures some { result ≡ nat_lt 0 (length (lines_of self.now uid)) }
        ensures ascend { IsStrictlySortedBy name_cmp (map (λ e. e.name) (lines_of self.now uid)) }
    {
        match self.dirs.get(&uid) {
            Some(names) => names.len() > 0,
            None => false,
        }
    }

    /// Puts a node under a name of a directory, or changes nothing.
    pub fn insert(
        &mut self,
        alloc: Global,
        uid: u64,
        name: Text,
        node: Node,
    ) -> Result<(), NoMemory>
        ensures ok { OnOk result (IsPut (child self.old) (child self.new) uid name (Some node)) }
        ensures err { OnErr result (IsSame (child self.old) (child self.new)) }
    {
        if let Some(names) = self.dirs.get_mut(&uid) {
            return put_name(names, name, node);
        }
        let mut names = BTreeMap::new(alloc);
        put_name(&mut names, name, node)?;
        self.dirs.insert(uid, names)?;
        Ok(())
    }

    /// Takes out what stands under a name of a directory.
    pub fn remove(&mut self, uid: u64, name: &Text) -> Option<Node>
        ensures taken { result ≡ child self.old uid name.now }
        ensures rest { IsPut (child self.old) (child self.new) uid name.now None }
    {
        match self.dirs.get_mut(&uid) {
            Some(names) => names.remove(name),
            None => None,
        }
    }

    /// Changes what stands under a name of a directory.
    pub fn change(&mut self, uid: u64, name: &Text, change: NodeChange<'_>, at: Moment)
        ensures { IsPut (child self.old) (child self.new) uid name.now
            (option_map (changed_by change.entry at) (child self.old uid name.now)) }
    {
        if let Some(names) = self.dirs.get_mut(&uid) {
            change_name(names, name, change, at);
        }
    }

    /// Makes a change that takes memory of what stands under a name of a directory, or changes nothing.
    pub fn write(
        &mut self,
        alloc: Global,
        uid: u64,
        name: &Text,
        write: NodeWrite<'_>,
        at: Moment,
    ) -> Result<(), NoMemory>
        requires { CanWrite write }
        ensures ok { OnOk result (IsPut (child self.old) (child self.new) uid name.now
            (option_map (written_by write.entry at) (child self.old uid name.now))) }
        ensures err { OnErr result (IsSame (child self.old) (child self.new)) }
    {
        match self.dirs.get_mut(&uid) {
            Some(names) => write_name(names, alloc, name, write, at),
            None => Ok(()),
        }
    }

    /// Puts a node in place of what stands under a name of a directory. Takes no memory.
    fn replace(&mut self, uid: u64, name: &Text, node: Node)
        ensures { IsPut (child self.old) (child self.new) uid name.now
            (option_map (λ _. node) (child self.old uid name.now)) }
    {
        match self.dirs.get_mut(&uid) {
            Some(names) => replace_name(names, name, node),
            None => drop(node),
        }
    }

    /// Moves what stands under a name of one directory to a name of another, where nothing stands. Without memory
    /// nothing changes.
    pub fn rename(
        &mut self,
        alloc: Global,
        old: u64,
        old_name: &Text,
        uid: u64,
        name: &Text,
    ) -> Result<(), NoMemory>
        requires there { IsSome (child self.old old old_name.now) }
        requires free { child self.old uid name.now ≡ None }
        ensures ok { OnOk result (IsMovedTo (child self.old) (child self.new) old old_name.now uid name.now) }
        ensures err { OnErr result (IsSame (child self.old) (child self.new)) }
    {
        let copy = name.try_clone(alloc)?;
        self.insert(alloc, uid, copy, placeholder(alloc))?;
        let Some(node) = self.remove(old, old_name) else {
            unreachable!();
        };
        self.replace(uid, name, node);
        Ok(())
    }
}

fn list_names(alloc: Global, names: &Names) -> Result<List<Entry>, NoMemory>
    ensures { IfOk result (λ entries. entries ≡ lines (Some names.now)) }
{
    let mut entries = List::new(alloc);
    for (name, node) in names {
        entries.push(Entry {
            sort: sort_of(&node.kind),
            name: name.try_clone(alloc)?,
        })?;
    }
    Ok(entries)
}

fn put_name(names: &mut Names, name: Text, node: Node) -> Result<(), NoMemory>
    ensures ok { OnOk result (IsPutIn names.old names.new name (Some node)) }
    ensures err { OnErr result (IsUnchanged names.old names.new) }
{
    names.insert(name, node)?;
    Ok(())
}

fn change_name(names: &mut Names, name: &Text, change: NodeChange<'_>, at: Moment)
    ensures { IsPutIn names.old names.new name.now
        (option_map (changed_by change.entry at) (get name_cmp names.old name.now)) }
{
    if let Some(node) = names.get_mut(name) {
        change_node(node, change, at);
    }
}

fn write_name(
    names: &mut Names,
    alloc: Global,
    name: &Text,
    write: NodeWrite<'_>,
    at: Moment,
) -> Result<(), NoMemory>
    requires { CanWrite write }
    ensures ok { OnOk result (IsPutIn names.old names.new name.now
        (option_map (written_by write.entry at) (get name_cmp names.old name.now))) }
    ensures err { OnErr result ((n : Name) → get name_cmp names.new n ≡ get name_cmp names.old n) }
{
    match names.get_mut(name) {
        Some(node) => write_node(node, alloc, write, at),
        None => Ok(()),
    }
}

fn replace_name(names: &mut Names, name: &Text, node: Node)
    ensures { IsPutIn names.old names.new name.now
        (option_map (λ _. node) (get name_cmp names.old name.now)) }
{
    match names.get_mut(name) {
        Some(place) => put_node(place, node),
        None => drop(node),
    }
}

/// What stands under a new name until the node comes.
fn placeholder(alloc: Global) -> Node {
    Node {
        uid: 0,
        times: Times::all_at(Moment { secs: 0, nanos: 0 }),
        readonly: false,
        keys: NodeKeys::new(alloc),
        kind: Kind::Dir,
    }
}
